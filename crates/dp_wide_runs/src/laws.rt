//! Laws of runs that stop before anything unknown, of debugged ones among them, and of audits over the wide table.
ghost use Rattle.std.specs.Prelude.{◌≡◌, ℕ, List, All, Some, None, true};
ghost use Rattle.std.specs.List.{AllByRecursion};
ghost use Rattle.dp_app.specs.Cells.{CellOf};
ghost use Rattle.dp_app.specs.Rows.{after_dispatch};
ghost use Rattle.dp_app.specs.declared.moves.Move.TheVariants.{Next};
ghost use Rattle.dp_commands.specs.Debug.{Watch};
ghost use Rattle.dp_commands.specs.Trace.{trace_by};
ghost use Rattle.dp_commands.specs.Turns.{state_past};
ghost use Rattle.dp_commands.specs.Verbose.{InForce};
ghost use Rattle.dp_commands.specs.declared.script.Turn.{Turn as plain_turns};
ghost use Rattle.dp_machine.specs.World.{World};
ghost use Rattle.dp_machine.specs.declared.refusal.Refusal.{Refusal as refusals};
ghost use Rattle.dp_wide_runs.specs.Beside.{without};
ghost use Rattle.dp_wide_runs.specs.Debugging.{plain_debug_turn, verbose_debug_turn, without_shows};
ghost use Rattle.dp_wide_runs.specs.Given.{IsKnown, meetings, wide_trace};
ghost use Rattle.dp_wide.specs.Wide.{wide_rows};
ghost use Rattle.dp_wide_runs.specs.Shows.{call_in};
ghost use Rattle.dp_wide_runs.specs.Turns.{Stops, wide_meanings, wide_turn};
ghost use Rattle.dp_wide_runs.specs.WideFindings.{goes_on_at_once};
ghost use Rattle.dp_wide_runs.specs.declared.wide_turn.WideTurn.{WideTurn as turns};

/// No step goes to the machine in a world in which something is unknown ahead of its channel: in any world and for any turns, no step that
/// they are given as meets such a world. This function does nothing.
pub fn steps_are_known()
    ensures { (at : Stops × World) (script : List turns) → All IsKnown (meetings at script) }
{}

/// After each application by which an audit follows an endless run, the wide table leads a channel on to the next priority, with any
/// arguments and in any state of the channel. This function does nothing.
pub fn runs_go_on()
    ensures { (name arguments : List ℕ) (cell : CellOf) → goes_on_at_once name ≡ true
        → (after_dispatch (wide_rows name) arguments cell).1 ≡ Some Next }
{}

/// If no call is shown, the trace of the turns of a plain script over the wide table is that of the plain script. This function does
/// nothing.
pub fn traces_are_plain()
    ensures { (w : World) (script : List plain_turns) → AllByRecursion (λ turn. call_in turn ≡ None) script
        → wide_trace w script ≡ trace_by wide_meanings w script }
{}

/// A debugged run passes through the same worlds as the run without a break over the same turns, and stops where that run stops: after any
/// turns, in any world, plainly or verbosely. The turns that show a value, which a debugged run leaves out, change no world. This function
/// does nothing.
pub fn breaks_change_no_world()
    ensures plain { (watch : Watch) (at : Stops × World) (script : List turns)
        → without (state_past plain_debug_turn ((at.0, (watch, tt {0})), at.1) script) ≡ state_past wide_turn at script }
    ensures verbose { (explanation : refusals → List ℕ) (watch : Watch) (in_force : InForce) (at : Stops × World) (script : List turns)
        → without (state_past (verbose_debug_turn explanation) ((at.0, (watch, in_force)), at.1) script) ≡ state_past wide_turn at script }
    ensures shows { (at : Stops × World) (script : List turns)
        → (state_past wide_turn at (without_shows script)).1 ≡ (state_past wide_turn at script).1 }
{}
