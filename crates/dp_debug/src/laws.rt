//! A law of runs that halt and continue.
ghost use Rattle.std.specs.Prelude.{ℕ, ◌+◌, List, []};
ghost use Rattle.dp_app.specs.Rows.{Meanings};
ghost use Rattle.dp_machine.specs.World.{World};
ghost use Rattle.dp_machine.specs.declared.event.Event.{Event};
ghost use Rattle.dp_machine.specs.declared.reply.Reply.{Reply};
ghost use Rattle.dp_debug.specs.Cut.{HasTaken, IsRun};
ghost use Rattle.dp_debug.specs.declared.breaks.Break.{Break};
ghost use Rattle.dp_debug.specs.declared.halt.Halt.{Halt};

/// A run that halts, and continues over the same list from where it halted, gives the machine the first events of the list, as many as the
/// second halt says: each once, in their order. The trace has the replies to them, and the world is the one after them. This holds after
/// the first halt, and after each further one. This function does nothing.
pub fn resuming()
    ensures both { (meanings : Meanings) (w between after : World) (events : List Event) (breaks : List Break)
        (first second : Halt)
        (trace whole : List Reply)
        → IsRun meanings w events breaks 0 0 [] first trace between
        → IsRun meanings between events breaks first.taken (first.taken + 1) trace second whole after
        → HasTaken meanings w events second.taken whole after }
    ensures first { (meanings : Meanings) (w after : World) (events : List Event) (breaks : List Break) (halt : Halt)
        (trace : List Reply)
        → IsRun meanings w events breaks 0 0 [] halt trace after → HasTaken meanings w events halt.taken trace after }
    ensures further { (meanings : Meanings) (w between after : World) (events : List Event) (breaks : List Break)
        (taken : ℕ) (halt : Halt)
        (trace whole : List Reply)
        → HasTaken meanings w events taken trace between
        → IsRun meanings between events breaks taken (taken + 1) trace halt whole after
        → HasTaken meanings w events halt.taken whole after }
{}
