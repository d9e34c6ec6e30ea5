//! Laws of pictures.
ghost use Rattle.std.specs.Prelude.{◌≡◌, ℕ, List, true};
ghost use Rattle.std.specs.List.{IsDistinct};
ghost use Rattle.dp_audit.specs.Targets.{is_missing};
ghost use Rattle.dp_audit.specs.declared.jump.Jump.{Jump};
ghost use Rattle.dp_graph.specs.Arrows.{is_again};
ghost use Rattle.dp_graph.specs.Jumps.{arrows_of, destination_of, to_missing};
ghost use Rattle.dp_graph.specs.declared.exit.QueueExit.{QueueExit};
ghost use Rattle.dp_plan.specs.Plan.{PlanOf};
ghost use Rattle.dp_plan.specs.declared.entry.Entry.{Entry};
ghost use Rattle.dp_plan.specs.declared.entry.EntryId.{EntryId};

/// A target of which an audit says that it leads nowhere has a red arrow. This function does nothing.
pub fn what_an_audit_reports_is_red()
    ensures { (plan : PlanOf) (context : List ℕ) (own : EntryId) (entry : Entry) (jump : Jump) (target : List ℕ)
        → is_missing plan context entry.name jump target ≡ true
        → destination_of plan context own entry jump target ≡ to_missing target }
{}

/// An extension has no two arrows of one kind to the same place. This function does nothing.
pub fn no_arrow_is_drawn_twice()
    ensures { (plan : PlanOf) (exits : List QueueExit) (ids : List EntryId) → IsDistinct is_again (arrows_of plan exits ids) }
{}
