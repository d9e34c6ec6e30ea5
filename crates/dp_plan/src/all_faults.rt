//! All faults in the text of a dialplan.
ghost use Rattle.std.specs.Prelude.{◌≡◌, ℕ, List, [], ◌∷◌, OnOk, Ok, Err, true};
ghost use Rattle.std.specs.Result.{is_ok};
ghost use Rattle.dp_conf.specs.Answers.{Answers};
ghost use Rattle.dp_conf.specs.Lines.{LineOf};
ghost use Rattle.dp_plan.specs.AllFaults.{faults_of, faultless_after, kept_after};
ghost use Rattle.dp_plan.specs.Faults.{fault_of_line, reason_of};
ghost use Rattle.dp_plan.specs.Items.{items_after};
ghost use Rattle.dp_plan.specs.Loaded.{plan_and_notes};
ghost use Rattle.dp_plan.specs.steps.Sifting as spec;

use crate::fault::{LoadFault, LoadKind};
use crate::line_results::Made;
use dp_conf::{FaultyLine, Line, NoMemory, TakeFault, TakeLine, beside, take_lines};
use std::alloc::Global;
use std::marker::Model;

/// The result of the lines without a fault, and the faults of the other lines.
#[derive(Drop)]
struct PlanFaults {
    made: Made,
    faults: Vec<LoadFault>,
}

impl Model for PlanFaults {
    ghost use Rattle.dp_plan.specs.steps.Sifting.{Sifted};

    ghost Value = { Sifted };

    ghost view = { λ found. record { made = found.made; faults = found.faults.items } };
}

impl PlanFaults {
    /// The value before the first line.
    fn new(alloc: Global) -> Self
        ensures { result ≡ spec.nothing_sifted }
    {
        PlanFaults {
            made: Made::new(alloc),
            faults: Vec::new(alloc),
        }
    }

    /// Adds the fault of a line.
    fn push(&mut self, fault: FaultyLine<LoadKind>) -> Result<(), NoMemory>
        ensures { OnOk result (self.new ≡ spec.with_fault self.old (fault_of_line fault)) }
    {
        self.faults.push(LoadFault::from(fault))?;
        Ok(())
    }

    /// The faults. The result of the other lines is dropped.
    fn into_faults(self) -> Vec<LoadFault>
        ensures { result.items ≡ self.faults }
    {
        let PlanFaults { made: _, faults } = self;
        faults
    }
}

impl TakeLine for PlanFaults {
    ghost use Rattle.dp_plan.specs.steps.Sifting.{after_any};

    ghost after_line = { after_any };

    // A line with a fault has no effect on the lines after it.
    fn take(&mut self, alloc: Global, line: Line<'_>) -> Result<(), NoMemory> {
        match self.made.take(alloc, line) {
            Ok(()) => Ok(()),
            Err(TakeFault::Line(fault)) => self.push(fault),
            Err(TakeFault::NoMemory) => Err(NoMemory),
        }
    }
}

/// All faults in the text of a dialplan, in the order of their lines, at most one for each line.
///
/// A line with a fault is skipped: the lines after it are read as if it were empty. So a `same` after it continues the extension before it,
/// and an `n` counts on from the line before it. The list is empty exactly if the text loads; otherwise its first fault is the one for
/// which [`Dialplan::load`](crate::Dialplan::load) refuses the text: see [`show_faults_decide_loading`].
///
/// A fault of the text itself is the error, as `LoadKind::Conf`, because it leaves open how the lines after it are read. The error is
/// `NoMemory` if memory runs out.
pub fn plan_faults(alloc: Global, text: &[u8]) -> Result<Vec<LoadFault>, LoadFault>
    ensures { Answers (λ faults. faults.items) reason_of result (faults_of text.now) }
{
    let mut found = PlanFaults::new(alloc);
    let read = take_lines(alloc, text, &mut found);
    let ((), found) = beside(read, found)?;
    Ok(found.into_faults())
}

/// States that a text without a fault loads, that a text with faults is refused for the first of them, and that a text with a fault of its
/// own is refused for that fault. It does nothing.
pub fn show_faults_decide_loading()
    ensures none { (text : List ℕ) → faults_of text ≡ Ok [] → is_ok (plan_and_notes text) ≡ true }
    ensures first { (text : List ℕ) (fault : LoadFault) (faults : List LoadFault) → faults_of text ≡ Ok (fault ∷ faults)
        → plan_and_notes text ≡ Err fault }
    ensures text { (text : List ℕ) (fault : LoadFault) → faults_of text ≡ Err fault → plan_and_notes text ≡ Err fault }
{}

/// States that the lines without a fault have no fault either when they are read alone, and give what they gave among the others. It does
/// nothing.
pub fn show_faultless_lines_stand_alone()
    ensures { (lines : List LineOf) → items_after [] (faultless_after [] lines) ≡ Ok (kept_after [] lines) }
{}
