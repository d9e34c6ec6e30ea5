//! All faults in a file of queues.
ghost use Rattle.std.specs.Prelude.{◌≡◌, ℕ, List, [], ◌∷◌, OnOk, Ok, Err, true};
ghost use Rattle.std.specs.Result.{is_ok};
ghost use Rattle.dp_conf.specs.Answers.{Answers};
ghost use Rattle.dp_conf.specs.Lines.{LineOf};
ghost use Rattle.dp_queue.specs.AllFaults.{faults_in, faultless_after, left_after};
ghost use Rattle.dp_queue.specs.Faults.{fault_of_line, reason_of};
ghost use Rattle.dp_queue.specs.File.{after_lines, queues_in, nothing_read};
ghost use Rattle.dp_queue.specs.steps.Sifting as spec;

use crate::fault::{QueueFault, QueueKind};
use crate::file::File;
use dp_conf::{FaultyLine, Line, NoMemory, TakeFault, TakeLine, beside, take_lines};
use std::alloc::Global;
use std::marker::Model;

/// The result of the lines without a fault, and the faults of the other lines.
#[derive(Drop)]
struct QueueFaults {
    file: File,
    faults: Vec<QueueFault>,
}

impl Model for QueueFaults {
    ghost use Rattle.dp_queue.specs.steps.Sifting.{SiftedQueues};

    ghost Value = { SiftedQueues };

    ghost view = { λ found. record { file = found.file; faults = found.faults.items } };
}

impl QueueFaults {
    /// The value before the first line.
    fn new(alloc: Global) -> Self
        ensures { result ≡ spec.nothing_sifted }
    {
        QueueFaults {
            file: File::new(alloc),
            faults: Vec::new(alloc),
        }
    }

    /// Adds the fault of a line.
    fn push(&mut self, fault: FaultyLine<QueueKind>) -> Result<(), NoMemory>
        ensures { OnOk result (self.new ≡ spec.with_fault self.old (fault_of_line fault)) }
    {
        self.faults.push(QueueFault::from(fault))?;
        Ok(())
    }

    /// The faults. The result of the other lines is dropped.
    fn into_faults(self) -> Vec<QueueFault>
        ensures { result.items ≡ self.faults }
    {
        let QueueFaults { file: _, faults } = self;
        faults
    }
}

impl TakeLine for QueueFaults {
    ghost use Rattle.dp_queue.specs.steps.Sifting.{after_any};

    ghost after_line = { after_any };

    // A line with a fault has no effect on the lines after it.
    fn take(&mut self, alloc: Global, line: Line<'_>) -> Result<(), NoMemory> {
        match self.file.take(alloc, line) {
            Ok(()) => Ok(()),
            Err(TakeFault::Line(fault)) => self.push(fault),
            Err(TakeFault::NoMemory) => Err(NoMemory),
        }
    }
}

/// All faults in a file of queues, in the order of their lines, at most one for each line.
///
/// A line with a fault is skipped: the lines after it are read as if it were empty. So the pairs after a second header with one name are
/// read as those of the section before it. The list is empty exactly if the file loads; otherwise its first fault is the one for which
/// [`Queues::load`](crate::Queues::load) refuses the file: see [`show_faults_decide_loading`].
///
/// A fault of the text itself is the error, as `QueueLoadKind::Conf`, because it leaves open how the lines after it are read. The error is
/// `NoMemory` if memory runs out.
pub fn queue_faults(alloc: Global, text: &[u8]) -> Result<Vec<QueueFault>, QueueFault>
    ensures { Answers (λ faults. faults.items) reason_of result (faults_in text.now) }
{
    let mut found = QueueFaults::new(alloc);
    let read = take_lines(alloc, text, &mut found);
    let ((), found) = beside(read, found)?;
    Ok(found.into_faults())
}

/// States that a file without a fault loads, that a file with faults is refused for the first of them, and that a file whose text has a
/// fault is refused for that fault. It does nothing.
pub fn show_faults_decide_loading()
    ensures none { (text : List ℕ) → faults_in text ≡ Ok [] → is_ok (queues_in text) ≡ true }
    ensures first { (text : List ℕ) (fault : QueueFault) (faults : List QueueFault) → faults_in text ≡ Ok (fault ∷ faults)
        → queues_in text ≡ Err fault }
    ensures text { (text : List ℕ) (fault : QueueFault) → faults_in text ≡ Err fault → queues_in text ≡ Err fault }
{}

/// States that the lines without a fault have no fault either when they are read alone, and give what they gave among the others. It does
/// nothing.
pub fn show_faultless_lines_stand_alone()
    ensures { (lines : List LineOf) → after_lines nothing_read (faultless_after nothing_read lines) ≡ Ok (left_after nothing_read lines) }
{}
