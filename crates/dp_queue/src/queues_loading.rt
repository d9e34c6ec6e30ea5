//! The lines of a file of queues, taken one at a time.
ghost use Rattle.std.specs.Prelude.{◌≡◌, Ok, IfOk};
ghost use Rattle.dp_conf.specs.Answers.{Answers};
ghost use Rattle.dp_queue.specs.Faults.{reason_of};
ghost use Rattle.dp_queue.specs.File as spec;
ghost use Rattle.dp_queue.specs.steps.Loading.{file_of};
ghost use Rattle.dp_queue.specs.Rest.{IsAtRest};

use crate::fault::{QueueFault, QueueKind};
use crate::file::File;
use crate::queues::Queues;
use dp_conf::{FirstFault, Line, NoMemory, TakeLine, beside, take_lines};
use std::alloc::Global;
use std::marker::Model;

/// The result of the lines so far, until one of them has a fault, which is kept. A contract sees it as the result or
/// the fault.
#[derive(Drop)]
struct QueuesLoading {
    file: File,
    fault: FirstFault<QueueKind>,
}

impl Model for QueuesLoading {
    ghost use Rattle.std.specs.Prelude.{Result};
    ghost use Rattle.dp_queue.specs.File.{FileOf};
    ghost use Rattle.dp_queue.specs.steps.Loading.{outcome};
    ghost use Rattle.dp_queue.specs.declared.fault.QueueFault.{QueueFault};

    ghost Value = { Result FileOf QueueFault };

    ghost view = { λ loading. outcome loading.fault loading.file };
}

impl QueuesLoading {
    /// The value before the first line.
    fn new(alloc: Global) -> Self
        ensures { result ≡ Ok spec.nothing_read }
    {
        QueuesLoading {
            file: File::new(alloc),
            fault: FirstFault::none(),
        }
    }

    /// The result of the lines, or the kept fault.
    fn into_file(self) -> Result<File, QueueFault>
        ensures { Answers (λ file. file) reason_of result self }
    {
        let QueuesLoading { file, fault } = self;
        let ((), file) = beside(fault.into_result(), file)?;
        Ok(file)
    }
}

impl TakeLine for QueuesLoading {
    ghost use Rattle.dp_queue.specs.steps.Loading.{after_one};

    ghost after_line = { after_one };

    // The lines after one with a fault are read only for a fault of the text.
    fn take(&mut self, alloc: Global, line: Line<'_>) -> Result<(), NoMemory> {
        if self.fault.is_kept() {
            return Ok(());
        }
        let taken = self.file.take(alloc, line);
        self.fault.keep(taken)
    }
}

/// The result of the lines of a text: a fault of the text comes before those of queues.
fn read_file(alloc: Global, text: &[u8]) -> Result<File, QueueFault>
    ensures { Answers (λ file. file) reason_of result (file_of text.now) }
{
    let mut loading = QueuesLoading::new(alloc);
    take_lines(alloc, text, &mut loading)?;
    loading.into_file()
}

impl Queues {
    /// Loads the queues of a file.
    ///
    /// A section is a queue, and `[general]` in any ASCII case is ignored. A repeated key takes its last value, but
    /// each `member` adds a member, unless it is one already. The error is the first fault of the text itself, as
    /// `QueueLoadKind::Conf`; else it is the fault of the first faulty line of a queue, as `QueueLoadKind::Queue`: see
    /// [`QueueKind`](crate::QueueKind). It is `NoMemory` if memory runs out. No calls wait in the queues, and their
    /// agents are idle.
    pub fn load(alloc: Global, text: &[u8]) -> Result<Self, QueueFault>
        ensures loaded { Answers (λ queues. queues) reason_of result (spec.queues_in text.now) }
        ensures rest { IfOk result IsAtRest }
    {
        let file = read_file(alloc, text)?;
        Ok(file.into_queues(alloc))
    }
}
