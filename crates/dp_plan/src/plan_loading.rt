//! The lines of the text of a dialplan, taken one at a time.
ghost use Rattle.std.specs.Prelude.{◌≡◌, Ok};
ghost use Rattle.dp_conf.specs.Answers.{Answers};
ghost use Rattle.dp_plan.specs.Faults.{reason_of};
ghost use Rattle.dp_plan.specs.steps.Loading as spec;

use crate::draft::Draft;
use crate::fault::{LoadFault, LoadKind};
use crate::line_results::Made;
use dp_conf::{FirstFault, Line, NoMemory, TakeLine, beside, take_lines};
use std::alloc::Global;
use std::marker::Model;

/// The result of the lines so far, until one of them has a fault, which is kept. A contract sees it as the result or
/// the fault.
#[derive(Drop)]
struct PlanLoading {
    made: Made,
    fault: FirstFault<LoadKind>,
}

impl Model for PlanLoading {
    ghost use Rattle.std.specs.Prelude.{Result};
    ghost use Rattle.dp_plan.specs.steps.Loading.{MadeOf, outcome};
    ghost use Rattle.dp_plan.specs.declared.fault.LoadFault.{LoadFault};

    ghost Value = { Result MadeOf LoadFault };

    ghost view = { λ loading. outcome loading.fault loading.made };
}

impl PlanLoading {
    /// The value before the first line.
    fn new(alloc: Global) -> Self
        ensures { result ≡ Ok spec.nothing_made }
    {
        PlanLoading {
            made: Made::new(alloc),
            fault: FirstFault::none(),
        }
    }

    /// The draft made by the lines, or the kept fault.
    fn into_draft(self) -> Result<Draft, LoadFault>
        ensures { Answers (λ draft. draft) reason_of result (spec.draft_made self) }
    {
        let PlanLoading { made, fault } = self;
        let ((), made) = beside(fault.into_result(), made)?;
        Ok(made.into_draft())
    }
}

impl TakeLine for PlanLoading {
    ghost use Rattle.dp_plan.specs.steps.Loading.{after_one};

    ghost after_line = { after_one };

    // The lines after one with a fault are read only for a fault of the text.
    fn take(&mut self, alloc: Global, line: Line<'_>) -> Result<(), NoMemory> {
        if self.fault.is_kept() {
            return Ok(());
        }
        let taken = self.made.take(alloc, line);
        self.fault.keep(taken)
    }
}

/// The draft made by the lines of a text: a fault of the text comes before those of a context.
pub(crate) fn read_draft(alloc: Global, text: &[u8]) -> Result<Draft, LoadFault>
    ensures { Answers (λ draft. draft) reason_of result (spec.drafted_of text.now) }
{
    let mut loading = PlanLoading::new(alloc);
    let read = take_lines(alloc, text, &mut loading);
    let ((), loading) = beside(read, loading)?;
    loading.into_draft()
}
