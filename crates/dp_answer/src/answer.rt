//! The answer: which entries a phone call may run, and how a call gets to them.
ghost use Rattle.std.specs.Prelude.{◌≡◌, false, IfOk, IsTrue};
ghost use Rattle.dp_app.specs.Rows.{with_functions};
ghost use Rattle.dp_answer.specs.Steps.{IsProvedBy};

use crate::names::opening_names;
use crate::route::Cause;
use crate::search::{AreaSearch, pieces_in};
use crate::trails::Found;
use dp_closed::{Audit, DutyTable, KeptClaim, KeptOutside, Marks, ReachShapes};
use dp_conf::NoMemory;
use dp_pieces::{NameTable, Piece};
use dp_plan::Dialplan;
use std::alloc::Global;

/// The question: of the calls that the outside allows, what a call that comes in at the context may run.
#[derive(Clone, Copy)]
pub(crate) struct OutsideQuestion<'a> {
    pub(crate) plan: &'a Dialplan,
    /// The contexts of the queues' ways out, each as the pieces of its name.
    pub(crate) ways: &'a [Vec<Piece>],
    pub(crate) outside: &'a KeptOutside,
    pub(crate) context: &'a [u8],
}

/// Lets calls come in at each of these contexts.
fn enter_all(
    alloc: Global,
    search: &mut AreaSearch<'_>,
    contexts: &[Vec<u8>],
    exten: &[Piece],
) -> Result<(), NoMemory> {
    for start in contexts {
        let name = pieces_in(alloc, start)?;
        search.lead(alloc, &name, exten, Cause::Entrance)?;
    }
    Ok(())
}

/// The findings for calls of each context where they come in, and whether they are complete.
fn find_all<'a, T: DutyTable>(
    alloc: Global,
    question: OutsideQuestion<'a>,
) -> Result<(AreaSearch<'a>, bool), NoMemory> {
    let names = opening_names(alloc, question.outside)?;
    let mut search = AreaSearch::new(alloc, question.plan, question.ways, names)?;
    let any = [Piece::AnyOf(question.outside.exten)];
    enter_all(alloc, &mut search, &question.outside.contexts, &any)?;
    let is_whole = search.go::<T>(alloc)?;
    Ok((search, is_whole))
}

/// The findings for a call of the context alone, and whether they are complete, given the bytes of names, and the entries of which nothing
/// is known that calls of any context may run.
fn find_one<'a, T: DutyTable>(
    alloc: Global,
    question: OutsideQuestion<'a>,
    names: NameTable,
    unknown: Marks,
) -> Result<(AreaSearch<'a>, bool), NoMemory> {
    let mut search = AreaSearch::new(alloc, question.plan, question.ways, names)?;
    search.unknown = unknown;
    let any = [Piece::AnyOf(question.outside.exten)];
    let name = pieces_in(alloc, question.context)?;
    search.lead(alloc, &name, &any, Cause::Entrance)?;
    let is_whole = search.go::<T>(alloc)?;
    Ok((search, is_whole))
}

/// Whether the findings are proved, with the areas of all calls.
fn is_proved<T: DutyTable>(
    alloc: Global,
    question: OutsideQuestion<'_>,
    search: &AreaSearch<'_>,
    reach: &ReachShapes,
) -> Result<bool, NoMemory>
    ensures { IfOk result (λ yes. IsTrue yes → IsProvedBy (with_functions T.rows T.Functions.table) question.entry search.now.marks) }
{
    let audit = Audit {
        wide: KeptClaim {
            plan: question.plan,
            names: &search.names,
            reach,
            ways: question.ways,
        },
        reach: &search.reach,
        outside: question.outside,
        context: question.context,
    };
    audit.is_closed::<T>(alloc, Some(&search.marks))
}

/// No findings but the entries of which nothing is known, and nothing proved.
fn nothing_proved<'a>(
    alloc: Global,
    question: OutsideQuestion<'a>,
    unknown: Marks,
) -> Result<Found<'a>, NoMemory>
    ensures { IfOk result (λ found. found.is_proved ≡ false) }
{
    let names = opening_names(alloc, question.outside)?;
    let mut search = AreaSearch::new(alloc, question.plan, question.ways, names)?;
    search.unknown = unknown;
    Ok(Found {
        search,
        is_proved: false,
    })
}

/// Whether the findings are complete and proved.
fn is_found<T: DutyTable>(
    alloc: Global,
    question: OutsideQuestion<'_>,
    found: &(AreaSearch<'_>, bool),
    reach: &ReachShapes,
) -> Result<bool, NoMemory>
    ensures { IfOk result (λ yes. IsTrue yes → IsProvedBy (with_functions T.rows T.Functions.table) question.entry found.now.0.marks) }
{
    let (search, is_whole) = found;
    if !*is_whole {
        return Ok(false);
    }
    let is_proved = is_proved::<T>(alloc, question, search, reach)?;
    Ok(is_proved)
}

/// Which entries a call may run, and whether that is proved.
pub(crate) fn answer<'a, T: DutyTable>(
    alloc: Global,
    question: OutsideQuestion<'a>,
) -> Result<Found<'a>, NoMemory>
    ensures { IfOk result (λ found. IsTrue found.is_proved
        → IsProvedBy (with_functions T.rows T.Functions.table) question.entry found.search.marks) }
{
    let (all, is_whole) = find_all::<T>(alloc, question)?;
    let (names, reach, unknown) = all.into_parts();
    if !is_whole {
        let found = nothing_proved(alloc, question, unknown)?;
        return Ok(found);
    }
    let found = find_one::<T>(alloc, question, names, unknown)?;
    let is_proved = is_found::<T>(alloc, question, &found, &reach)?;
    let (search, _is_whole) = found;
    Ok(Found { search, is_proved })
}
