//! The further text of an answer: how a call gets to each context, and what an engineer may have to fix. Nothing is claimed of it.
ghost use Rattle.std.specs.Prelude.{◌≡◌, option_map};
ghost use Rattle.dp_answer.specs.Steps.{answers_of};

use crate::chain::push_chain;
use crate::jumps::jumps_to;
use crate::search::{AreaSearch, FirstFound};
use crate::text::{context_name, example, push_entry, push_number};
use dp_closed::{DutyTable, Marks, found_shape};
use dp_conf::{NoMemory, same_word};
use dp_plan::{Dialplan, Entry, EntryId};
use std::alloc::Global;

/// For each context how a call gets there, and the text after the answer.
#[derive(Drop)]
pub(crate) struct Trails {
    pub(crate) chains: Vec<Vec<u8>>,
    pub(crate) tail: Vec<u8>,
}

/// The findings, and whether they are proved; else a call may run each entry.
#[derive(Drop)]
pub(crate) struct Found<'a> {
    pub(crate) search: AreaSearch<'a>,
    pub(crate) is_proved: bool,
}

impl Found<'_> {
    /// Whether a call may run the entry.
    fn has(&self, id: EntryId) -> bool {
        !self.is_proved || self.search.marks.has(id)
    }

    /// The marks of the entries in the answer, or none if every entry is in it.
    pub(crate) fn answers(&self) -> Option<&Marks>
        ensures { option_map (λ marks. marks.now) result ≡ answers_of self.now }
    {
        if self.is_proved {
            return Some(&self.search.marks);
        }
        None
    }

    /// The dialplan.
    fn plan(&self) -> &Dialplan {
        self.search.plan
    }
}

/// How a call gets to a context of which an entry was found, if there is one.
fn chain_to(
    alloc: Global,
    search: &AreaSearch<'_>,
    first: Option<FirstFound>,
) -> Result<Vec<u8>, NoMemory> {
    let mut chain = Vec::new(alloc);
    if let Some(first) = first {
        push_chain(alloc, &mut chain, search, first.route)?;
    }
    Ok(chain)
}

/// How a call gets to each context.
fn chains_of(alloc: Global, search: &AreaSearch<'_>) -> Result<Vec<Vec<u8>>, NoMemory> {
    let mut chains = Vec::new(alloc);
    for first in &search.firsts {
        let chain = chain_to(alloc, search, *first)?;
        chains.push(chain)?;
    }
    Ok(chains)
}

/// The number of entries or contexts, and the number of those that a call may reach.
#[derive(Clone, Copy)]
struct Count {
    all: u64,
    found: u64,
}

impl Count {
    /// Counts one more.
    fn with(self, is_found: bool) -> Self {
        Count {
            all: self.all.saturating_add(1),
            found: self.found.saturating_add(u64::from(is_found)),
        }
    }

    /// Adds `N of M` and a word.
    fn push(self, out: &mut Vec<u8>, word: &[u8]) -> Result<(), NoMemory> {
        push_number(out, self.found)?;
        out.extend_from_slice(b" of ")?;
        push_number(out, self.all)?;
        out.extend_from_slice(word)?;
        Ok(())
    }
}

/// Counts the entries of a context in addition to earlier ones.
fn with_entries(before: Count, found: &Found<'_>, context: usize, entries: &[Entry]) -> Count {
    let mut count = before;
    for entry in 0..entries.len() {
        count = count.with(found.has(EntryId { context, entry }));
    }
    count
}

/// Adds how many entries in how many contexts a call may run.
fn push_counts(out: &mut Vec<u8>, found: &Found<'_>) -> Result<(), NoMemory> {
    let mut entries = Count { all: 0, found: 0 };
    let mut contexts = Count { all: 0, found: 0 };
    for (number, context) in found.plan().contexts().iter().enumerate() {
        let more = with_entries(entries, found, number, context.entries());
        contexts = contexts.with(more.found > entries.found);
        entries = more;
    }
    out.extend_from_slice(b"ok ")?;
    entries.push(out, b" entries in ")?;
    contexts.push(out, b" contexts\n")
}

/// Adds the line of an entry, after a text.
fn push_line(
    out: &mut Vec<u8>,
    before: &[u8],
    plan: &Dialplan,
    id: EntryId,
) -> Result<(), NoMemory> {
    out.extend_from_slice(before)?;
    push_entry(out, plan, id)?;
    out.push(b'\n')?;
    Ok(())
}

/// Adds the line of each entry of a context that is marked, after a text.
fn push_marked_of(
    out: &mut Vec<u8>,
    plan: &Dialplan,
    marks: &Marks,
    before: &[u8],
    context: usize,
) -> Result<(), NoMemory> {
    let Some(each) = plan.contexts().get(context) else {
        return Ok(());
    };
    for entry in 0..each.entries().len() {
        let id = EntryId { context, entry };
        if marks.has(id) {
            push_line(out, before, plan, id)?;
        }
    }
    Ok(())
}

/// Adds the line of each entry that is marked, after a text.
fn push_marked(
    out: &mut Vec<u8>,
    plan: &Dialplan,
    marks: &Marks,
    before: &[u8],
) -> Result<(), NoMemory> {
    for context in 0..plan.contexts().len() {
        push_marked_of(out, plan, marks, before, context)?;
    }
    Ok(())
}

/// What is remarked of an entry because of its application.
#[derive(Clone, Copy)]
enum EntryRemark {
    /// The table lacks the application.
    Lacking,
    /// The application hands the call to a program, which may send it to any place.
    Program,
}

/// Whether an application hands a call to a program.
fn is_program(application: &[u8]) -> bool {
    same_word(application, b"AGI")
        || same_word(application, b"DeadAGI")
        || same_word(application, b"EAGI")
        || same_word(application, b"ExternalIVR")
        || same_word(application, b"Stasis")
}

impl EntryRemark {
    /// Whether it applies to an application.
    fn holds<T: DutyTable>(self, application: &[u8]) -> bool {
        let is_known = T::number_of(application).is_some();
        match self {
            EntryRemark::Lacking => !is_known,
            EntryRemark::Program => is_known && is_program(application),
        }
    }

    /// The text before an entry.
    fn before(self) -> &'static [u8] {
        match self {
            EntryRemark::Lacking => b"no such application: ",
            EntryRemark::Program => b"handed to a program: ",
        }
    }

    /// The line behind the entries.
    fn after(self) -> &'static [u8] {
        match self {
            EntryRemark::Lacking => {
                b"of what an exchange does that has this application, nothing is claimed\n"
            }
            EntryRemark::Program => b"of where such a program sends the call, nothing is claimed\n",
        }
    }
}

/// Adds the line of each entry of a context that a call may run and to which a remark applies.
fn push_remarked_of<T: DutyTable>(
    out: &mut Vec<u8>,
    found: &Found<'_>,
    remark: EntryRemark,
    context: usize,
    entries: &[Entry],
) -> Result<(), NoMemory> {
    for (number, entry) in entries.iter().enumerate() {
        let id = EntryId {
            context,
            entry: number,
        };
        if found.has(id) && remark.holds::<T>(entry.application.bytes()) {
            push_line(out, remark.before(), found.plan(), id)?;
        }
    }
    Ok(())
}

/// Adds the line of each entry that a call may run and to which a remark applies, and what is not claimed of these.
fn push_remarked<T: DutyTable>(
    out: &mut Vec<u8>,
    found: &Found<'_>,
    remark: EntryRemark,
) -> Result<(), NoMemory> {
    let before = out.len();
    for (number, context) in found.plan().contexts().iter().enumerate() {
        push_remarked_of::<T>(out, found, remark, number, context.entries())?;
    }
    if out.len() > before {
        out.extend_from_slice(remark.after())?;
    }
    Ok(())
}

/// Adds what an engineer may have to fix or to look at: jumps to an unknown context, entries of which nothing is known, applications that the
/// table lacks, and programs that calls are handed to.
fn push_remarks<T: DutyTable>(out: &mut Vec<u8>, found: &Found<'_>) -> Result<(), NoMemory> {
    let search = &found.search;
    push_marked(
        out,
        search.plan,
        &search.computed,
        b"may lead to any context: ",
    )?;
    push_marked(out, search.plan, &search.unknown, b"may do anything: ")?;
    push_remarked::<T>(out, found, EntryRemark::Lacking)?;
    push_remarked::<T>(out, found, EntryRemark::Program)
}

/// The further text on all entries that a call may run, without how many there are.
pub(crate) fn ways_of_all<T: DutyTable>(
    alloc: Global,
    found: &Found<'_>,
) -> Result<Trails, NoMemory> {
    let chains = chains_of(alloc, &found.search)?;
    let mut tail = Vec::new(alloc);
    push_remarks::<T>(&mut tail, found)?;
    Ok(Trails { chains, tail })
}

/// The further text on all entries that a call may run.
pub(crate) fn told_of_all<T: DutyTable>(
    alloc: Global,
    found: &Found<'_>,
) -> Result<Trails, NoMemory> {
    let mut told = ways_of_all::<T>(alloc, found)?;
    push_counts(&mut told.tail, found)?;
    Ok(told)
}

/// Adds an extension with which an entry is found from an area, if the area gives one.
fn push_example(
    alloc: Global,
    out: &mut Vec<u8>,
    search: &AreaSearch<'_>,
    first: FirstFound,
) -> Result<(), NoMemory> {
    let Some(context) = search.plan.contexts().get(first.entry.context) else {
        return Ok(());
    };
    let Some(entry) = context.entries().get(first.entry.entry) else {
        return Ok(());
    };
    let Some(route) = search.routes.get(first.route) else {
        return Ok(());
    };
    let Some(met) = found_shape(alloc, context.entries(), entry, &route.exten)? else {
        return Ok(());
    };
    if let Some(text) = example(alloc, &met, entry.name.name())? {
        out.extend_from_slice(b"  e.g. extension ")?;
        out.extend_from_slice(&text)?;
    }
    Ok(())
}

/// Adds every jump that lets a call in to the context with a number, if there is one.
fn push_jumps<T: DutyTable>(
    alloc: Global,
    out: &mut Vec<u8>,
    search: &AreaSearch<'_>,
    target: usize,
) -> Result<(), NoMemory> {
    let jumps = jumps_to::<T>(alloc, search, target)?;
    let mut lines = Vec::new(alloc);
    push_marked(&mut lines, search.plan, &jumps, b"  ")?;
    if lines.is_empty() {
        return Ok(());
    }
    out.extend_from_slice(b"every jump that lets a call in there:\n")?;
    out.extend_from_slice(&lines)?;
    Ok(())
}

/// Adds the entry that a call may run first, how it gets there, and every jump that lets a call in.
fn push_way<T: DutyTable>(
    alloc: Global,
    out: &mut Vec<u8>,
    search: &AreaSearch<'_>,
    first: FirstFound,
) -> Result<(), NoMemory> {
    push_entry(out, search.plan, first.entry)?;
    push_example(alloc, out, search, first)?;
    out.push(b'\n')?;
    push_chain(alloc, out, search, first.route)?;
    push_jumps::<T>(alloc, out, search, first.entry.context)
}

/// Adds how a call gets to the context with this number, if it may; if nothing is proved, the context's name.
fn push_reached<T: DutyTable>(
    alloc: Global,
    out: &mut Vec<u8>,
    found: &Found<'_>,
    target: usize,
) -> Result<(), NoMemory> {
    if let Some(Some(first)) = found.search.firsts.get(target) {
        return push_way::<T>(alloc, out, &found.search, *first);
    }
    if !found.is_proved {
        out.extend_from_slice(context_name(found.plan(), target))?;
        out.push(b'\n')?;
    }
    Ok(())
}

/// The further text on a context that a call may or may not reach.
pub(crate) fn told_of_target<T: DutyTable>(
    alloc: Global,
    found: &Found<'_>,
    target: Option<usize>,
) -> Result<Vec<u8>, NoMemory> {
    let mut tail = Vec::new(alloc);
    if let Some(target) = target {
        push_reached::<T>(alloc, &mut tail, found, target)?;
    }
    push_remarks::<T>(&mut tail, found)?;
    Ok(tail)
}
