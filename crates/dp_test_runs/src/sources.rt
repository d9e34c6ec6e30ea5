//! Where the entries of the dialplans of tests stand.
ghost use Rattle.std.specs.Prelude.{◌≡◌, ◌++◌, IfOk, OnOk, map};
ghost use Rattle.dp_commands.specs.LinePlaces as places_spec;
ghost use Rattle.dp_test_runs.specs.Traces as spec;

use crate::items::RunItems;
use crate::named_text::NamedFileText;
use crate::showing::push_decimal;
use dp_commands::{LinePlaces, LinePosition, SourceLines};
use dp_plan::{Dialplan, EntryId, EntryLines, LoadFault, LoadedPlan, NoMemory, Text};
use std::alloc::Global;
use std::marker::Model;

/// The lines of the entries of a dialplan; none if its text is faulty. Contracts see it as these lines.
#[derive(Drop)]
pub(crate) struct PlanLines {
    loaded: Option<EntryLines>,
}

impl Model for PlanLines {
    ghost use Rattle.std.specs.Prelude.{ℕ, List, [], unwrap_or};

    ghost Value = { List (List ℕ) };

    ghost view = { λ lines. unwrap_or lines.loaded [] };
}

impl PlanLines {
    ghost use Rattle.std.specs.Prelude.{◌≡◌, IfOk};
    ghost use Rattle.dp_plan.specs.Lookup.{line_at};
    ghost use Rattle.dp_test_runs.specs.Traces as spec;

    /// The lines of the dialplan that a text holds.
    #[tactic(auto, unfolding(crate::specs::Traces::plan_lines))]
    pub(crate) fn of(alloc: Global, text: &[u8]) -> Result<Self, NoMemory>
        ensures { IfOk result (λ lines. lines ≡ spec.plan_lines text.now) }
    {
        match Dialplan::load_with_lines(alloc, text) {
            Ok(loaded) => {
                let LoadedPlan {
                    plan: _,
                    notes: _,
                    lines,
                } = loaded;
                Ok(PlanLines {
                    loaded: Some(lines),
                })
            }
            Err(LoadFault::NoMemory) => Err(NoMemory),
            Err(_) => Ok(PlanLines { loaded: None }),
        }
    }

    /// The line of the entry with these numbers, if there is such an entry.
    pub(crate) fn line(&self, id: EntryId) -> Option<usize>
        ensures { result ≡ line_at self.now id }
    {
        match &self.loaded {
            Some(lines) => lines.line(id),
            None => None,
        }
    }
}

/// Where the entries of the dialplans of a file's tests stand. Contracts see it as where the lines of the test file's dialplan come from, the
/// files that `reload` lines name, and the lines of the entries of each.
#[derive(Drop)]
pub(crate) struct Sources<'a> {
    places: LinePlaces<'a>,
    files: &'a [NamedFileText],
    plan: PlanLines,
    reloaded: RunItems<PlanLines>,
}

impl<'a> Model for Sources<'a> {
    ghost use Rattle.dp_commands.specs.LinePlaces.{places_of};
    ghost use Rattle.dp_test_runs.specs.Traces.{SourcesOf};

    ghost Value = { SourcesOf };

    ghost view = { λ sources. record {
      places = places_of sources.places;
      files = sources.files.now;
      plan = sources.plan;
      reloaded = sources.reloaded;
    } };
}

/// The lines of the entries of the dialplans of files.
fn lines_of_files(alloc: Global, files: &[NamedFileText]) -> Result<RunItems<PlanLines>, NoMemory>
    ensures { IfOk result (λ lines. lines ≡ map (λ file. spec.plan_lines file.text) files.now) }
{
    let mut all = RunItems::none(alloc);
    for file in files {
        let lines = PlanLines::of(alloc, file.text.bytes())?;
        all.push(lines)?;
    }
    Ok(all)
}

/// Adds the number of an entry's line.
fn push_line_number(out: &mut Vec<u8>, line: Option<usize>) -> Result<(), NoMemory>
    ensures { OnOk result (out.new.items ≡ out.old.items ++ places_spec.line_number line) }
{
    match line {
        Some(line) => push_decimal(out, line),
        None => Ok(()),
    }
}

/// Adds a line of the file with a name, `FILE:LINE`.
fn push_in_file(out: &mut Vec<u8>, name: &[u8], line: Option<usize>) -> Result<(), NoMemory>
    ensures { OnOk result (out.new.items ≡ out.old.items ++ places_spec.in_file_text name.now line) }
{
    out.extend_from_slice(name)?;
    out.extend_from_slice(b":")?;
    push_line_number(out, line)
}

/// The position from which a line of a text comes, if there is such a line.
fn position_of(lines: &[LinePosition], line: Option<usize>) -> Option<LinePosition>
    ensures { result ≡ places_spec.position_of lines.now line }
{
    match line {
        Some(line) => lines.get(line.saturating_sub(1)).copied(),
        None => None,
    }
}

/// The name of the file with the number, or an empty text.
fn file_name(files: &[Text], file: usize) -> &[u8]
    ensures { result.now ≡ places_spec.file_name files.now file }
{
    match files.get(file) {
        Some(name) => name.bytes(),
        None => b"",
    }
}

/// Adds the line of a file from which a line of a text comes, `FILE:LINE`, if there is such a line.
fn push_in_files(
    out: &mut Vec<u8>,
    sources: SourceLines<'_>,
    line: Option<usize>,
) -> Result<(), NoMemory>
    ensures { OnOk result (out.new.items
        ≡ out.old.items ++ places_spec.in_files_text sources.entry.files.now sources.entry.lines.now line) }
{
    match position_of(sources.lines, line) {
        Some(position) => push_in_file(
            out,
            file_name(sources.files, position.file),
            Some(position.line),
        ),
        None => Ok(()),
    }
}

/// Adds where a line of a text comes from, `FILE:LINE`.
pub(crate) fn push_line_place(
    out: &mut Vec<u8>,
    places: LinePlaces<'_>,
    line: Option<usize>,
) -> Result<(), NoMemory>
    ensures { OnOk result (out.new.items ≡ out.old.items ++ places_spec.line_place (places_spec.places_of places.entry) line) }
{
    match places {
        LinePlaces::InFile(name) => push_in_file(out, name.as_bytes(), line),
        LinePlaces::InFiles(sources) => push_in_files(out, sources, line),
    }
}

impl<'a> Sources<'a> {
    ghost use Rattle.std.specs.Prelude.{◌≡◌, ◌++◌, IfOk, OnOk};
    ghost use Rattle.std.specs.Option.{option_and_then};
    ghost use Rattle.std.specs.Prelude.{slice_get};
    ghost use Rattle.dp_plan.specs.Lookup.{line_at};
    ghost use Rattle.dp_commands.specs.LinePlaces.{places_of};
    ghost use Rattle.dp_test_runs.specs.Traces as spec;

    /// Where the entries of these dialplans stand.
    pub(crate) fn of(
        alloc: Global,
        places: LinePlaces<'a>,
        plan: &[u8],
        files: &'a [NamedFileText],
    ) -> Result<Self, NoMemory>
        ensures { IfOk result (λ sources. sources ≡ spec.sources_of (places_of places.entry) plan.now files.now) }
    {
        let plan = PlanLines::of(alloc, plan)?;
        let reloaded = lines_of_files(alloc, files)?;
        Ok(Sources {
            places,
            files,
            plan,
            reloaded,
        })
    }

    /// The line of an entry of the dialplan of the file with a number.
    fn line_in_file(&self, number: usize, id: EntryId) -> Option<usize>
        ensures { result ≡ option_and_then (λ lines. line_at lines id) (slice_get self.now.reloaded number) }
    {
        match self.reloaded.as_slice().get(number) {
            Some(lines) => lines.line(id),
            None => None,
        }
    }

    /// Adds where an entry of the dialplan of the file with a number stands.
    fn push_place_in_file(
        &self,
        out: &mut Vec<u8>,
        number: usize,
        id: EntryId,
    ) -> Result<(), NoMemory>
        ensures { OnOk result (out.new.items ≡ out.old.items ++ spec.place_in_file self.now number id) }
    {
        match self.files.get(number) {
            Some(file) => push_in_file(out, file.name.bytes(), self.line_in_file(number, id)),
            None => Ok(()),
        }
    }

    /// Adds where an entry of the dialplan with this number stands, `FILE:LINE`.
    pub(crate) fn push_place(
        &self,
        out: &mut Vec<u8>,
        plan: Option<usize>,
        id: EntryId,
    ) -> Result<(), NoMemory>
        ensures { OnOk result (out.new.items ≡ out.old.items ++ spec.place_of_entry self.now plan id) }
    {
        match plan {
            Some(number) => self.push_place_in_file(out, number, id),
            None => push_line_place(out, self.places, self.plan.line(id)),
        }
    }
}
