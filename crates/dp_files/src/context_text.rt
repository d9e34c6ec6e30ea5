//! The lines of a context for the loader, made from those of its section.
ghost use Rattle.std.specs.Prelude.{◌≡◌, ◌++◌, ◌∷◌, ℕ, List, IfOk, OnOk, slice_get};
ghost use Rattle.dp_conf.specs.Lines.{content_of};
ghost use Rattle.dp_files.specs.ContextHistory.{LineHistoryOf as LinesBefore};
ghost use Rattle.dp_files.specs.ContextLines as spec;
ghost use Rattle.dp_files.specs.ContextSteps.{line_now, spelled_reading};
ghost use Rattle.dp_files.specs.ContextWords.{context_line};
ghost use Rattle.dp_files.specs.ToldSteps as steps;
ghost use Rattle.dp_files.specs.PlainContexts.{PlainLinesStand};

use crate::context_line::{ContextLine, read_context_line};
use crate::history::LineHistory;
use crate::line_reading::{SpelledEntry, make_line, make_said, spelled_entry};
use crate::line_text::LineText;
use crate::made_text::MadeText;
use crate::source_line::SourceLine;
use dp_conf::NoMemory;
use std::alloc::Global;

/// The result of the lines so far, and what they leave for the next one.
#[derive(Drop)]
struct ContextReader<'a> {
    history: LineHistory<'a>,
    text: MadeText,
}

impl<'a> ContextReader<'a> {
    /// Reads a line in whatever way it is written.
    #[inline(never)]
    fn read_any(&mut self, alloc: Global, place: usize, line: &LineText) -> Result<(), NoMemory>
        ensures { OnOk result ((rest : List (ℕ × List ℕ)) → steps.results_of_reader self.new rest
            ≡ steps.results_of_reader self.old ((place, line.now) ∷ rest)) }
    {
        let made = make_line(alloc, &mut self.history, line)?;
        self.text.push(place, made)?;
        Ok(())
    }

    /// Reads a line that says this.
    #[inline(never)]
    #[tactic(auto, unfolding(crate::specs::ContextLines::line_reading))]
    fn read_said(
        &mut self,
        alloc: Global,
        place: usize,
        line: &LineText,
        said: ContextLine<'_>,
    ) -> Result<(), NoMemory>
        ensures { line_now said.entry ≡ context_line (content_of line.now)
            → OnOk result ((rest : List (ℕ × List ℕ)) → steps.results_of_reader self.new rest
            ≡ steps.results_of_reader self.old ((place, line.now) ∷ rest)) }
    {
        let made = make_said(alloc, &mut self.history, line, said)?;
        self.text.push(place, made)?;
        Ok(())
    }

    /// Reads a line of an entry that needs no change.
    #[inline(always)]
    fn read_spelled(
        &mut self,
        place: usize,
        line: &LineText,
        entry: SpelledEntry<'a>,
    ) -> Result<(), NoMemory>
        ensures { ((history : LinesBefore) → spec.line_reading history line.now ≡ spelled_reading line.now entry.entry)
            → OnOk result ((rest : List (ℕ × List ℕ)) → steps.results_of_reader self.new rest
            ≡ steps.results_of_reader self.old ((place, line.now) ∷ rest)) }
    {
        self.history.count_spelled(entry.name, entry.number);
        self.text.push_standing(place, line)?;
        Ok(())
    }

    /// Reads a line.
    #[tactic(auto, unfolding(crate::specs::ContextLines::line_reading))]
    fn read_line(&mut self, alloc: Global, place: usize, line: &'a LineText) -> Result<(), NoMemory>
        ensures { OnOk result ((rest : List (ℕ × List ℕ)) → steps.results_of_reader self.new rest
            ≡ steps.results_of_reader self.old ((place, line.now) ∷ rest)) }
    {
        let Some(content) = line.plain_content() else {
            return self.read_any(alloc, place, line);
        };
        let said = read_context_line(content);
        // Most lines are such entries, and need neither a copy of their names nor a new text.
        match spelled_entry(&said) {
            Some(entry) => self.read_spelled(place, line, entry),
            None => self.read_said(alloc, place, line, said),
        }
    }

    /// Reads the line at a place, if there is one.
    fn read_place(
        &mut self,
        alloc: Global,
        lines: &'a [SourceLine],
        place: usize,
    ) -> Result<(), NoMemory>
        ensures { OnOk result ((rest : List (ℕ × List ℕ)) → steps.results_of_reader self.new rest
            ≡ steps.results_of_reader self.old (spec.line_at place (slice_get lines.now place) ++ rest)) }
    {
        match lines.get(place) {
            Some(line) => self.read_line(alloc, place, &line.text),
            None => Ok(()),
        }
    }
}

/// The lines for the loader that are made from the lines of a context's section, and the remarks on them.
///
/// It takes the lines of all files, and the places of the section's lines among them, in order; a place after the last line is skipped.
/// Priorities become numbers, after the Asterisk documentation's page on contexts, extensions and priorities. Hints, lines of other
/// switches, `ignorepat` and extensions with a caller's number are left out with a note, and applications of the old form `NAME,ARGUMENTS`
/// with a fault. A name with a group stays as it is written: it is expanded later, and only then is it known whether it is valid and whether
/// it has a caller's number. A line that the loader refuses is unchanged, so that the loader reports the fault. It fails only if memory runs
/// out.
pub fn read_context(
    alloc: Global,
    lines: &[SourceLine],
    places: &[usize],
) -> Result<MadeText, NoMemory>
    ensures lines { IfOk result (λ text. text.lines.items
        ≡ spec.context_lines (spec.section_lines lines.now places.now)) }
    ensures remarks { IfOk result (λ text. text.remarks.items
        ≡ spec.context_remarks (spec.section_lines lines.now places.now)) }
{
    let mut reader = ContextReader {
        history: LineHistory::new(alloc),
        text: MadeText::new(alloc),
    };
    for place in places {
        reader.read_place(alloc, lines, *place)?;
    }
    let ContextReader { history: _, text } = reader;
    Ok(text)
}

/// States that lines whose entries have priorities of digits, and that use none of the forms that are left out, are unchanged, byte for
/// byte, and have no remarks. It does nothing.
pub fn plain_lines_stand()
    ensures { PlainLinesStand }
{}
