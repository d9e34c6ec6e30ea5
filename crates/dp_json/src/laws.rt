//! Laws of the lines that are written.
ghost use Rattle.std.specs.Prelude.{◌≡◌, ℕ, List, Some, filter, length, true};
ghost use Rattle.std.specs.List.{AllByRecursion};
ghost use Rattle.std.specs.Str.{IsUtf8};
ghost use Rattle.json.specs.Json.{document, object};
ghost use Rattle.dp_answer.specs.Asks.{AskOf};
ghost use Rattle.dp_answer.specs.declared.reach_answer.ReachAnswer.{ReachAnswer};
ghost use Rattle.dp_audit.specs.declared.candidate.Candidate.{Candidate};
ghost use Rattle.dp_audit.specs.declared.finding.Finding.{Finding};
ghost use Rattle.dp_files.specs.declared.source_line.SourceLine.{SourceLine};
ghost use Rattle.dp_notices.specs.Printing.{is_shown};
ghost use Rattle.dp_notices.specs.declared.notice.Notice.{Notice};
ghost use Rattle.dp_notices.specs.declared.printing.Shown.{Shown};
ghost use Rattle.dp_plan.specs.Plan.{PlanOf};
ghost use Rattle.dp_plan.specs.declared.note.Note.{Note};
ghost use Rattle.dp_json.specs.Findings.{findings_text};
ghost use Rattle.dp_json.specs.Lines.{is_line, line_count};
ghost use Rattle.dp_json.specs.Matches.{candidates_text};
ghost use Rattle.dp_json.specs.Notes.{notes_text};
ghost use Rattle.dp_json.specs.Notices.{notice_lines};
ghost use Rattle.dp_json.specs.Objects.{Field, object_text};
ghost use Rattle.dp_json.specs.Reaches.{lines_on_answer, reach_text};
ghost use Rattle.dp_json.specs.Reading.{IsField, members_read};
ghost use Rattle.dp_json.specs.WideFindings.{wide_text};
ghost use Rattle.dp_wide_runs.specs.declared.wide_finding.WideFinding.{WideFinding};

/// The line of an object has one line feed, at its end. This function does nothing.
pub fn an_object_is_one_line()
    ensures { (fields : List Field) → is_line (object_text fields) ≡ true }
{}

/// Findings, notes, the notices on a line that are shown, and candidates have as many lines as there are. This function does nothing.
pub fn each_finding_has_one_line()
    ensures findings { (plan : PlanOf) (findings : List Finding) → line_count (findings_text plan findings) ≡ length findings }
    ensures wide { (plan : PlanOf) (findings : List WideFinding) → line_count (wide_text plan findings) ≡ length findings }
    ensures notes { (notes : List Note) → line_count (notes_text notes) ≡ length notes }
    ensures notices { (shown : Shown) (file : List ℕ) (line : SourceLine) (notices : List Notice)
        → line_count (notice_lines shown file line notices) ≡ length (filter (is_shown shown) notices) }
    ensures candidates { (plan : PlanOf) (priority : ℕ) (candidates : List Candidate)
        → line_count (candidates_text plan priority candidates) ≡ length candidates }
{}

/// An answer to a question about phone calls has a line for what is assumed, one if no proof was found, one for each entry and for each line on
/// how a call gets there, and one for the counts or for the target. This function does nothing.
pub fn each_part_of_an_answer_has_one_line()
    ensures { (plan : PlanOf) (ask : AskOf) (answer : ReachAnswer) → line_count (reach_text plan ask answer) ≡ lines_on_answer answer }
{}

/// The line of an object is UTF-8, whatever its texts. This function does nothing.
pub fn an_object_is_utf8()
    ensures { (fields : List Field) → AllByRecursion IsField fields → IsUtf8 (object_text fields) }
{}

/// A reader of JSON reads the fields of an object back from its line, by the grammar of the kit's reader. This function does nothing.
pub fn an_object_reads_back()
    ensures { (fields : List Field) → AllByRecursion IsField fields → document (object_text fields) ≡ Some (object (members_read fields)) }
{}
