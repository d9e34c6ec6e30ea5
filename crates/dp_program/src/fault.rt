//! The text that is printed for a fault, and the status after it.
ghost use Rattle.std.specs.Prelude.{◌≡◌, ◌||◌, ◌++◌, OnOk, decimal, codes, false, true};
ghost use Rattle.std.specs.Result.{is_err};
ghost use Rattle.std.specs.Io.KnownBytes.{Appends};
ghost use Rattle.dp_commands.specs.Codes.{code_text, fault_line};
ghost use Rattle.dp_commands.specs.Explained.{line_text, sentence_text, shown_text, where_text};
ghost use Rattle.dp_program.specs.Entries.{kind_of, said_of};
ghost use Rattle.dp_program.specs.Entries as spec_entries;
ghost use Rattle.dp_program.specs.Faulted.{place_of};
ghost use Rattle.dp_program.specs.Hints.{status_in};
ghost use Rattle.dp_program.specs.Status as spec;

use crate::entries::{kind_of, sentence_of};
use crate::fault_places::{FaultPlace, Faulted};
use crate::hints::ServedRequest;
use dp_commands::{Code, FileLine, PbxFault};
use dp_conf::{WriteFailed, WriteTold};
use dp_plan::{PlanKind, Word};
use itoa::{Buffer, Integer};

/// Prints a number in decimal.
fn print_number<E: WriteTold, I: Integer>(errors: &mut E, number: I) -> Result<(), WriteFailed>
    ensures ok { OnOk result (Appends (E.contents errors.old) (E.contents errors.new) (I.text number)) }
    ensures told { E.has_failed errors.new ≡ (E.has_failed errors.old || is_err result) }
{
    let mut buffer = Buffer::new();
    errors.write_told(buffer.format(number).as_bytes())
}

/// Prints a code with its name.
fn print_code<E: WriteTold>(errors: &mut E, code: Code) -> Result<(), WriteFailed>
    ensures ok { OnOk result (Appends (E.contents errors.old) (E.contents errors.new) (code_text code)) }
    ensures told { E.has_failed errors.new ≡ (E.has_failed errors.old || is_err result) }
{
    errors.write_told(b"fault ")?;
    print_number(errors, code.number())?;
    errors.write_told(b" ")?;
    errors.write_told(code.name().as_bytes())
}

/// Prints a code with its line.
fn print_code_at<E: WriteTold>(errors: &mut E, code: Code, line: usize) -> Result<(), WriteFailed>
    ensures ok { OnOk result (Appends (E.contents errors.old) (E.contents errors.new)
        (code_text code ++ codes " line " ++ decimal line)) }
    ensures told { E.has_failed errors.new ≡ (E.has_failed errors.old || is_err result) }
{
    print_code(errors, code)?;
    errors.write_told(b" line ")?;
    print_number(errors, line)
}

/// Prints a fault. It needs no memory.
pub fn print_fault<E: WriteTold>(errors: &mut E, fault: PbxFault) -> Result<(), WriteFailed>
    ensures ok { OnOk result (Appends (E.contents errors.old) (E.contents errors.new) (fault_line fault)) }
    ensures told { E.has_failed errors.new ≡ (E.has_failed errors.old || is_err result) }
{
    match fault {
        PbxFault::Coded {
            code,
            line: Some(line),
        } => {
            print_code_at(errors, code, line)?;
            errors.write_told(b"\n")
        }
        PbxFault::Coded { code, line: None } => {
            print_code(errors, code)?;
            errors.write_told(b"\n")
        }
        PbxFault::NoMemory => errors.write_told(b"fault out of memory\n"),
    }
}

/// Prints the position of a line.
fn print_where<E: WriteTold>(errors: &mut E, line: &FileLine<'_>) -> Result<(), WriteFailed>
    ensures ok { OnOk result (Appends (E.contents errors.old) (E.contents errors.new) (where_text line.now)) }
    ensures told { E.has_failed errors.new ≡ (E.has_failed errors.old || is_err result) }
{
    errors.write_told(b"  ")?;
    errors.write_told(line.path().as_bytes())?;
    errors.write_told(b":")?;
    print_number(errors, line.number())?;
    errors.write_told(b"\n")
}

/// Prints the line itself.
fn print_shown<E: WriteTold>(errors: &mut E, line: &FileLine<'_>) -> Result<(), WriteFailed>
    ensures ok { OnOk result (Appends (E.contents errors.old) (E.contents errors.new) (shown_text line.now)) }
    ensures told { E.has_failed errors.new ≡ (E.has_failed errors.old || is_err result) }
{
    errors.write_told(b"  ")?;
    errors.write_told(line.shown_part())?;
    errors.write_told(b"\n")
}

/// Prints the position of a line, then the line itself.
fn print_line<E: WriteTold>(errors: &mut E, line: &FileLine<'_>) -> Result<(), WriteFailed>
    ensures ok { OnOk result (Appends (E.contents errors.old) (E.contents errors.new) (line_text line.now)) }
    ensures told { E.has_failed errors.new ≡ (E.has_failed errors.old || is_err result) }
{
    print_where(errors, line)?;
    print_shown(errors, line)
}

/// Prints the path of a file.
fn print_file<E: WriteTold>(errors: &mut E, path: &str) -> Result<(), WriteFailed>
    ensures ok { OnOk result (Appends (E.contents errors.old) (E.contents errors.new) (spec.file_text path.now)) }
    ensures told { E.has_failed errors.new ≡ (E.has_failed errors.old || is_err result) }
{
    errors.write_told(b"  ")?;
    errors.write_told(path.as_bytes())?;
    errors.write_told(b"\n")
}

/// Prints the place of a fault.
fn print_place<E: WriteTold>(errors: &mut E, place: &FaultPlace<'_>) -> Result<(), WriteFailed>
    ensures ok { OnOk result (Appends (E.contents errors.old) (E.contents errors.new)
        (spec.place_text (place_of place.now))) }
    ensures told { E.has_failed errors.new ≡ (E.has_failed errors.old || is_err result) }
{
    match place {
        FaultPlace::InLine(line) => print_line(errors, line),
        FaultPlace::InFile(path) => print_file(errors, path),
        FaultPlace::Nowhere => Ok(()),
    }
}

/// The text before the kind of what is left out.
#[tactic(auto, unfolding(crate::specs::Entries::left_out))]
fn left_out() -> &'static [u8]
    ensures { result.now ≡ spec_entries.left_out }
{
    b"what this program leaves out: "
}

/// Prints that a kind of line is left out.
fn print_left_out<E: WriteTold>(errors: &mut E, word: Word) -> Result<(), WriteFailed>
    ensures ok { OnOk result (Appends (E.contents errors.old) (E.contents errors.new)
        (spec_entries.left_out ++ kind_of word)) }
    ensures told { E.has_failed errors.new ≡ (E.has_failed errors.old || is_err result) }
{
    errors.write_told(left_out())?;
    errors.write_told(kind_of(word))
}

/// Prints the sentence on a fault: the kind of what is left out, or else the manual's sentence.
fn print_said<E: WriteTold>(errors: &mut E, code: Code) -> Result<(), WriteFailed>
    ensures ok { OnOk result (Appends (E.contents errors.old) (E.contents errors.new) (said_of code)) }
    ensures told { E.has_failed errors.new ≡ (E.has_failed errors.old || is_err result) }
{
    match code {
        Code::Plan(PlanKind::LeftOut(word)) => print_left_out(errors, word),
        _ => errors.write_told(sentence_of(u32::from(code.number()))),
    }
}

/// Prints the sentence on a fault, on a line of its own.
fn print_sentence<E: WriteTold>(errors: &mut E, code: Code) -> Result<(), WriteFailed>
    ensures ok { OnOk result (Appends (E.contents errors.old) (E.contents errors.new)
        (sentence_text (said_of code))) }
    ensures told { E.has_failed errors.new ≡ (E.has_failed errors.old || is_err result) }
{
    errors.write_told(b"  ")?;
    print_said(errors, code)?;
    errors.write_told(b"\n")
}

/// Prints the explanation of a fault.
fn print_explanation<E: WriteTold>(errors: &mut E, faulted: &Faulted<'_>) -> Result<(), WriteFailed>
    ensures ok { OnOk result (Appends (E.contents errors.old) (E.contents errors.new)
        (spec.explanation faulted.now.fault (place_of faulted.now.place))) }
    ensures told { E.has_failed errors.new ≡ (E.has_failed errors.old || is_err result) }
{
    match faulted.fault {
        PbxFault::Coded { code, line: _ } => {
            print_place(errors, &faulted.place)?;
            print_sentence(errors, code)
        }
        PbxFault::NoMemory => Ok(()),
    }
}

/// Prints a fault, followed by its explanation if that is asked for. It needs no memory.
fn print_faulted<E: WriteTold>(
    errors: &mut E,
    explains: bool,
    faulted: &Faulted<'_>,
) -> Result<(), WriteFailed>
    ensures ok { OnOk result (Appends (E.contents errors.old) (E.contents errors.new)
        (spec.fault_text explains faulted.now)) }
    ensures told { E.has_failed errors.new ≡ (E.has_failed errors.old || is_err result) }
{
    if !explains {
        return print_fault(errors, faulted.fault);
    }
    print_fault(errors, faulted.fault)?;
    print_explanation(errors, faulted)
}

/// The status of a result. It prints the hints beside an answer, or the fault, with its explanation if that is asked for. It needs no
/// memory.
pub fn finish<E: WriteTold>(
    errors: &mut E,
    explains: bool,
    answered: Result<ServedRequest, Faulted<'_>>,
) -> u8
    ensures status { result ≡ spec.status_after (status_in answered.entry) }
    ensures prints { E.has_failed errors.new ≡ false
        → spec.Prints (E.contents errors.old) (E.contents errors.new) explains answered.entry }
{
    match answered {
        Ok(served) => {
            let _ = errors.write_told(&served.hint);
            served.status
        }
        Err(faulted) => {
            let _ = print_faulted(errors, explains, &faulted);
            1
        }
    }
}
