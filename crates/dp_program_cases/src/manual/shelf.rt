//! The files of the examples, in memory, and the command lines that are run over them.
use crate::manual::calls::CALLS;
use crate::manual::dialplans::DIALPLANS;
use crate::manual::examples::EXAMPLES;
use crate::manual::faults::FAULTS;
use crate::manual::office::OFFICE;
use crate::manual::reaches::REACHES;
use crate::manual::values::VALUES;
use crate::manual::wide::WIDE;
use dp_case_tables::is_heading;
use dp_cli::answer;
use dp_commands::{Code, PbxFault};
use dp_conf::{NoMemory, Text, Told};
use dp_program::ReadFiles;
use std::alloc::Global;
use std::process::Abort;
use std::str;
use std::sync::Wait;
use std::test::Fail;
use std::thread::Threads;

/// The files of a text: a line `@ NAME`, the lines of the file, and a line that begins with `@`.
#[derive(Drop)]
struct Shelf<'a> {
    text: &'a str,
}

/// The contents of the file with a name.
fn file_in<'a>(alloc: Global, text: &'a str, name: &str) -> Result<Option<&'a str>, NoMemory> {
    let head = format!(in alloc; "\n@ {name}\n")?;
    let Some((_, after)) = text.split_once(head.as_str()) else {
        return Ok(None);
    };
    match after.split_once("@\n") {
        Some((file, _)) => Ok(Some(file)),
        None => Ok(None),
    }
}

/// A copy of the bytes of a text.
fn bytes_of(alloc: Global, text: &str) -> Result<Vec<u8>, NoMemory> {
    let mut bytes = Vec::new(alloc);
    bytes.extend_from_slice(text.as_bytes())?;
    Ok(bytes)
}

/// The path without its first `FOLDER/..`.
fn without_parent(alloc: Global, path: &str) -> Result<String, NoMemory> {
    match path.split_once("/../") {
        Some((folder, rest)) => match folder.rsplit_once('/') {
            Some((parent, _)) => format!(in alloc; "{parent}/{rest}"),
            None => String::from_str(alloc, rest),
        },
        None => String::from_str(alloc, path),
    }
}

impl<'a> ReadFiles for Shelf<'a> {
    ghost use Rattle.std.specs.Prelude.{None, true};
    ghost use Rattle.dp_program.specs.Files.{source};

    ghost source_at = { λ _ _. source None true };

    fn read_file(&self, alloc: Global, path: &str) -> Result<Vec<u8>, PbxFault> {
        let path = without_parent(alloc, path)?;
        match file_in(alloc, self.text, &path)? {
            Some(file) => Ok(bytes_of(alloc, file)?),
            None => Err(PbxFault::Coded {
                code: Code::ReadFailed,
                line: None,
            }),
        }
    }

    // No example includes a pattern.
    fn list_folder(&self, alloc: Global, _path: &str) -> Result<Vec<Text>, NoMemory> {
        Ok(Vec::new(alloc))
    }
}

/// Adds the words of a part of a command line: one word if it stands between quotes.
fn push_words(
    alloc: Global,
    all: &mut Vec<String>,
    is_quoted: bool,
    part: &str,
) -> Result<(), NoMemory> {
    if is_quoted {
        all.push(String::from_str(alloc, part)?)?;
        return Ok(());
    }
    for word in part.split(' ').filter(|word| !word.is_empty()) {
        all.push(String::from_str(alloc, word)?)?;
    }
    Ok(())
}

/// The words of a command line, in which a word with blanks stands between `"`.
fn words_of(alloc: Global, line: &str) -> Result<Vec<String>, NoMemory> {
    let mut all = Vec::new(alloc);
    let mut is_quoted = false;
    for part in line.split('"') {
        push_words(alloc, &mut all, is_quoted, part)?;
        is_quoted = !is_quoted;
    }
    Ok(all)
}

/// The whole output for the words with this input over the files of a text, and the status as a last line `? STATUS`.
fn output_of<R: Threads + Wait + Sync + AllocGlobal>(
    rt: &R,
    files: &str,
    words: &[String],
    input: &str,
) -> Result<String, Fail> {
    let mut output = Told::new(Vec::new(rt.alloc()));
    let mut errors = Told::new(Vec::new(rt.alloc()));
    let status = answer(
        rt,
        &Shelf { text: files },
        rt.alloc(),
        words,
        &mut Told::new(input.as_bytes()),
        &mut output,
        &mut errors,
    );
    let output = output.into_inner();
    let errors = errors.into_inner();
    let all = format!(in rt.alloc();
        "{}{}? {status}",
        str::from_utf8(&output)?,
        str::from_utf8(&errors)?
    )?;
    Ok(all)
}

/// The whole output of a command line over the files of a text. The file that is its input comes after ` < `.
fn answer_of<R: Threads + Wait + Sync + AllocGlobal>(
    rt: &R,
    files: &str,
    line: &str,
) -> Result<String, Fail> {
    let (line, file) = line.split_once(" < ").unwrap_or((line, ""));
    let words = words_of(rt.alloc(), line)?;
    let input = file_in(rt.alloc(), files, file)?.unwrap_or("");
    output_of(rt, files, &words, input)
}

/// Asserts that the text after a command line is its whole output.
fn check_command<R: Threads + Wait + Sync + Abort + AllocGlobal>(
    rt: &R,
    files: &str,
    after: &str,
) -> Result<(), Fail> {
    let (line, want) = after.split_once('\n').unwrap_or((after, ""));
    let got = answer_of(rt, files, line)?;
    assert!(rt; want.starts_with(got.as_str()), "{line} prints {got}");
    Ok(())
}

/// Asserts that each command line of a text prints the text after it.
fn check_commands<R: Threads + Wait + Sync + Abort + AllocGlobal>(
    rt: &R,
    files: &str,
) -> Result<(), Fail> {
    for after in files.split("\n$ ").skip(1) {
        check_command(rt, files, after)?;
    }
    Ok(())
}

/// Each example prints what the documents say.
#[test]
fn examples_print_what_the_documents_say(rt: HostRuntime) -> Result<(), Fail> {
    check_commands(&rt, EXAMPLES)
}

#[test]
fn examples_of_the_office_print_what_the_documents_say(rt: HostRuntime) -> Result<(), Fail> {
    check_commands(&rt, OFFICE)
}

#[test]
fn examples_of_reach_print_what_the_documents_say(rt: HostRuntime) -> Result<(), Fail> {
    check_commands(&rt, REACHES)
}

#[test]
fn examples_of_dialplans_print_what_the_documents_say(rt: HostRuntime) -> Result<(), Fail> {
    check_commands(&rt, DIALPLANS)
}

#[test]
fn examples_of_calls_print_what_the_documents_say(rt: HostRuntime) -> Result<(), Fail> {
    check_commands(&rt, CALLS)
}

#[test]
fn examples_over_the_wide_table_print_what_the_documents_say(rt: HostRuntime) -> Result<(), Fail> {
    check_commands(&rt, WIDE)
}

/// Asserts the whole output of the program without words and with this input. The text `of` names the case.
fn check_input<R: Threads + Wait + Sync + Abort + AllocGlobal>(
    rt: &R,
    of: &str,
    input: &str,
    want: &str,
) -> Result<(), Fail> {
    let words = words_of(rt.alloc(), "pbx")?;
    let got = output_of(rt, "", &words, input)?;
    assert_eq!(rt; got.as_str(), want, "of {of}");
    Ok(())
}

/// Asserts the value of a text, at `main`, 100, 1 in channel 1, with lines of `[globals]` separated by `; `.
fn check_value<R: Threads + Wait + Sync + Abort + AllocGlobal>(
    rt: &R,
    asked: &str,
    want: &str,
) -> Result<(), Fail> {
    let (globals, text) = asked.split_once('¦').ok_or("no text")?;
    let (first, second) = globals.split_once("; ").unwrap_or((globals, ""));
    let (second, third) = second.split_once("; ").unwrap_or((second, ""));
    let input = format!(in rt.alloc();
        "[globals]\n{first}\n{second}\n{third}\n[main]\nexten => 100,1,Set(V={text})\n;; script\nstart main 100 5551234\nstep 1\nshow 1 V\n"
    )?;
    let want = format!(in rt.alloc();
        "started 1\nran 1 main,100,1 Set -> ready main,100,2\nV={want}\n? 0"
    )?;
    check_input(rt, asked, &input, &want)
}

/// Asserts the fault of a dialplan that has the line below `[main]`.
fn check_fault<R: Threads + Wait + Sync + Abort + AllocGlobal>(
    rt: &R,
    line: &str,
    want: &str,
) -> Result<(), Fail> {
    let input = format!(in rt.alloc(); "[main]\n{line}")?;
    let want = format!(in rt.alloc(); "fault {want} line 2\n? 1")?;
    check_input(rt, line, &input, &want)
}

/// Each line has the fault that the documents say.
#[test]
fn lines_have_the_faults_that_the_documents_say(rt: HostRuntime) -> Result<(), Fail> {
    for row in FAULTS.lines() {
        match row.split_once('→') {
            Some((line, want)) => check_fault(&rt, line, want)?,
            None => assert!(rt; is_heading(row), "no fault in {row:?}"),
        }
    }
    Ok(())
}

/// Each text has the value that the documents say.
#[test]
fn texts_have_the_values_that_the_documents_say(rt: HostRuntime) -> Result<(), Fail> {
    for line in VALUES.lines() {
        match line.split_once('→') {
            Some((asked, want)) => check_value(&rt, asked, want)?,
            None => assert!(rt; is_heading(line), "no value in {line:?}"),
        }
    }
    Ok(())
}
