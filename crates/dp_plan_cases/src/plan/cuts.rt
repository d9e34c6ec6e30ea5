//! Dialplans that are cut short.
use dp_case_tables::{Question, bytes_of};
use dp_plan::{Dialplan, LoadFault, NoMemory};
use std::alloc::Global;
use std::test::Fail;

/// Texts that load. Each is cut short at every byte, and the answer says how many of the cut texts load. The others have a fault in
/// their last line.
pub(super) const CUT: &str = r"
[general]\nstatic=yes\nwriteprotect=no\n\n[globals]\nTRUNK=Line/9\n\n[main]\nexten => _NXXXXXX,1,Answer()\n same => n,Playback(hello-world)\n same => n(q),Queue(support,c)\n same => n,Hangup()\ninclude => out\n→69 load, 129 do not
[m]\nexten => _[1-5]N.,1(a),Set(A=${B}$[1 + 2]) ; x\\;y\nsame => n( b ),NoOp(x\\;y)\n[globals]\nB => ${${C}}\n→34 load, 70 do not
";

/// How many of the cut texts load, from the empty text to the whole text.
pub(super) struct Fronts;

impl Question for Fronts {
    fn answer(alloc: Global, asked: &str) -> Result<String, Fail> {
        let text = bytes_of(alloc, asked)?;
        let (loaded, faulty) = count(alloc, &text)?;
        let mut out = String::new(alloc);
        write!(out, "{loaded} load, {faulty} do not")?;
        Ok(out)
    }
}

/// The line of a fault.
fn line_of(fault: LoadFault) -> Option<usize> {
    match fault {
        LoadFault::Line { line, .. } => Some(line),
        LoadFault::NoMemory => None,
    }
}

/// The number of the last line of a text.
fn last_line(text: &[u8]) -> usize {
    let mut line: usize = 1;
    for byte in text {
        if *byte == b'\n' {
            line = line.saturating_add(1);
        }
    }
    line
}

/// Whether a text loads. The test fails if a fault is not in the last line.
fn loads(alloc: Global, text: &[u8]) -> Result<bool, Fail> {
    match Dialplan::load(alloc, text) {
        Ok(_) => Ok(true),
        Err(LoadFault::NoMemory) => Err(NoMemory)?,
        Err(fault) if line_of(fault) == Some(last_line(text)) => Ok(false),
        Err(fault) => Err(Fail::new(format_args!(
            "{fault:?} of a text of {} bytes, in another line than its last",
            text.len(),
        ))),
    }
}

/// How many of the cut texts load, and how many do not.
fn count(alloc: Global, text: &[u8]) -> Result<(usize, usize), Fail> {
    let (mut loaded, mut faulty): (usize, usize) = (0, 0);
    for length in 0..text.len() + 1 {
        match loads(alloc, &text[..length])? {
            true => loaded = loaded.saturating_add(1),
            false => faulty = faulty.saturating_add(1),
        }
    }
    Ok((loaded, faulty))
}
