//! The lines of a text.
use dp_conf::{NoMemory, trim_start};
use std::alloc::Global;

/// Adds a line without the blanks at its front, if it is not empty.
fn push_line(alloc: Global, lines: &mut Vec<Vec<u8>>, line: &[u8]) -> Result<(), NoMemory> {
    let line = trim_start(line);
    if line.is_empty() {
        return Ok(());
    }
    lines.push(Vec::from_slice(alloc, line)?)?;
    Ok(())
}

/// The lines of a text, each without the blanks at its front, and without empty ones.
pub(crate) fn lines_of(alloc: Global, text: &[u8]) -> Result<Vec<Vec<u8>>, NoMemory> {
    let mut lines = Vec::new(alloc);
    for line in text.split(|byte| *byte == b'\n') {
        push_line(alloc, &mut lines, line)?;
    }
    Ok(lines)
}
