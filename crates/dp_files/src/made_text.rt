//! Lines made from the lines of files, and the remarks on these.
ghost use Rattle.std.specs.Prelude.{◌≡◌, ◌++◌, OnOk};
ghost use Rattle.dp_files.specs.ContextLines as spec;
ghost use Rattle.dp_files.specs.ToldSteps as steps;

use crate::line_reading::LineResult;
use crate::line_text::LineText;
use crate::remark::{LineRemark, RemarkKind};
use crate::source_line::MadeLine;
use dp_conf::NoMemory;
use std::alloc::Global;

/// Lines for the loader, made from those of one section or of all sections, and the remarks on these, both in order.
#[derive(Drop)]
pub struct MadeText {
    pub lines: Vec<MadeLine>,
    pub remarks: Vec<LineRemark>,
}

/// Adds the text of a line, if there is one.
fn push_text(
    lines: &mut Vec<MadeLine>,
    source: usize,
    text: Option<LineText>,
) -> Result<(), NoMemory>
    ensures { OnOk result (lines.new.items ≡ lines.old.items ++ steps.line_of source text) }
{
    match text {
        Some(text) => {
            lines.push(MadeLine { source, text })?;
            Ok(())
        }
        None => Ok(()),
    }
}

/// Adds a remark on a line, if there is one.
fn push_remark(
    remarks: &mut Vec<LineRemark>,
    source: usize,
    kind: Option<RemarkKind>,
) -> Result<(), NoMemory>
    ensures { OnOk result (remarks.new.items ≡ remarks.old.items ++ steps.remark_of source kind) }
{
    match kind {
        Some(kind) => {
            remarks.push(LineRemark { source, kind })?;
            Ok(())
        }
        None => Ok(()),
    }
}

impl MadeText {
    ghost use Rattle.std.specs.Prelude.{◌≡◌, ◌++◌, [], OnOk, OnErr};

    /// Without lines. It never allocates.
    pub(crate) fn new(alloc: Global) -> Self
        ensures lines { result.lines.items ≡ [] }
        ensures remarks { result.remarks.items ≡ [] }
    {
        MadeText {
            lines: Vec::new(alloc),
            remarks: Vec::new(alloc),
        }
    }

    /// Adds the lines and the remarks of another text.
    pub(crate) fn append(&mut self, mut other: MadeText) -> Result<(), NoMemory>
        ensures lines { OnOk result (self.new.lines.items ≡ self.old.lines.items ++ other.lines.items) }
        ensures remarks { OnOk result (self.new.remarks.items ≡ self.old.remarks.items ++ other.remarks.items) }
    {
        self.lines.append(&mut other.lines)?;
        self.remarks.append(&mut other.remarks)?;
        Ok(())
    }

    /// Adds a line unchanged.
    #[inline(always)]
    pub(crate) fn push_standing(&mut self, source: usize, line: &LineText) -> Result<(), NoMemory>
        ensures lines { OnOk result (self.new.lines.items ≡ self.old.lines.items ++ spec.made_line (source, (spec.stands line.now).made)) }
        ensures remarks { OnOk result (self.new.remarks.items
            ≡ self.old.remarks.items ++ spec.remark_on (source, (spec.stands line.now).made)) }
    {
        let text = line.clone()?;
        self.lines.push(MadeLine { source, text })?;
        Ok(())
    }

    /// Adds the result of a line.
    pub(crate) fn push(&mut self, source: usize, made: LineResult) -> Result<(), NoMemory>
        ensures lines { OnOk result (self.new.lines.items ≡ self.old.lines.items ++ spec.made_line (source, made)) }
        ensures remarks { OnOk result (self.new.remarks.items ≡ self.old.remarks.items ++ spec.remark_on (source, made)) }
    {
        let LineResult { text, remark } = made;
        push_text(&mut self.lines, source, text)?;
        push_remark(&mut self.remarks, source, remark)?;
        Ok(())
    }
}
