//! The notices on each line of the files.
ghost use Rattle.std.specs.Prelude.{◌≡◌, IfOk, OnOk, map};
ghost use Rattle.dp_notices.specs.LineNotices as spec;

use crate::notice::Notice;
use dp_conf::NoMemory;
use dp_files::SourceLine;
use std::alloc::Global;
use std::marker::Model;

/// A notice, and the place of its line among the lines of all files.
#[derive(Clone, Copy, Debug, PartialEq, Eq)]
pub struct NoticeAt {
    pub source: usize,
    pub notice: Notice,
}

/// Whether two notices have the same number and the same name.
fn is_same(notice: Notice, other: Notice) -> bool
    ensures { result ≡ spec.is_same notice other }
{
    same_number(other.number(), notice.number()) && other.name() == notice.name()
}

/// Whether two numbers are the same, or both are missing.
fn same_number(a: Option<u8>, b: Option<u8>) -> bool
    ensures { result ≡ spec.same_number a b }
{
    match (a, b) {
        (None, None) => true,
        (Some(a), Some(b)) => a == b,
        _ => false,
    }
}

/// The notices on one line. None of them is there twice.
#[derive(Drop)]
pub struct LineNotices {
    notices: Vec<Notice>,
}

impl Model for LineNotices {
    ghost use Rattle.std.specs.Prelude.{List};
    ghost use Rattle.dp_notices.specs.declared.notice.Notice.{Notice};

    ghost Value = { List Notice };

    ghost view = { λ line. line.notices.items };
}

impl LineNotices {
    ghost use Rattle.std.specs.Prelude.{◌≡◌, [], OnOk, OnErr, length, filter};
    ghost use Rattle.dp_notices.specs.LineNotices as spec;
    ghost use Rattle.dp_notices.specs.Notices.{is_fault};

    /// Makes an empty list. It never allocates.
    fn new(alloc: Global) -> Self
        ensures { result ≡ [] }
    {
        LineNotices {
            notices: Vec::new(alloc),
        }
    }

    /// The notices, in the order in which they were added.
    pub fn as_slice(&self) -> &[Notice]
        ensures { result.now ≡ self.now }
    {
        self.notices.as_slice()
    }

    /// Whether there is a notice with the same number and the same name.
    fn has(&self, notice: Notice) -> bool
        ensures { result ≡ spec.has_notice notice self.now }
    {
        self.notices.iter().any(|other| is_same(notice, *other))
    }

    /// Adds a notice, unless it is there already.
    fn add(&mut self, notice: Notice) -> Result<(), NoMemory>
        ensures { OnOk result (self.new ≡ spec.with_notice notice self.old) }
    {
        if !self.has(notice) {
            self.notices.push(notice)?;
        }
        Ok(())
    }

    /// How many of them are faults.
    pub(crate) fn count_faults(&self) -> usize
        ensures { result ≡ length (filter is_fault self.now) }
    {
        self.notices
            .iter()
            .filter(|notice| notice.is_fault())
            .count()
    }
}

/// A line of a file, and the notices on it.
#[derive(Drop)]
pub struct NotedLine {
    pub line: SourceLine,
    pub notices: LineNotices,
}

/// Gives each line an empty list of notices.
fn without_notices(alloc: Global, lines: Vec<SourceLine>) -> Result<Vec<NotedLine>, NoMemory>
    ensures { IfOk result (λ noted. noted.items ≡ map spec.without_notices lines.items) }
{
    let mut noted = Vec::with_capacity(alloc, lines.len())?;
    for line in lines {
        noted.push(NotedLine {
            line,
            notices: LineNotices::new(alloc),
        })?;
    }
    Ok(noted)
}

/// Adds a notice to its line.
fn add_notice(lines: &mut Vec<NotedLine>, notice: NoticeAt) -> Result<(), NoMemory>
    ensures { OnOk result (lines.new.items ≡ spec.after_notice lines.old.items notice) }
{
    if let Some(line) = lines.get_mut(notice.source) {
        line.notices.add(notice.notice)?;
    }
    Ok(())
}

/// Adds notices to their lines.
fn add_notices(lines: &mut Vec<NotedLine>, notices: &[NoticeAt]) -> Result<(), NoMemory>
    ensures { OnOk result (lines.new.items ≡ spec.after_notices lines.old.items notices.now) }
{
    for notice in notices {
        add_notice(lines, *notice)?;
    }
    Ok(())
}

/// The lines, each with its notices.
pub(crate) fn noted_lines(
    alloc: Global,
    lines: Vec<SourceLine>,
    notices: &[NoticeAt],
) -> Result<Vec<NotedLine>, NoMemory>
    ensures { IfOk result (λ noted. noted.items ≡ spec.noted_lines lines.items notices.now) }
{
    let mut noted = without_notices(alloc, lines)?;
    add_notices(&mut noted, notices)?;
    Ok(noted)
}

/// How many faults there are. The length of each list fits a `usize`, so the sum fits 128 bits.
pub(crate) fn count_faults(lines: &[NotedLine]) -> u128
    ensures { result ≡ spec.faults_in lines.now }
{
    let mut count: u128 = 0;
    for line in lines {
        count += line.notices.count_faults() as u128;
    }
    count
}
