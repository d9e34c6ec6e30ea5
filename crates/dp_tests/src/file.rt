//! Test files: their heads, the lines of their setups, and their tests.
use crate::expectation::Expectation;
use crate::items::Items;
use dp_commands::ScriptLine;
use dp_plan::Text;
use dp_wide_runs::WideTurn;

/// The turns that an event line gives, in order.
pub type Turns = Items<ScriptLine<WideTurn>>;

/// What a line of a setup or of a test does.
#[derive(Drop)]
pub enum Act {
    /// The turns of an event line.
    Turns(Turns),
    /// `reload FILE`: the dialplan of the file with this name is put in force.
    Reload(Text),
    /// `expect ..`; a setup has no such line.
    Expect(Expectation),
}

/// A line of a setup or of a test, counted from 1 in its file, and what it does.
#[derive(Drop)]
pub struct TestLine {
    pub line: usize,
    pub act: Act,
}

/// A line of the head, counted from 1 in its file: the text after its first word, and the turns that `clock` and `assume` give.
#[derive(Drop)]
pub struct HeadLine {
    pub line: usize,
    pub text: Text,
    pub turns: Turns,
}

/// A test: its name, the line that begins it, and the other lines in order.
#[derive(Drop)]
pub struct Test {
    pub name: Text,
    pub line: usize,
    pub lines: Items<TestLine>,
}

/// A test file: its head, the lines of its setup, with which each test begins, and its tests, in order.
#[derive(Drop)]
pub struct TestFile {
    pub dialplan: HeadLine,
    pub queues: Option<HeadLine>,
    pub clock: Option<HeadLine>,
    pub assume: Option<HeadLine>,
    pub setup: Items<TestLine>,
    pub tests: Items<Test>,
}
