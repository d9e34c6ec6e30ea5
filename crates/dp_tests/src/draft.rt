//! What the lines of a test file make, line by line.
ghost use Rattle.std.specs.Prelude.{◌≡◌, IfOk, OnOk, Some};
ghost use Rattle.std.specs.Option.{option_or};
ghost use Rattle.dp_tests.specs.Files as files;
ghost use Rattle.dp_tests.specs.steps.Drafts as spec;

use crate::expectation::Expectation;
use crate::fault::TestFaultKind;
use crate::file::{Act, HeadLine, Test, TestFile, TestLine};
use crate::heads::{expect_fault, head_fault, is_fact, name_fault};
use crate::items::Items;
use crate::meaning::{HeadWord, LineMeaning, MeantLine};
use dp_plan::{NoMemory, Text};
use std::alloc::Global;

/// What the lines so far make. The last test is open until another begins.
#[derive(Drop)]
pub(crate) struct TestDraft {
    dialplan: Option<HeadLine>,
    queues: Option<HeadLine>,
    clock: Option<HeadLine>,
    assume: Option<HeadLine>,
    setup: Items<TestLine>,
    tests: Items<Test>,
    current: Option<Test>,
}

/// Keeps a line of the head, unless there is one already.
fn keep(slot: &mut Option<HeadLine>, line: HeadLine)
    ensures { slot.new ≡ option_or slot.old (Some line) }
{
    if slot.is_none() {
        *slot = Some(line);
    }
}

impl TestDraft {
    /// Before the first line.
    pub(crate) fn new(alloc: Global) -> Self
        ensures { result ≡ spec.nothing_drafted }
    {
        TestDraft {
            dialplan: None,
            queues: None,
            clock: None,
            assume: None,
            setup: Items::none(alloc),
            tests: Items::none(alloc),
            current: None,
        }
    }

    /// Ends the open test.
    fn close(&mut self) -> Result<(), NoMemory>
        ensures { OnOk result (self.new ≡ spec.with_test_closed self.old) }
    {
        match self.current.take() {
            Some(test) => self.tests.push(test),
            None => Ok(()),
        }
    }

    /// Begins a test.
    fn begin(&mut self, alloc: Global, line: usize, name: Text) -> Result<(), NoMemory>
        ensures { OnOk result (self.new ≡ spec.with_new_test self.old line name) }
    {
        self.close()?;
        self.current = Some(Test {
            name,
            line,
            lines: Items::none(alloc),
        });
        Ok(())
    }

    /// Adds an event line to the open test or else to the setup.
    fn push_event(&mut self, line: TestLine) -> Result<(), NoMemory>
        ensures { OnOk result (self.new ≡ spec.with_event self.old self.old.current line) }
    {
        match &mut self.current {
            Some(test) => test.lines.push(line),
            None => self.setup.push(line),
        }
    }

    /// Adds a line to the open test, if there is one.
    fn push_line(&mut self, line: TestLine) -> Result<(), NoMemory>
        ensures { OnOk result (self.new ≡ spec.with_line self.old self.old.current line) }
    {
        match &mut self.current {
            Some(test) => test.lines.push(line),
            None => Ok(()),
        }
    }

    /// Keeps a line of the head.
    fn keep_head(&mut self, word: HeadWord, line: HeadLine)
        ensures { self.new ≡ spec.with_head self.old word line }
    {
        match word {
            HeadWord::Dialplan => keep(&mut self.dialplan, line),
            HeadWord::Queues => keep(&mut self.queues, line),
            HeadWord::Clock => keep(&mut self.clock, line),
            HeadWord::Assume => keep(&mut self.assume, line),
        }
    }

    /// Takes a line of the head that is in a test: one that states a fact is an event line of the test.
    fn take_fact(&mut self, word: HeadWord, line: HeadLine) -> Result<(), NoMemory>
        ensures { OnOk result (self.new ≡ spec.with_fact self.old word line) }
    {
        if !is_fact(word) {
            return Ok(());
        }
        let HeadLine {
            line,
            text: _,
            turns,
        } = line;
        self.push_line(TestLine {
            line,
            act: Act::Turns(turns),
        })
    }

    /// Takes a line of the head.
    fn take_head(&mut self, word: HeadWord, line: HeadLine) -> Result<(), NoMemory>
        ensures { OnOk result (self.new ≡ spec.with_head_line self.old self.old.current word line) }
    {
        if self.current.is_some() {
            return self.take_fact(word, line);
        }
        self.keep_head(word, line);
        Ok(())
    }

    /// Takes an `expect` line.
    fn take_expect(&mut self, line: usize, expectation: Expectation) -> Result<(), NoMemory>
        ensures { OnOk result (self.new ≡ spec.with_line self.old self.old.current (files.acts_at line (spec.expects expectation))) }
    {
        self.push_line(TestLine {
            line,
            act: Act::Expect(expectation),
        })
    }

    /// Takes one more line.
    pub(crate) fn take(&mut self, alloc: Global, meant: MeantLine) -> Result<(), NoMemory>
        ensures { OnOk result (self.new ≡ spec.drafted_after self.old meant) }
    {
        let MeantLine { line, meaning } = meant;
        match meaning {
            LineMeaning::Nothing => Ok(()),
            LineMeaning::Head { word, text, turns } => {
                self.take_head(word, HeadLine { line, text, turns })
            }
            LineMeaning::Begin { name } => self.begin(alloc, line, name),
            LineMeaning::Event { act } => self.push_event(TestLine { line, act }),
            LineMeaning::Expect { expectation } => self.take_expect(line, expectation),
            LineMeaning::Faulty { kind: _ } => Ok(()),
        }
    }

    /// Whether the head has a line with this word.
    pub(crate) fn has_head(&self, word: HeadWord) -> bool
        ensures { result ≡ spec.has_head self.now word }
    {
        match word {
            HeadWord::Dialplan => self.dialplan.is_some(),
            HeadWord::Queues => self.queues.is_some(),
            HeadWord::Clock => self.clock.is_some(),
            HeadWord::Assume => self.assume.is_some(),
        }
    }

    /// What is wrong with the next line.
    pub(crate) fn fault(&self, meaning: &LineMeaning) -> Option<TestFaultKind>
        ensures { result ≡ spec.fault_with self.now meaning.now }
    {
        let has_test = self.current.is_some();
        match meaning {
            LineMeaning::Nothing | LineMeaning::Event { .. } => None,
            LineMeaning::Head { word, .. } => head_fault(*word, has_test, self.has_head(*word)),
            LineMeaning::Begin { name } => name_fault(name.bytes()),
            LineMeaning::Expect { .. } => expect_fault(has_test),
            LineMeaning::Faulty { kind } => Some(*kind),
        }
    }

    /// The file of all lines, or None if its head names no dialplan.
    pub(crate) fn into_file(self) -> Result<Option<TestFile>, NoMemory>
        ensures { IfOk result (λ file. file ≡ spec.drafted_file self) }
    {
        let mut draft = self;
        draft.close()?;
        Ok(draft.closed_file())
    }

    /// The file of the lines, without the test that is open.
    fn closed_file(self) -> Option<TestFile>
        ensures { result ≡ spec.closed_file self self.dialplan }
    {
        let TestDraft {
            dialplan,
            queues,
            clock,
            assume,
            setup,
            tests,
            current: _,
        } = self;
        match dialplan {
            Some(dialplan) => Some(TestFile {
                dialplan,
                queues,
                clock,
                assume,
                setup,
                tests,
            }),
            None => None,
        }
    }
}
