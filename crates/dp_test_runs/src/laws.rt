//! Laws of tests.
ghost use Rattle.std.specs.Prelude.{List};
ghost use Rattle.dp_tests.specs.declared.file.Test.{Test};
ghost use Rattle.dp_tests.specs.declared.file.TestFile.{TestFile};
ghost use Rattle.dp_test_runs.specs.Replays.{ReplaysCourse, events_of_test};
ghost use Rattle.dp_test_runs.specs.Tests.{ended_in};
ghost use Rattle.dp_test_runs.specs.declared.course.Course.{Course};
ghost use Rattle.dp_test_runs.specs.declared.named_text.NamedFileText.{NamedFileText};

/// A test is a replay: the world in which it ends is the one after the events that it gives, the steps after each of them included, and what
/// ran is what these events run. This function does nothing.
#[tactic(auto, using(crate::proofs::ReplaysLemmas::test_replays))]
pub fn tests_replay()
    ensures { (files : List NamedFileText) (file : TestFile) (test : Test) (course : Course)
        → ReplaysCourse course (ended_in files file test course).course (events_of_test files file test course) }
{}
