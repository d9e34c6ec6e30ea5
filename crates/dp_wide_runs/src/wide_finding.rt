//! The findings of an audit that may use the wide table.
ghost use Rattle.std.specs.Prelude.{◌≡◌};
ghost use Rattle.dp_wide_runs.specs.WideFindings as spec;

use dp_audit::{FallThrough, Finding, Loop};
use dp_plan::{EntryId, Text};

/// A finding of an audit. Which findings there are is this program's own choice.
#[derive(Debug, Drop)]
pub enum WideFinding {
    /// A finding that an audit without the wide table has too.
    Plain(Finding),
    /// A call that dialled the name of the entry goes on after it in another extension.
    FallsThrough(FallThrough),
    /// An endless run, with its first entry.
    EndlessRun(Loop),
    /// The arguments of the entry call a function that Asterisk lacks.
    NoFunction { entry: EntryId, name: Text },
}

/// The word that is printed for a finding.
pub(crate) fn kind_of(finding: &Finding) -> &'static [u8]
    ensures { result.now ≡ spec.kind_of finding.now }
{
    match finding {
        Finding::Cycle { .. } => b"Cycle",
        Finding::NoApplication { .. } => b"NoApplication",
        Finding::NoTarget { .. } => b"NoTarget",
        Finding::Gap { .. } => b"Gap",
        Finding::NoFirst { .. } => b"NoFirst",
        Finding::Hidden { .. } => b"Hidden",
        Finding::Unset { .. } => b"Unset",
        Finding::Unused { .. } => b"Unused",
    }
}
