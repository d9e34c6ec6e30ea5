//! The options of a request that many commands have.

/// The options of a request.
#[derive(Clone, Copy, Debug, PartialEq, Eq)]
pub struct Options<'a> {
    /// Whether to explain each fault, and each note of `check`: the flag `--explain`.
    pub explains: bool,
    /// The word of `--clock`, such as `fri 2026-11-27 09:30`: the moment by which includes with times are read, and with which a run begins.
    /// A word that writes no moment has no effect.
    pub clock: Option<&'a str>,
    /// The word of `--assume`: names of notes, separated by commas. `match` and `reach` assume that lines which get these notes have no effect,
    /// if they read the files that a dialplan includes. It has no effect on other requests.
    pub assumed: Option<&'a str>,
    /// Whether `check`, `match`, `audit`, `reach` and `test` write JSON, an object on a line of its own for each line or each test that they
    /// print otherwise: the flag `--json`. Faults stay as they are. It has no effect on other requests.
    pub is_json: bool,
}
