//! The texts of a run.

/// The texts of a run.
#[derive(Clone, Copy)]
pub struct RunTexts<'a> {
    /// The dialplan.
    pub plan: &'a [u8],
    /// The text of the queue file, if there is one. Without it a run has no queues.
    pub queues: Option<&'a [u8]>,
    /// The dialplan that a `reload` line puts in force, if there is one. Its text is not examined before; without it such a line is faulty.
    pub second_plan: Option<&'a [u8]>,
    /// The script.
    pub script: &'a [u8],
}
