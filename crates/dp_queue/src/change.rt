//! The results of adding and removing a member.

/// The result of adding a member.
#[derive(Clone, Copy, Debug, PartialEq, Eq)]
pub enum Added {
    /// There is no queue with that name.
    NoSuchQueue,
    /// The interface is already a member of the queue.
    MemberAlready,
    /// The interface is now the last member of the queue.
    Added,
}

/// The result of removing a member.
#[derive(Clone, Copy, Debug, PartialEq, Eq)]
pub enum Removed {
    /// There is no queue with that name.
    NoSuchQueue,
    /// The interface is not a member of the queue.
    NotInQueue,
    /// The member comes from the file.
    NotDynamic,
    /// The interface is no longer a member.
    Removed,
}
