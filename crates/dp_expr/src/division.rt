//! The result of a division whose quotient is not whole.

/// The result of a division whose quotient is not whole.
#[derive(Clone, Copy)]
pub enum Division {
    /// The quotient, truncated toward zero.
    Cut,
    /// A fault.
    Exact,
}
