//! Everything that may come in from outside.
use dp_pieces::ByteSet;

/// Everything that may come in: the bytes of an extension, of a caller's number and of what names are set to, and the names of contexts.
#[derive(Drop)]
pub struct KeptOutside {
    pub exten: ByteSet,
    pub caller: ByteSet,
    pub facts: ByteSet,
    pub contexts: Vec<Vec<u8>>,
}
