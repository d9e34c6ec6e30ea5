//! The bytes that the machine itself puts into names.
use dp_closed::KeptOutside;
use dp_conf::NoMemory;
use dp_pieces::{ByteSet, NameTable};
use std::alloc::Global;

/// The bytes of a text.
pub(crate) fn set_in(text: &[u8]) -> ByteSet {
    let mut set = ByteSet::none();
    for byte in text {
        set.put(*byte);
    }
    set
}

/// The digits of a telephone.
pub(crate) const TELEPHONE_DIGITS: &[u8] = b"0123456789*#ABCD";

/// The names that the machine sets, each with a text of the bytes that its values may have.
const MACHINE_NAMES: &[(&str, &str)] = &[
    ("PRIORITY", "0123456789"),
    ("CHANNEL", "Channel/0123456789"),
    ("QUEUESTATUS", "TIMEOUT LEAVEEMPTY CONTINUE"),
    (
        "DIALSTATUS",
        "ANSWER BUSY NOANSWER CONGESTION CHANUNAVAIL CANCEL DONTCALL TORTURE INVALIDARGS",
    ),
];

/// The bytes that names and the caller's number may have before any entry runs: those of the caller's number and of what is set from
/// outside among them.
pub(crate) fn opening_names(alloc: Global, outside: &KeptOutside) -> Result<NameTable, NoMemory> {
    let mut names = NameTable::new(alloc);
    names.hold_anywhere(&set_in(b"0123456789"));
    names.hold_caller(&outside.caller);
    names.hold_caller(&outside.facts);
    names.hold_everywhere(&outside.facts);
    for (name, bytes) in MACHINE_NAMES {
        names.hold(alloc, name.as_bytes(), &set_in(bytes.as_bytes()))?;
    }
    Ok(names)
}
