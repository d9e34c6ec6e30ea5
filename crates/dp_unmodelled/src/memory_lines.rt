//! Lines that are written into memory.
ghost use Rattle.std.specs.Prelude.{◌≡◌, [], false};

use dp_conf::{WriteFailed, WriteTold};
use std::alloc::Global;

/// A writer into memory. A write fails only if memory runs out.
#[derive(Drop)]
pub(crate) struct WrittenLines {
    bytes: Vec<u8>,
    has_failed: bool,
}

impl WrittenLines {
    ghost use Rattle.std.specs.Prelude.{◌≡◌, [], false};

    /// Nothing is written.
    pub(crate) fn none(alloc: Global) -> Self
        ensures bytes { result.bytes.items ≡ [] }
        ensures failed { result.has_failed ≡ false }
    {
        WrittenLines {
            bytes: Vec::new(alloc),
            has_failed: false,
        }
    }

    /// What was written.
    pub(crate) fn into_bytes(self) -> Vec<u8>
        ensures { result ≡ self.bytes }
    {
        let WrittenLines {
            bytes,
            has_failed: _,
        } = self;
        bytes
    }
}

impl WriteTold for WrittenLines {
    ghost use Rattle.std.specs.Prelude.{Some};

    ghost contents = { λ written. Some written.bytes.items };

    ghost has_failed = { λ written. written.has_failed };

    fn write_told(&mut self, bytes: &[u8]) -> Result<(), WriteFailed> {
        match self.bytes.extend_from_slice(bytes) {
            Ok(()) => Ok(()),
            Err(_) => {
                self.has_failed = true;
                Err(WriteFailed)
            }
        }
    }
}
