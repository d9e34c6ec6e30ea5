//! Reading a reader to its end, up to the greatest size of a file.
ghost use Rattle.std.specs.Prelude.{◌≡◌, ◌+◌, ◌≤◌, ◌||◌, IfSome};
ghost use Rattle.dp_conf.specs.Answers.{Answers};
ghost use Rattle.dp_conf.specs.Whole.{most_bytes, whole_of, length_fault, is_read_failed};

use crate::fault::ReadFault;
use crate::told::ReadTold;
use std::alloc::Global;

/// The greatest number of bytes in a file.
pub const MOST_BYTES: usize = 16_777_216;

/// The number of bytes requested from a reader at once.
const CHUNK: usize = 8192;

/// All bytes of the reader, if it has at most 16,777,216 of them.
///
/// The fault is `ReadFailed` if a read returned an error of any kind, `TooLong` if more bytes came, and `NoMemory` if memory ran out. Each
/// read except the last brings a byte, so the reader is read at most 16,777,217 times. After a fault some of the reader's bytes have been
/// read.
pub fn read_whole<R: ReadTold>(alloc: Global, reader: &mut R) -> Result<Vec<u8>, ReadFault>
    ensures whole { IfSome (R.remaining reader.old)
        (λ bytes. Answers (λ read. read.items) length_fault result (whole_of bytes)) }
    ensures told { R.has_failed reader.new ≡ (R.has_failed reader.old || is_read_failed result) }
    ensures reads { R.reads reader.new ≤ R.reads reader.old + (most_bytes + 1) }
{
    let mut bytes = Vec::new(alloc);
    let mut chunk = [0u8; CHUNK];
    for _turn in 0..MOST_BYTES + 1 {
        match reader.read_told(&mut chunk) {
            Err(_) => return Err(ReadFault::ReadFailed),
            Ok(0) => return Ok(bytes),
            Ok(count) => {
                if count > MOST_BYTES - bytes.len() {
                    return Err(ReadFault::TooLong);
                }
                bytes.extend_from_slice(&chunk[..count])?;
            }
        }
    }
    unreachable!()
}
