//! Readers and writers that end, fail or are too long.
use dp_case_tables::{Question, check, push_bytes};
use dp_conf::{MOST_BYTES, NoMemory, ReadFault, ReadTold, Told, WriteTold, read_whole};
use std::alloc::Global;
use std::io;
use std::io::{Cursor, ErrorKind, Read, Write};
use std::process::Abort;
use std::test::Fail;

/// A reader of this number of bytes `x`, at most `step` at once, whose read with the number `fails_at`, counted from 0, returns an error.
#[derive(Drop)]
struct ShortSource {
    left: usize,
    step: usize,
    reads: usize,
    fails_at: Option<usize>,
    kind: ErrorKind,
}

impl Read for ShortSource {
    fn read(&mut self, buffer: &mut [u8]) -> io::Result<usize> {
        let turn = self.reads;
        self.reads = turn.saturating_add(1);
        if self.fails_at == Some(turn) {
            return Err(io::Error::from(self.kind));
        }
        let count = self.step.min(self.left).min(buffer.len());
        for byte in buffer[..count].iter_mut() {
            *byte = b'x';
        }
        self.left -= count;
        Ok(count)
    }
}

fn in_steps(left: usize, step: usize) -> ShortSource {
    ShortSource {
        left,
        step,
        reads: 0,
        fails_at: None,
        kind: ErrorKind::Other,
    }
}

fn number_of(word: &str) -> Result<usize, Fail> {
    let number = word.parse::<usize>().ok().ok_or("no number")?;
    Ok(number)
}

fn kind_of(word: &str) -> Result<ErrorKind, Fail> {
    match word {
        "Other" => Ok(ErrorKind::Other),
        "Interrupted" => Ok(ErrorKind::Interrupted),
        "UnexpectedEof" => Ok(ErrorKind::UnexpectedEof),
        _ => Err("no such kind")?,
    }
}

/// The reader that fails at a read with an error of a kind, given `READ KIND`.
fn failing(left: usize, step: usize, words: &str) -> Result<ShortSource, Fail> {
    let (turn, kind) = words.split_once(' ').ok_or("no kind")?;
    let mut source = in_steps(left, step);
    source.fails_at = Some(number_of(turn)?);
    source.kind = kind_of(kind)?;
    Ok(source)
}

/// The reader for `BYTES STEP` or for `BYTES STEP READ KIND`.
fn source_of(words: &str) -> Result<ShortSource, Fail> {
    let (left, words) = words.split_once(' ').ok_or("no step")?;
    let left = number_of(left)?;
    match words.split_once(' ') {
        None => Ok(in_steps(left, number_of(words)?)),
        Some((step, words)) => failing(left, number_of(step)?, words),
    }
}

fn push_read(out: &mut String, read: &Result<Vec<u8>, ReadFault>) -> Result<(), NoMemory> {
    match read {
        Ok(bytes) => write!(out, "{}", bytes.len()),
        Err(ReadFault::NoMemory) => Err(NoMemory),
        Err(fault) => out.push_str(fault.name()),
    }
}

/// The number of bytes that are read from the reader, or the fault, and whether the reader failed.
struct BytesRead;

impl Question for BytesRead {
    fn answer(alloc: Global, asked: &str) -> Result<String, Fail> {
        let mut reader = Told::new(source_of(asked)?);
        let read = read_whole(alloc, &mut reader);
        let mut out = String::new(alloc);
        push_read(&mut out, &read)?;
        if reader.has_failed() {
            out.push_str(", failed")?;
        }
        Ok(out)
    }
}

/// Readers of this number of bytes, this number at once, some of which fail at a read, counted from 0, with an error of a kind.
const BYTES: &str = r"
0 1→0
20000 1→20000
16777216 8192→16777216
16777217 8192→TooLong
# Five bytes, one at a time, are six reads: each of them fails once, with an error of either kind.
5 1 0 Other→ReadFailed, failed
5 1 1 Other→ReadFailed, failed
5 1 2 Other→ReadFailed, failed
5 1 3 Other→ReadFailed, failed
5 1 4 Other→ReadFailed, failed
5 1 5 Other→ReadFailed, failed
5 1 0 Interrupted→ReadFailed, failed
5 1 1 Interrupted→ReadFailed, failed
5 1 2 Interrupted→ReadFailed, failed
5 1 3 Interrupted→ReadFailed, failed
5 1 4 Interrupted→ReadFailed, failed
5 1 5 Interrupted→ReadFailed, failed
5 1 0 UnexpectedEof→ReadFailed, failed
5 1 1 UnexpectedEof→ReadFailed, failed
5 1 2 UnexpectedEof→ReadFailed, failed
5 1 3 UnexpectedEof→ReadFailed, failed
5 1 4 UnexpectedEof→ReadFailed, failed
5 1 5 UnexpectedEof→ReadFailed, failed
";

/// The number of reads that it takes to read the reader whole.
struct ReadCount;

impl Question for ReadCount {
    fn answer(alloc: Global, asked: &str) -> Result<String, Fail> {
        let mut reader = Told::new(source_of(asked)?);
        let _bytes = read_whole(alloc, &mut reader)?;
        let reads = reader.into_inner().reads;
        Ok(format!(in alloc; "{reads}")?)
    }
}

const READS: &str = r"
20000 1→20001
";

fn check_text(rt: &impl Abort, alloc: Global) -> Result<(), Fail> {
    let text = b"[main]\nexten => s,1,NoOp()\n";
    let mut reader = Told::new(Cursor::new(text.as_slice()));
    let bytes = read_whole(alloc, &mut reader)?;
    assert!(rt; bytes.as_slice() == text.as_slice() && !reader.has_failed());
    Ok(())
}

fn check_buffer(rt: &impl Abort) {
    let mut reader = Told::new(in_steps(3, 8));
    let mut buffer = [0u8; 4];
    let read = reader.read_told(&mut buffer);
    assert!(rt; matches!(read, Ok(3)));
    assert_eq!(rt; buffer, [b'x', b'x', b'x', 0]);
}

fn check_readers(rt: &impl Abort, alloc: Global) -> Result<(), Fail> {
    assert_eq!(rt; MOST_BYTES, 16_777_216);
    check::<BytesRead>(alloc, BYTES)?;
    check::<ReadCount>(alloc, READS)?;
    check_buffer(rt);
    check_text(rt, alloc)
}

/// Readers are read whole, into their buffers, up to the greatest size and up to their failure.
#[test]
fn readers_are_read_whole(rt: HostRuntime) -> Result<(), Fail> {
    check_readers(&rt, rt.alloc())
}

/// A writer that takes at most `step` bytes at once, and whose write with the number `fails_at`, counted from 0, returns an error.
#[derive(Drop)]
struct ShortSink {
    held: Vec<u8>,
    step: usize,
    writes: usize,
    fails_at: Option<usize>,
}

impl Write for ShortSink {
    fn write(&mut self, bytes: &[u8]) -> io::Result<usize> {
        let turn = self.writes;
        self.writes = turn.saturating_add(1);
        if self.fails_at == Some(turn) {
            return Err(io::Error::from(ErrorKind::BrokenPipe));
        }
        let count = self.step.min(bytes.len());
        self.held.extend_from_slice(&bytes[..count])?;
        Ok(count)
    }

    fn flush(&mut self) -> io::Result<()> {
        Ok(())
    }
}

/// The writer for `STEP WRITE`, where `-` means no write.
fn sink_of(alloc: Global, words: &str) -> Result<ShortSink, Fail> {
    let (step, turn) = words.split_once(' ').ok_or("no write")?;
    Ok(ShortSink {
        held: Vec::new(alloc),
        step: number_of(step)?,
        writes: 0,
        fails_at: turn.parse::<usize>().ok(),
    })
}

/// Whether everything between the bars is taken.
fn takes_all(writer: &mut Told<ShortSink>, pieces: &str) -> bool {
    let mut is_taken = true;
    for piece in pieces.split('|') {
        if writer.write_told(piece.as_bytes()).is_err() {
            is_taken = false;
        }
    }
    is_taken
}

fn push_written(
    out: &mut String,
    mut writer: Told<ShortSink>,
    pieces: &str,
) -> Result<(), NoMemory> {
    let is_taken = takes_all(&mut writer, pieces);
    let has_failed = writer.has_failed();
    push_bytes(out, &writer.into_inner().held)?;
    if !is_taken {
        out.push_str(", refused")?;
    }
    if has_failed {
        out.push_str(", failed")?;
    }
    Ok(())
}

/// The contents of a writer, whether it refused a text, and whether it failed.
struct WrittenTexts;

impl Question for WrittenTexts {
    fn answer(alloc: Global, asked: &str) -> Result<String, Fail> {
        let (words, pieces) = asked.split_once(':').ok_or("no text")?;
        let writer = Told::new(sink_of(alloc, words)?);
        let mut out = String::new(alloc);
        push_written(&mut out, writer, pieces)?;
        Ok(out)
    }
}

/// Writers that take this number of bytes at once, some of which fail at a write, counted from 0, and texts between bars.
const WRITTEN: &str = r"
# A writer takes everything, in pieces of any size.
1 -:started|| 1→started 1
2 -:started|| 1→started 1
3 -:started|| 1→started 1
4 -:started|| 1→started 1
5 -:started|| 1→started 1
6 -:started|| 1→started 1
7 -:started|| 1→started 1
8 -:started|| 1→started 1
# Seven bytes, two at a time, are four writes: if write k fails, the bytes of the writes before it were written.
2 0:started→, refused, failed
2 1:started→st, refused, failed
2 2:started→star, refused, failed
2 3:started→starte, refused, failed
# A writer that takes nothing has failed.
0 -:x→, refused, failed
";

#[test]
fn writers_take_all_or_fail(rt: HostRuntime) -> Result<(), Fail> {
    check::<WrittenTexts>(rt.alloc(), WRITTEN)
}
