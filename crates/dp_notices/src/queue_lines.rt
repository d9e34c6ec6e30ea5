//! Writes the lines of a file of queues with the words that the reader of queues knows, after the Asterisk documentation's page on the file of
//! queues.
ghost use Rattle.std.specs.Prelude.{◌≡◌, ◌++◌, ◌∷◌, [], false, IfOk, OnOk, codes};
ghost use Rattle.std.specs.Option.{option_map};
ghost use Rattle.dp_conf.specs.Borrowed.{lines_now};
ghost use Rattle.dp_notices.specs.GroupNames.{items_in};
ghost use Rattle.dp_notices.specs.QueueLines as spec;

use crate::group_names::read_item;
use crate::line_notices::NoticeAt;
use crate::notice::{Notice, QueueNote};
use dp_conf::{Line, NoMemory, Text, line_content, same_word};
use dp_files::{LineText, MadeLine};
use std::alloc::Global;

/// The lines of a file of queues, and the notes on them.
#[derive(Drop)]
pub(crate) struct QueueLines {
    pub(crate) lines: Vec<MadeLine>,
    pub(crate) notices: Vec<NoticeAt>,
}

/// Whether a strategy chooses at random.
fn is_random(value: &[u8]) -> bool
    ensures { result ≡ spec.is_random value.now }
{
    same_word(value, b"random") || same_word(value, b"wrandom")
}

/// The strategy as which another one is read.
fn other_strategy(value: &[u8]) -> Option<&'static [u8]>
    ensures { option_map (λ other. other.now) result ≡ spec.other_strategy value.now }
{
    if same_word(value, b"rrordered") {
        return Some(b"rrmemory");
    }
    if is_random(value) {
        return Some(b"ringall");
    }
    None
}

/// Whether a word is one of those that say which members do not count.
fn is_uncounted(word: &[u8]) -> bool
    ensures { result ≡ spec.is_uncounted word.now }
{
    same_word(word, b"paused")
        || same_word(word, b"penalty")
        || same_word(word, b"inuse")
        || same_word(word, b"ringing")
        || same_word(word, b"unavailable")
        || same_word(word, b"invalid")
        || same_word(word, b"unknown")
        || same_word(word, b"wrapup")
}

/// Whether a value is a list of such words.
fn is_list(value: &[u8]) -> bool
    ensures { result ≡ spec.is_list value.now }
{
    value
        .split(|byte| *byte == b',')
        .all(|word| is_uncounted(word))
}

/// Whether a word is in a list.
fn lists(word: &[u8], value: &[u8]) -> bool
    ensures { result ≡ spec.lists word.now value.now }
{
    value
        .split(|byte| *byte == b',')
        .any(|other| same_word(other, word))
}

/// The rule as which a list is read, given the rule for a list with `paused`.
fn other_rule(paused: &'static [u8], value: &[u8]) -> Option<&'static [u8]>
    ensures { option_map (λ other. other.now) result ≡ spec.other_rule paused.now value.now }
{
    if !is_list(value) {
        return None;
    }
    if lists(b"paused", value) {
        return Some(paused);
    }
    Some(b"loose")
}

/// Whether a key says when a queue is too empty.
fn is_empty_key(key: &[u8]) -> bool
    ensures { result ≡ spec.is_empty_key key.now }
{
    same_word(key, b"joinempty") || same_word(key, b"leavewhenempty")
}

/// The value as which that of a key is read, if it is another one.
fn other_value(key: &[u8], value: &[u8]) -> Option<&'static [u8]>
    ensures { option_map (λ other. other.now) result ≡ spec.other_value key.now value.now }
{
    if same_word(key, b"strategy") {
        return other_strategy(value);
    }
    if same_word(key, b"joinempty") {
        return other_rule(b"no", value);
    }
    if same_word(key, b"leavewhenempty") {
        return other_rule(b"yes", value);
    }
    None
}

/// The note on a pair, if there is one.
fn note_on(key: &[u8], value: &[u8]) -> Option<QueueNote>
    ensures { result ≡ spec.note_on key.now value.now }
{
    if same_word(key, b"strategy") && is_random(value) {
        return Some(QueueNote::Random);
    }
    if is_empty_key(key) && is_list(value) && lists(b"inuse", value) {
        return Some(QueueNote::InUse);
    }
    None
}

/// Whether the lines after an item belong to a queue, given whether the item does.
fn in_queue_after(within: bool, item: Option<Line<'_>>) -> bool
    ensures { result ≡ spec.in_queue_after within (lines_now item.entry) }
{
    match item {
        Some(Line::Header { name, .. }) => !same_word(name, b"general"),
        Some(Line::Pair { .. }) => within,
        None => within,
    }
}

/// A line of a key and a value.
fn pair_text(alloc: Global, key: &[u8], value: &[u8]) -> Result<Text, NoMemory>
    ensures { IfOk result (λ text. text ≡ spec.pair_text key.now value.now) }
{
    let mut text = Vec::from_slice(alloc, key)?;
    text.extend_from_slice(b" = ")?;
    text.extend_from_slice(value)?;
    Ok(Text::new(text))
}

/// The text of a pair, if it is read as another one.
fn other_pair(alloc: Global, key: &[u8], value: &[u8]) -> Result<Option<Text>, NoMemory>
    ensures { IfOk result (λ text. text ≡ option_map (spec.pair_text key.now) (spec.other_value key.now value.now)) }
{
    match other_value(key, value) {
        None => Ok(None),
        Some(other) => {
            let text = pair_text(alloc, key, other)?;
            Ok(Some(text))
        }
    }
}

/// The text of the line of an item, if it is read as another one.
fn other_text(alloc: Global, within: bool, item: Option<Line<'_>>) -> Result<Option<Text>, NoMemory>
    ensures { IfOk result (λ text. text ≡ spec.other_text within (lines_now item.entry)) }
{
    match item {
        Some(Line::Pair { key, value, .. }) if within => other_pair(alloc, key, value),
        _ => Ok(None),
    }
}

/// The note on the line of an item, if there is one.
fn note_of(within: bool, item: Option<Line<'_>>) -> Option<QueueNote>
    ensures { result ≡ spec.note_of within (lines_now item.entry) }
{
    match item {
        Some(Line::Pair { key, value, .. }) if within => note_on(key, value),
        _ => None,
    }
}

/// What a line of a file of queues becomes.
#[derive(Drop)]
struct QueueReading {
    /// Its other text, if it is read as another line.
    text: Option<Text>,
    note: Option<QueueNote>,
    /// Whether the lines after it belong to a queue.
    within: bool,
}

/// What a line becomes, given whether it belongs to a queue.
fn reading_of(alloc: Global, within: bool, text: &[u8]) -> Result<QueueReading, NoMemory>
    ensures text { IfOk result (λ reading. reading.text ≡ spec.other_text within (items_in text.now)) }
    ensures note { IfOk result (λ reading. reading.note ≡ spec.note_of within (items_in text.now)) }
    ensures within { IfOk result (λ reading. reading.within ≡ spec.in_queue_after within (items_in text.now)) }
{
    let content = line_content(alloc, text)?;
    let item = read_item(content.bytes())?;
    let text = other_text(alloc, within, item)?;
    Ok(QueueReading {
        text,
        note: note_of(within, item),
        within: in_queue_after(within, item),
    })
}

/// A line with another text, if there is one.
fn with_text(text: Option<Text>, line: MadeLine) -> MadeLine
    ensures { result ≡ spec.with_text text line }
{
    match text {
        None => line,
        Some(text) => MadeLine {
            source: line.source,
            text: LineText::new(text),
        },
    }
}

/// Adds a note at a line of a file, if there is one.
fn push_note(
    notices: &mut Vec<NoticeAt>,
    source: usize,
    note: Option<QueueNote>,
) -> Result<(), NoMemory>
    ensures { OnOk result (notices.new.items ≡ notices.old.items ++ spec.note_at source note) }
{
    match note {
        None => Ok(()),
        Some(note) => {
            notices.push(NoticeAt {
                source,
                notice: Notice::Queue(note),
            })?;
            Ok(())
        }
    }
}

/// Adds a line with another text, if there is one, and the note on it.
fn push_line(
    made: &mut QueueLines,
    line: MadeLine,
    text: Option<Text>,
    note: Option<QueueNote>,
) -> Result<(), NoMemory>
    ensures lines { OnOk result (made.new.lines.items ≡ made.old.lines.items ++ spec.with_text text line ∷ []) }
    ensures notices { OnOk result (made.new.notices.items ≡ made.old.notices.items ++ spec.note_at line.source note) }
{
    push_note(&mut made.notices, line.source, note)?;
    made.lines.push(with_text(text, line))?;
    Ok(())
}

/// Lines of a file of queues, with the words that the reader of queues knows, and the notes on them.
pub(crate) fn read_queue_lines(alloc: Global, lines: Vec<MadeLine>) -> Result<QueueLines, NoMemory>
    ensures lines { IfOk result (λ made. made.lines.items ≡ spec.queue_lines false lines.items) }
    ensures notices { IfOk result (λ made. made.notices.items ≡ spec.queue_notes false lines.items) }
{
    let mut made = QueueLines {
        lines: Vec::new(alloc),
        notices: Vec::new(alloc),
    };
    let mut within = false;
    for line in lines {
        let reading = reading_of(alloc, within, line.text.bytes())?;
        within = reading.within;
        push_line(&mut made, line, reading.text, reading.note)?;
    }
    Ok(made)
}
