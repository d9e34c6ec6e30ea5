//! The manual's entries on faults, and on refusals of events.
ghost use Rattle.std.specs.Prelude.{◌≡◌, ◌==◌, map, option_map, true};
ghost use Rattle.dp_commands.specs.Codes.{code_name, code_number};
ghost use Rattle.dp_commands.specs.declared.fault.Code.{Code};
ghost use Rattle.dp_machine.specs.Codes.{refusal_code, refusal_name};
ghost use Rattle.dp_machine.specs.declared.refusal.Refusal.{Refusal as refusals};
ghost use Rattle.dp_program.specs.Entries as spec;

use dp_commands::{Explanations, line_in};
use dp_conf::cut_once;
use dp_machine::Refusal;
use dp_plan::Word;
use std::marker::Model;

/// Each fault and each refusal of an event, with its entry as it is printed: the number and the name, when it comes, and an example.
/// `docs/check` compares them with the manual's tables. 24 has one more sentence and example for each kind of what is left out.
pub const ENTRIES: [(u32, &str); 47] = [
    (
        1,
        "\
1 BlockComment
a comment begins with `;--` and no third dash (`;---` is a plain comment)
example: `a = 1 ;-- x`
",
    ),
    (
        2,
        "\
2 NoSection
a pair, or text, before the first section
example: `a = 1` at the top
",
    ),
    (
        3,
        "\
3 BadHeader
a header with no `]`, with an empty name, or with text after the `]`
example: `[main`
",
    ),
    (
        4,
        "\
4 NoEquals
a line of a section with no `=`
example: `abc`
",
    ),
    (
        5,
        "\
5 Directive
a line begins with `#`: no other file is included
example: `#include \"x\"`
",
    ),
    (
        6,
        "\
6 Template
a `(` after a header
example: `[main](!)`
",
    ),
    (
        7,
        "\
7 ReadFailed
a file could not be opened or read
example: a folder in a file's place
",
    ),
    (
        8,
        "\
8 TooLong
a file has more than 16,777,216 bytes
example: a file of 16,777,217 line feeds
",
    ),
    (
        9,
        "\
9 WriteFailed
the output could not be written
example: a closed pipe
",
    ),
    (
        10,
        "\
10 EmptyName
a name of nothing or of dashes alone, or a pattern of nothing after its `_`
example: `exten => _,1,NoOp()`
",
    ),
    (
        11,
        "\
11 EmptySet
a set with no member
example: `exten => _[],1,NoOp()`
",
    ),
    (
        12,
        "\
12 BadRange
a `-` in a set that is no range from a digit, a capital or a small letter up to another of its kind
example: `exten => _[9-0],1,NoOp()`
",
    ),
    (
        13,
        "\
13 OpenSet
a `[` in a pattern and no `]` after it
example: `exten => _[12,1,NoOp()`
",
    ),
    (
        14,
        "\
14 AfterWildcard
anything but dashes after a `.` or a `!` of a pattern
example: `exten => _1.2,1,NoOp()`
",
    ),
    (
        15,
        "\
15 BadByte
a byte of 32 or less, 127 or `\\` in a name
example: `exten => a b,1,NoOp()`
",
    ),
    (
        20,
        "\
20 BadPriority
a priority that is neither `n` nor a number from 1 on
example: `exten => s,0,NoOp()`
",
    ),
    (
        21,
        "\
21 NoPrevious
an `n` with no earlier line of the context that has the extension
example: `exten => s,n,NoOp()` as the first line
",
    ),
    (
        22,
        "\
22 BadLabel
a label that is empty, of digits alone or has a parenthesis in it, or a `(` after a priority and no `)` at the end
example: `exten => s,1(),NoOp()`
",
    ),
    (
        23,
        "\
23 BadApplication
an application with no name, or with a `(` and no `)` at its end
example: `exten => s,1,NoOp(`
",
    ),
    (
        24,
        "\
24 LeftOut
what this program leaves out: one of the kinds that `explain 24` lists
example: `switch => Loopback/x`

the keys `switch`, `lswitch`, `eswitch`
example: `lswitch => Loopback/x`

the key `ignorepat`
example: `ignorepat => 9`

the priority `hint`
example: `exten => 100,hint,Line/1`

the priorities `next`, `s` and `same`, and those with a `+`
example: `exten => s,n+1,NoOp()`

a `/` in a name: names for one caller
example: `exten => s/5551234,1,NoOp()`

a `${` in a name, or in its one spelling: variables
example: `exten => ${X},1,NoOp()`, `exten => _[{$],1,NoOp()`

an include with a comma: times
example: `include => late,9:00-17:00,*,*,*`

an application with a comma in place of parentheses
example: `exten => s,1,Wait,5`
",
    ),
    (
        25,
        "\
25 TooDeep
more than 32 groups `${..}` or `$[..]` inside each other, in the arguments of an application or in the value of a global variable
example: 33 groups inside each other
",
    ),
    (
        26,
        "\
26 NoExten
a `same` with no line `exten` before it in its section
example: `same => 1,NoOp()` as the first line
",
    ),
    (
        27,
        "\
27 PriorityLimit
a priority above 2,147,483,647
example: `exten => s,2147483648,NoOp()`
",
    ),
    (
        28,
        "\
28 ShortLine
an `exten` line with fewer than two commas, or a `same` line with none
example: `exten => s,1`
",
    ),
    (
        30,
        "\
30 BadStrategy
a strategy that is none
example: `strategy=best`
",
    ),
    (
        31,
        "\
31 BadNumber
a `maxlen` or a penalty that is no number from 0 to 2,147,483,647
example: `maxlen=x`, `member => Line/1,x`
",
    ),
    (
        32,
        "\
32 LeftOut
a strategy that this program leaves out (`random`, `wrandom`, `rrordered`), or another word for `joinempty` or `leavewhenempty` than `yes`, `no`, `strict` and `loose`
example: `strategy=random`, `joinempty=paused`
",
    ),
    (
        33,
        "\
33 DoubleQueue
a second section of one queue
example: `[sales]` twice
",
    ),
    (
        40,
        "\
40 NoChannel
no channel has the number
example: `step 1` as the first line
",
    ),
    (
        41,
        "\
41 NotReady
a `step` of a channel that waits
example: `step 1` while channel 1 is in `Wait`
",
    ),
    (
        42,
        "\
42 NotWaiting
a `digit`, `timeout` or `poll` of a channel that waits for nothing that this could be
example: `digit 1 5` just after the `start` of channel 1
",
    ),
    (
        43,
        "\
43 NoTimer
a `timeout` of a channel that waits in a queue, or for a call to devices, for as long as it takes
example: `timeout 1` while channel 1 is in `Queue(support)`
",
    ),
    (
        44,
        "\
44 NoQueue
an `offer` of a queue that is not there
example: `offer support` where no file of queues is given
",
    ),
    (
        45,
        "\
45 NobodyWaiting
no call waits in the queue for which no agent rings
example: `offer support` before a call is in the queue
",
    ),
    (
        46,
        "\
46 NoMember
no member of the queue is free: each is paused, or its agent rings or talks
example: `offer support` where the queue has no members
",
    ),
    (
        47,
        "\
47 NotRinging
an `answer` or `decline` of an agent that does not ring
example: `answer Line/1` before an `offer`
",
    ),
    (
        48,
        "\
48 NotTalking
a `done` of an agent that does not talk
example: `done Line/1` before an `answer`
",
    ),
    (
        49,
        "\
49 Ended
the channel has ended
example: `step 1` after `hangup 1`
",
    ),
    (
        50,
        "\
50 NumbersSpent
65,535 calls have come in before this one
example: the 65,536th `start`
",
    ),
    (
        51,
        "\
51 BadDigit
the byte is no digit of a telephone
example: `digit 1 x`
",
    ),
    (
        52,
        "\
52 BadPlan
a `reload`, and the second dialplan has a fault
example: `reload` where the second dialplan is `abc`
",
    ),
    (
        53,
        "\
53 NotDialling
a `result` of a channel that waits for no call to devices
example: `result 1 BUSY` just after the `start` of channel 1
",
    ),
    (
        60,
        "\
60 SeatMissing
a history is settled without one of its seats; `run --threads` hands in each of its seats, so this is for programs over the library
example: a board of two seats, settled with one of them
",
    ),
    (
        61,
        "\
61 Disagree
what a seat was told is not what the history has of it; also for programs over the library, and not known to happen
example: none is known
",
    ),
    (
        62,
        "\
62 NoMemory
there is not the memory to settle a history
example: a machine without memory
",
    ),
    (
        70,
        "\
70 BadScript
a line of the script that begins with another word than those of scripts, that has too few or too many words, or of which CH or COUNT is no number or too great, or STATUS none of its five; or `reload` where there is no second dialplan
example: `jump 1`, `step 1 100001`, `digit 1 55`, `result 1 busy`
",
    ),
    (
        71,
        "\
71 BadBreak
a break of `debug` that has not three parts, or of which the priority is no number from 1 to 2,147,483,647
example: `--break main,s`, `--break main,s,0`, `--break main,s,+1`
",
    ),
];

/// The entry with a number, if one of them has it.
fn entry_in<'a>(entries: &[(u32, &'a str)], number: u32) -> Option<&'a str>
    ensures { option_map (λ entry. entry.now) result
        ≡ spec.entry_in (map (λ entry. (entry.0, entry.1.now)) entries.now) number }
{
    for (of, entry) in entries {
        if *of == number {
            return Some(*entry);
        }
    }
    None
}

/// The entry of a number, if a fault has the number.
#[tactic(auto, unfolding(crate::specs::Entries::found_entry))]
fn found_entry(number: u32) -> Option<&'static str>
    ensures { option_map (λ entry. entry.now) result ≡ spec.found_entry number }
{
    entry_in(&ENTRIES, number)
}

/// The name in an entry: the rest of the first line after the number.
fn name_in(entry: &str) -> &[u8]
    ensures { result.now ≡ spec.name_in entry.now }
{
    match cut_once(line_in(entry.as_bytes(), 1), b' ') {
        Some((_, name)) => name,
        None => b"",
    }
}

/// The number of the entry with the name, if exactly one of them has it.
#[tactic(auto, using(crate::proofs::EntriesLemmas::only_first))]
fn number_in(entries: &[(u32, &str)], name: &[u8]) -> Option<u32>
    ensures { result ≡ spec.only (spec.numbers_in (map (λ entry. (entry.0, entry.1.now)) entries.now) name.now) }
{
    let mut found = None;
    for (number, entry) in entries {
        if name_in(entry) == name {
            match found {
                Some(_) => return None,
                None => found = Some(*number),
            }
        }
    }
    found
}

/// The number of the fault with the name, if exactly one fault has it.
#[tactic(auto, unfolding(crate::specs::Entries::found_number))]
fn found_number(name: &[u8]) -> Option<u32>
    ensures { result ≡ spec.found_number name.now }
{
    number_in(&ENTRIES, name)
}

/// The number of a fault, or of a refusal of an event, that has an entry. A contract sees it as its number.
#[derive(Clone, Copy, Debug, PartialEq, Eq)]
pub struct FaultNumber {
    number: u32,
}

impl Model for FaultNumber {
    ghost use Rattle.std.specs.Prelude.{◌≡◌, ℕ, true};
    ghost use Rattle.dp_program.specs.Entries.{has_entry};

    ghost Value = { ℕ };

    ghost view = { λ fault. fault.number };

    ghost invariant = { λ fault. has_entry fault.number ≡ true };

    ghost inverse = { λ number. record { number = number } };
}

impl FaultNumber {
    ghost use Rattle.std.specs.Prelude.{◌≡◌, true};
    ghost use Rattle.std.specs.Option.{SomeIff};
    ghost use Rattle.dp_program.specs.Entries.{entry_of, fault_named, has_entry};

    /// The fault with this number, or None if no fault has it.
    pub fn new(number: u32) -> Option<Self>
        ensures { SomeIff result (has_entry number ≡ true) number }
    {
        if found_entry(number).is_none() {
            return None;
        }
        Some(FaultNumber { number })
    }

    /// The fault with this name, or None if no fault has it, or more than one. The case of each letter matters.
    pub fn by_name(name: &str) -> Option<Self>
        ensures { result ≡ fault_named name.now }
    {
        let number = found_number(name.as_bytes())?;
        FaultNumber::new(number)
    }

    /// The manual's entry on the fault: its number and name, when it comes, and an example, each on a line.
    pub fn entry(self) -> &'static str
        ensures { result.now ≡ entry_of self }
    {
        found_entry(self.number).unwrap()
    }
}

/// The manual's entries of the refusals, which explain them.
pub(crate) struct ManualEntries;

impl Explanations for ManualEntries {
    ghost use Rattle.dp_program.specs.Entries.{explanation_of as entry_of_refusal};

    ghost explanation_of = { entry_of_refusal };

    fn explanation(refusal: Refusal) -> &'static str {
        found_entry(u32::from(refusal.code())).unwrap_or("")
    }
}

/// The entry of each fault, and that of each refusal of an event, begins with its number and its name, on a line of their own. This
/// function does nothing.
pub fn entries_are_headed()
    ensures faults { (code : Code) → spec.is_headed (code_number code) (code_name code) (spec.entry_of (code_number code)) ≡ true }
    ensures refusals { (refusal : refusals) → spec.is_headed (refusal_code refusal) (refusal_name refusal)
        (spec.entry_of (refusal_code refusal)) ≡ true }
{}

/// The manual's sentence on the fault with the number.
pub(crate) fn sentence_of(number: u32) -> &'static [u8]
    ensures { result.now ≡ spec.sentence_of number }
{
    let entry = found_entry(number).unwrap_or("");
    line_in(entry.as_bytes(), 2)
}

/// The line of entry 24 that holds a kind of what is left out.
fn kind_line(word: Word) -> usize
    ensures { result ≡ spec.kind_line word }
{
    match word {
        Word::Switch => 5,
        Word::IgnorePat => 8,
        Word::Hint => 11,
        Word::PriorityWord => 14,
        Word::CallerId => 17,
        Word::Variable => 20,
        Word::IncludeTimes => 23,
        Word::OldForm => 26,
    }
}

/// A kind of what is left out, in the manual's words.
pub(crate) fn kind_of(word: Word) -> &'static [u8]
    ensures { result.now ≡ spec.kind_of word }
{
    let entry = found_entry(24).unwrap_or("");
    line_in(entry.as_bytes(), kind_line(word))
}
