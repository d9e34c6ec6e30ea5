//! Files of many members and of many queues, with the result of loading them.
use dp_conf::read_number;
use dp_queue::{NoMemory, Queues};
use std::alloc::Global;

/// The counts of what is loaded, for files that a word and a number name.
pub(super) const SIZES: &str = r"
# A queue with this number of members.
members 1→queues 1, members 1, agents 1
members 70→queues 1, members 70, agents 70
members 10000→queues 1, members 10000, agents 10000
# This number of members, and the same ones again.
repeated 500→queues 1, members 500, agents 500
# This number of queues with one member each.
queues 3000→queues 3000, members 1, agents 1
# This number of queues, and then the first name again in capitals.
doubled 3000→fault 33 DoubleQueue line 3001
";

/// Steps on queues of many agents and of many names, and of channels with great numbers, with their answers.
pub(super) const STEPS: &str = r"
[q] ; fill q 70 ; fill q 70 ; add q Line/69 ; add q line/69 ; remove q Line/0 ; remove q Line/35 ; remove q Line/35 ; pause q Line/69 ; pause q LINE/69 ; join q 1 ; offer q ; answer Line/1 ; answer Line/69 ; done Line/1→70 added, 0 added, already, added, removed, removed, not there, yes, no, joined 0, offered #1 68, call 0 1 #1, none, call 0 1 #1
[q]\nstrategy=linear\n[r] ; fill q 20 ; fill r 20 ; remove q Line/3 ; pause q Line/19 ; pause * Line/0 ; join q 1 ; offer q ; answer Line/1 ; join r 2 ; offer r ; end 1→20 added, 20 added, removed, yes, yes, joined 0, offered #1 1, call 0 1 #1, joined 1, offered #2 18, call 0 1 #1
[alpha]\n[Beta]\n[GAMMA] ; count ALPHA ; join beta 1 ; count BETA ; join gamma 2 ; count Gamma ; join delta 3 ; count alpha→0, joined 1, 1, joined 2, 1, unknown, 0
[q]\nmember=A ; join q 10000 ; join q 3 ; count q ; offer q ; leave 3 ; leave 4 ; leave 9999 ; leave 10001 ; answer A ; leave 10000 ; end 10000→joined 0, joined 0, 2, offered #10000 1, yes, no, no, no, call 0 0 #10000, no, call 0 0 #10000
";

fn push_members(out: &mut String, count: u32) -> Result<(), NoMemory> {
    for number in 0..count {
        write!(out, "member=Line/{number}\n")?;
    }
    Ok(())
}

fn push_queues(out: &mut String, count: u32) -> Result<(), NoMemory> {
    for number in 0..count {
        write!(out, "[q{number}]\n")?;
    }
    Ok(())
}

/// The file that a word names, with this number of members or queues.
pub(super) fn file_of(alloc: Global, word: &str, count: u32) -> Result<String, NoMemory> {
    let mut out = String::new(alloc);
    match word {
        "members" | "repeated" => {
            out.push_str("[q]\n")?;
            push_members(&mut out, count)?;
        }
        _ => push_queues(&mut out, count)?,
    }
    match word {
        "repeated" => push_members(&mut out, count)?,
        "doubled" => out.push_str("[Q0]\n")?,
        "queues" => out.push_str("member=Line/0\n")?,
        _ => {}
    }
    Ok(out)
}

/// The number that a word writes.
pub(super) fn count_of(word: &str) -> u32 {
    match read_number(word.as_bytes()) {
        Some(number) => u32::try_from(number).unwrap_or(0),
        None => 0,
    }
}

/// Adds the counts of what is loaded: the queues, the members of the last one, and the agents.
pub(super) fn push_counts(out: &mut String, queues: &Queues) -> Result<(), NoMemory> {
    let members = match queues.queues().last() {
        Some(queue) => queue.members().len(),
        None => 0,
    };
    write!(
        out,
        "queues {}, members {members}, agents {}",
        queues.queues().len(),
        queues.agents().len()
    )
}
