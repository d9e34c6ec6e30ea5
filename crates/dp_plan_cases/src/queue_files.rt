//! Files of queues that are read with the files that they include, worked out by hand from the rules of configuration files.
use crate::notices::file_map;
use dp_case_tables::{Question, check, push_bytes, text_of};
use dp_notices::{QueueFiles, Shown, print_queue_notices, read_queues};
use std::alloc::Global;
use std::test::Fail;

/// Files, and the notices on them, with the text that loads after a `#`. Each file is written `NAME:TEXT`, with `‖` between two files. The
/// file `a` is read first.
const QUEUES: &str = r"
# Strategies.
a:[q]\nstrategy = rrordered\n[r]\nSTRATEGY=Random\n[s]\nstrategy=wrandom ; any\n[t]\nstrategy=linear ; first→a:4: note Random\na:6: note Random\n#[q]\nstrategy = rrmemory\n[r]\nSTRATEGY = ringall\n[s]\nstrategy = ringall\n[t]\nstrategy=linear ; first\n
# Lists of words.
a:[q]\njoinempty=paused\nleavewhenempty=paused\n[r]\njoinempty = penalty,invalid\nleavewhenempty = Unavailable,UNKNOWN,ringing,wrapup→#[q]\njoinempty = no\nleavewhenempty = yes\n[r]\njoinempty = loose\nleavewhenempty = loose\n
a:[q]\njoinempty=inuse\nleavewhenempty=Paused,InUse→a:2: note InUse\na:3: note InUse\n#[q]\njoinempty = loose\nleavewhenempty = yes\n
a:[q]\njoinempty=strict\nleavewhenempty=no→#[q]\njoinempty=strict\nleavewhenempty=no\n
# A list with another word, or with a blank in a word, has the fault of any other value.
a:[q]\njoinempty=strict,inuse\nleavewhenempty=paused, inuse\njoinempty=\nleavewhenempty=paused,→a:2: fault 32 LeftOut\na:3: fault 32 LeftOut\na:4: fault 32 LeftOut\na:5: fault 32 LeftOut\n#[q]\n\n\n\n\n
# Other keys and the settings of all queues stand.
a:[general]\nstrategy=random\njoinempty=inuse\n[q]\nmember => SIP/1,2 ; first\nmusic=random→#[general]\nstrategy=random\njoinempty=inuse\n[q]\nmember => SIP/1,2 ; first\nmusic=random\n
a:[q]\nstrategy=random\n[GENERAL]\nstrategy=random→a:2: note Random\n#[q]\nstrategy = ringall\n[GENERAL]\nstrategy=random\n
# Files, templates and comments of many lines.
a:[t](!)\nstrategy=random\nmaxlen=x\n[q](t)\nmember => SIP/1\n#include b\n[r](t)→a:2: note Random\na:3: fault 31 BadNumber\na:6: fault 7 ReadFailed b\n#[q]\nstrategy = ringall\n\nmember => SIP/1\n[r]\nstrategy = ringall\n\n
a:[q]\n#include b\n;-- member => SIP/3\nmember => SIP/4 --;\nmember => SIP/5‖b:member => SIP/2\nstrategy=best→b:2: fault 30 BadStrategy\n#[q]\nmember => SIP/2\n\n\n\nmember => SIP/5\n
a:[q]\nmaxlen=1\n[r]\n[q](+)\nmember => SIP/1→#[q]\nmaxlen=1\nmember => SIP/1\n[r]\n
# Each fault is reported at its line.
a:x=1\n[q]\nstrategy=best\nmaxlen=x\nmember => SIP/1,y\n[q]\nabc→a:1: fault 2 NoSection\na:3: fault 30 BadStrategy\na:4: fault 31 BadNumber\na:5: fault 31 BadNumber\na:6: fault 33 DoubleQueue\na:7: fault 4 NoEquals\n#[q]\n\n\n\n\n
b:[q]→no file
";

/// Reads the file `a` and the files that it includes. The result is `None` if the file is not there.
fn read(alloc: Global, files: &str) -> Result<Option<QueueFiles>, Fail> {
    let mut map = file_map(alloc, files)?;
    Ok(read_queues(alloc, &mut map, b"a").ok())
}

fn shown_of(alloc: Global, queues: &QueueFiles) -> Result<String, Fail> {
    let notices = print_queue_notices(alloc, Shown::All, queues)?;
    let text = queues.text(alloc)?;
    let mut out = String::new(alloc);
    push_bytes(&mut out, &notices)?;
    out.push('#')?;
    push_bytes(&mut out, &text)?;
    Ok(out)
}

struct QueueNotices;

impl Question for QueueNotices {
    fn answer(alloc: Global, asked: &str) -> Result<String, Fail> {
        match read(alloc, asked)? {
            Some(queues) => shown_of(alloc, &queues),
            None => text_of(alloc, "no file"),
        }
    }
}

#[test]
fn queues_are_read_with_their_files(rt: HostRuntime) -> Result<(), Fail> {
    check::<QueueNotices>(rt.alloc(), QUEUES)
}
