//! A listing that is requested again after memory ran out.
use dp_case_tables::{Question, bytes_of, check, push_bytes};
use dp_lister::list;
use dp_machine::Dialplan;
use std::alloc::Global;
use std::test::Fail;

/// A dialplan and its listing.
const LISTED: &str = r"
# usual-file
[general]\nstatic=yes\nwriteprotect=no\n\n[globals]\nTRUNK=Line/9\n\n[main]\nexten => _NXXXXXX,1,Answer()\n same => n,Playback(hello-world)\n same => n(q),Queue(support,c)\n same => n,Hangup()\ninclude => out\n→[globals]\nTRUNK => Line/9\n[main]\nexten => _NXXXXXX,1,Answer()\nexten => _NXXXXXX,2,Playback(hello-world)\nexten => _NXXXXXX,3(q),Queue(support,c)\nexten => _NXXXXXX,4,Hangup()\ninclude => out\n
";

/// The listing of a dialplan, requested again if memory runs out.
fn list_again(alloc: Global, plan: &Dialplan) -> Result<String, Fail> {
    let listed = match list(alloc, plan) {
        Ok(listed) => listed,
        Err(_) => list(alloc, plan).ok().ok_or("memory is refused once more")?,
    };
    let mut out = String::new(alloc);
    push_bytes(&mut out, &listed)?;
    Ok(out)
}

fn listing_of(alloc: Global, text: &[u8]) -> Result<String, Fail> {
    let (plan, _) = Dialplan::load(alloc, text)?;
    list_again(alloc, &plan)
}

/// The listing of a dialplan.
struct ListedPlan;

impl Question for ListedPlan {
    fn answer(alloc: Global, asked: &str) -> Result<String, Fail> {
        let text = bytes_of(alloc, asked)?;
        listing_of(alloc, &text)
    }
}

#[test]
fn a_listing_is_retried_after_no_memory(rt: HostRuntime) -> Result<(), Fail> {
    check::<ListedPlan>(rt.alloc(), LISTED)
}
