//! The entries that calls which come in at a context may run, worked out by hand from the rules.
use crate::pieces::answers::asked_of;
use dp_answer::reached_entries;
use dp_case_tables::{Question, push_bytes, text_of};
use dp_plan::{Dialplan, EntryId};
use dp_table::StandardApps;
use std::alloc::Global;
use std::test::Fail;

/// The question is that of `Answers`. The answer is the entries in their order, each as `CONTEXT,NAME,PRIORITY`, or `none`.
pub(super) struct Entries;

/// Adds an entry.
pub(super) fn push_entry(out: &mut String, plan: &Dialplan, id: EntryId) -> Result<(), Fail> {
    let (Some(context), Some(entry)) = (plan.contexts().get(id.context), plan.entry(id)) else {
        return Err(Fail::from("no such entry"));
    };
    push_bytes(out, context.name().bytes())?;
    out.push(',')?;
    push_bytes(out, entry.name.spelling())?;
    write!(out, ",{}", entry.priority.get())?;
    Ok(())
}

impl Question for Entries {
    fn answer(alloc: Global, asked: &str) -> Result<String, Fail> {
        let asked = asked_of(alloc, asked)?;
        let entries = reached_entries::<StandardApps>(
            alloc,
            &asked.plan,
            &asked.queues,
            &asked.ask,
        )?;
        let mut out = String::new(alloc);
        for id in &entries {
            if !out.is_empty() {
                out.push(' ')?;
            }
            push_entry(&mut out, &asked.plan, *id)?;
        }
        if out.is_empty() {
            return text_of(alloc, "none");
        }
        Ok(out)
    }
}

pub(super) const ENTRIES: &str = r#"
# What a call gets to from where it comes in, and nothing else.
doors||outside||||→outside,s,1 hall,s,1
doors||hall||||→hall,s,1 hall,9,1 safe,s,1
doors||safe||||→safe,s,1
# They are in the order of the dialplan, and not in that of the call.
back||first|||1-9|→last,s,1 last,s,2 first,2,1 first,_1X,1
back||lost||||→lost,s,1
# Only what the assumed extensions find.
back||first|||3-9|→none
back||first|||2|→first,2,1
doors||hall|||s|→hall,s,1
doors||hall|||0-8|→none
# An entry of an included context.
shared||in||||→in,5,1 more,7,1 more,5,2
shared||in|||5|→in,5,1 more,5,2
# A jump to a context whose name is computed, from digits.
jumps||in|||0-9|→in,_X.,1 in,_X.,2 7,s,1
# The end of a call, and digits that match nothing.
ends||in||||→in,s,1 main,s,1 main,h,1 main,i,1 late,s,1 lost,s,1
ends||late||||→late,s,1
# A way out of a queue, if it has one.
ways||main||||→main,s,1
ways|wayout|main||||→main,s,1 out,1,1
# A target has no effect, whether a call gets there or not.
doors||outside|hall|||→outside,s,1 hall,s,1
doors||outside|safe|||→outside,s,1 hall,s,1
# Where other calls come in.
doors||outside||hall|0-9s|7→outside,s,1 hall,s,1
# A context that does not exist, whoever names it.
doors||kitchen||||→none
doors||outside|kitchen|||→none
doors||outside||a,hall||→none
empty||main||||→none
"#;
