//! The order in which a look-up asks the entries of a context.
use crate::plan::render::ranking;
use crate::plan::rows::RANKED;
use dp_case_tables::{Question, bytes_of, check_all};
use dp_plan::Dialplan;
use std::alloc::Global;
use std::test::Fail;

/// Texts, with the entries of their first context in that order.
pub(crate) const ORDERS: &str = r"
[m]\n→
[m]\nexten => s,1,A\n→<s,1>
# Entries of one name are in the order of their priorities, as numbers.
[m]\nexten => s,3,A\nexten => s,1,B\nexten => s,2,C\n→<s,1><s,2><s,3>
[m]\nexten => s,10,A\nexten => s,9,B\nsame => 2147483647,C\nsame => 1,D\n→<s,1><s,9><s,10><s,2147483647>
[m]\nexten => t,1,A\nexten => s,2,B\nexten => t,2,C\nexten => s,1,D\n→<s,1><s,2><t,1><t,2>
# Plain names are in the order of their bytes.
[m]\nexten => a,1,A\nexten => A,1,B\nexten => 9,1,C\nexten => 10,1,D\nexten => *,1,E\nexten => #,1,F\nexten => 1,1,G\nexten => \xC3\xA9,1,H\n→<#,1><*,1><1,1><10,1><9,1><A,1><a,1><é,1>
[m]\nexten => 1-2,1,A\nexten => 1-1,1,B\nexten => 1--0,1,C\n→<10,1><11,1><12,1>
[m]\nexten => abc,1,A\nexten => ab,1,B\nexten => b,1,C\nexten => a,1,D\n→<a,1><ab,1><abc,1><b,1>
[m]\nexten => 1.,1,A\nexten => 1!,1,B\nexten => X,1,C\nexten => [,1,D\n→<1!,1><1.,1><X,1><[,1>
# Plain names come before patterns.
[m]\nexten => _X.,1,A\nexten => _1XX,1,B\nexten => 123,1,C\n→<123,1><_1XX,1><_X.,1>
[m]\nexten => _1,1,A\nexten => zzz,9,B\nexten => 1,2,C\n→<1,2><zzz,9><_1,1>
[m]\nexten => _!,1,A\nexten => ~,1,B\nexten => _0,1,C\nexten => ~~,1,D\n→<~,1><~~,1><_0,1><_!,1>
# Classes with fewer members come first.
[m]\nexten => _X,1,A\nexten => _Z,1,B\nexten => _N,1,C\nexten => _5,1,D\n→<_5,1><_N,1><_Z,1><_X,1>
[m]\nexten => _[0-9a],1,A\nexten => _X,1,B\nexten => _[a-c],1,C\nexten => _[89],1,D\n→<_[89],1><_[abc],1><_X,1><_[0123456789a],1>
[m]\nexten => _[012],1,A\nexten => _9,1,B\nexten => _[89],1,C\n→<_9,1><_[89],1><_[012],1>
[m]\nexten => _[2-9],1,A\nexten => _[0-6],1,B\nexten => _[1-9],1,C\n→<_[0123456],1><_N,1><_Z,1>
# Classes of the same size are in the order of their members.
[m]\nexten => _b,1,A\nexten => _a,1,B\nexten => _B,1,C\nexten => _2,1,D\nexten => _*,1,E\n→<_*,1><_2,1><_B,1><_a,1><_b,1>
[m]\nexten => _[23],1,A\nexten => _[19],1,B\nexten => _[13],1,C\nexten => _[12],1,D\n→<_[12],1><_[13],1><_[19],1><_[23],1>
[m]\nexten => _NX,1,A\nexten => _[4-8]X,1,B\nexten => _[0-4]X,1,C\n→<_[01234]X,1><_[45678]X,1><_NX,1>
# The first place where two patterns differ decides.
[m]\nexten => _XX,1,A\nexten => _X1,1,B\nexten => _1X,1,C\nexten => _12,1,D\n→<_12,1><_1X,1><_X1,1><_XX,1>
[m]\nexten => _[12]XX,1,A\nexten => _X11,1,B\nexten => _2XX.,1,C\n→<_2XX.,1><_[12]XX,1><_X11,1>
[m]\nexten => _X999,1,A\nexten => _9XXX,1,B\nexten => _99XX,1,C\nexten => _999X,1,D\n→<_999X,1><_99XX,1><_9XXX,1><_X999,1>
# The end of a pattern comes first, then classes, then `.`, then `!`.
[m]\nexten => _1!,1,A\nexten => _1.,1,B\nexten => _1X,1,C\nexten => _11,1,D\nexten => _1,1,E\n→<_1,1><_11,1><_1X,1><_1.,1><_1!,1>
[m]\nexten => _!,1,A\nexten => _.,1,B\nexten => _X,1,C\n→<_X,1><_.,1><_!,1>
[m]\nexten => _.,1,A\nexten => _X!,1,B\nexten => _X.,1,C\nexten => _XX!,1,D\n→<_XX!,1><_X.,1><_X!,1><_.,1>
[m]\nexten => _1X!,1,A\nexten => _1.,1,B\nexten => _1X,1,C\nexten => _1XX,1,D\n→<_1X,1><_1XX,1><_1X!,1><_1.,1>
[m]\nexten => _[.],1,A\nexten => _.,1,B\nexten => _[!]1,1,C\n→<_[!]1,1><_[.],1><_.,1>
[m]\nexten => _X,1,A\nexten => _[X],1,B\nexten => _x.,1,C\n→<_[X],1><_X,1><_X.,1>
# Entries of one pattern are in the order of their priorities, however the pattern is written.
[m]\nexten => _[2-9],3,A\nexten => _N,1,B\nexten => _n,2,C\n→<_N,1><_N,2><_N,3>
[m]\nexten => _X.,1,A\nexten => _1.,2,B\nexten => _X.,2,C\nexten => _1.,1,D\n→<_1.,1><_1.,2><_X.,1><_X.,2>
# Dropped lines have no place, and the lines of several sections are together.
[m]\nexten => s,2(a),A\nexten => s,2,B\nexten => s,1(a),C\nexten => 1,1,D\n→<1,1><s,2>
[m]\nexten => t,1,A\n[o]\nexten => a,1,B\n[m]\nexten => s,1,C\n→<s,1><t,1>
# Labels and includes change nothing.
[m]\ninclude => o\nexten => s,2(a),A\nexten => s,1(b),B\n[o]\nexten => 1,1,C\n→<s,1><s,2>
";

/// The entries of the first context in the order in which a look-up asks them.
struct Ranks;

impl Question for Ranks {
    fn answer(alloc: Global, asked: &str) -> Result<String, Fail> {
        let text = bytes_of(alloc, asked)?;
        ranking_of(alloc, &text)
    }
}

fn ranking_of(alloc: Global, text: &[u8]) -> Result<String, Fail> {
    let (plan, _) = Dialplan::load(alloc, text)?;
    Ok(ranking(alloc, &plan, 0)?)
}

#[test]
fn look_ups_ask_specific_names_and_low_priorities_first(rt: HostRuntime) -> Result<(), Fail> {
    check_all::<Ranks>(rt.alloc(), &[ORDERS, RANKED])
}
