//! Worked cases, with their answers.
use crate::lookup::render::load_plan;
use crate::trie::render::check_tries;
use dp_trie::{Dialplan, Trie};
use std::alloc::Global;
use std::process::Abort;
use std::test::Fail;

#[test]
fn look_ups_in_one_context(rt: HostRuntime) -> Result<(), Fail> {
    let text = b"[main]\nexten => _X.,1,any\nexten => _1XX,1,three\nexten => 123,1,exact\n";
    let asked = "\
find 123,1→main exact
find 1-23,1→main exact
find 124,1→main three
find 12-4,1→main three
find 12,1→main any
find 1,1→none
more →more
more 12→more
more 123→more
more a→no more";
    check_tries(rt.alloc(), text, b"main", asked)?;
    let text = b"[main]\nexten => s,1,WaitExten(5)\nexten => _1!,1,bang\nexten => _1.,1,dot\n";
    let asked = "\
find 1,1→main bang
find 12,1→main dot
more 1→more";
    check_tries(rt.alloc(), text, b"main", asked)?;
    let text = b"[main]\nexten => s,1,WaitExten(5)\nexten => _1!,1,bang\n";
    let asked = "\
find 1,1→main bang
find 12,1→main bang
more →more
more 1→no more";
    check_tries(rt.alloc(), text, b"main", asked)?;
    let text = b"[main]\nexten => 123,1,one\nexten => _X.,1,other\nexten => _X.,2,two\n";
    let asked = "\
find 123,1→main one
find 123,2→main two
find 123,3→none
more 12→more
more 1234→more";
    check_tries(rt.alloc(), text, b"main", asked)
}

fn check_count(rt: &impl Abort, trie: &Trie) {
    assert_eq!(rt; (trie.nodes(0), trie.nodes(1)), (4, 0));
}

fn check_trie(rt: &impl Abort, alloc: Global, plan: &Dialplan) -> Result<(), Fail> {
    let trie = Trie::build(alloc, plan)?;
    check_count(rt, &trie);
    Ok(())
}

/// A tree of four nodes, and none if there is no such context.
fn check_nodes(rt: &impl Abort, alloc: Global, text: &[u8]) -> Result<(), Fail> {
    let plan = load_plan(alloc, text)?;
    check_trie(rt, alloc, &plan)
}

/// The count is at most the number of the tree's nodes, and at least that of the classes of a pattern that is found.
#[test]
fn nodes_entered_by_a_look_up(rt: HostRuntime) -> Result<(), Fail> {
    let text = b"[main]\nexten => _1X,1,two\nexten => _1.,2,more\n";
    let asked = "\
find 15,1→main two
find 15,2→main more
find 155,1→none
find 155,2→main more
count 15,1→3
count 2,1→0
count ,1→0";
    check_tries(rt.alloc(), text, b"main", asked)?;
    check_nodes(&rt, rt.alloc(), text)
}

/// The entries of one name have one end, even if one of them has a label: the class and the end are entered, for whichever priority.
#[test]
fn priorities_of_one_name_share_an_end_node(rt: HostRuntime) -> Result<(), Fail> {
    let text = b"[main]\ninclude => far\nexten => _X,1,one\nexten => _X,2(here),two\n\
[far]\nexten => _X,3,three\nexten => _X,4(there),four\nexten => _X.,5,five\n";
    let asked = "\
find 5,2→main two
label 5,here→2
label 5,there→4
count 5,1→2
count 5,2→2
count 5,3→4
count 5,4→4
count 5,5→5
count 55,2→5
count 55,5→5
count a,1→0
count ,1→0";
    check_tries(rt.alloc(), text, b"main", asked)?;
    let asked = "\
count 5,3→2
count 5,2→3";
    check_tries(rt.alloc(), text, b"far", asked)
}

/// The nodes that are entered count in each context that is searched, up to the one that answers.
#[test]
fn look_ups_in_several_contexts(rt: HostRuntime) -> Result<(), Fail> {
    let text = b"[a]\ninclude => b\nexten => 5,1,own\nexten => _X,4(out),any\n[b]\ninclude => a\n\
exten => 5,1,first\nexten => _X,2(out),second\nexten => 678,1,far\n";
    let asked = "\
find 5,1→a own
find 5,2→b second
find 5,4→a any
find 77,1→none
label 5,out→4
label 5,Out→none
label 6,out→4
more 5→no more
more 6→more
more 67→more
more 678→no more
count 5,1→0
count 5,2→4
count 678,1→2
count 77,1→4";
    check_tries(rt.alloc(), text, b"a", asked)?;
    let asked = "\
find 5,1→b first
find 5,4→a any
label 5,out→2";
    check_tries(rt.alloc(), text, b"b", asked)?;
    check_tries(rt.alloc(), text, b"c", "find 5,1→none")
}

/// Names that go on from one another, priorities with gaps between them, and dashes in the text.
#[test]
fn look_ups_with_priority_gaps_and_dashes(rt: HostRuntime) -> Result<(), Fail> {
    let text =
        b"[main]\nexten => 2,1,two\nexten => 12,1,one\nexten => 12,5,five\nexten => 12,9(far),nine\n\
exten => 1,2,short\nexten => 123,2,late\nexten => 1234,1,long\n\
exten => _3X[45].,7,seven\nexten => _3X[45].,2,other\nexten => _3XX,1,three\n";
    let asked = "\
find 12,1→main one
find 12,5→main five
find 12,9→main nine
find 12,4→none
find 12,10→none
find 1,1→none
find 1,2→main short
find 2,1→main two
find 0,1→none
find 13,1→none
find 9,1→none
label 12,far→9
label 123,far→none
more 1→more
more 12→more
more 123→more
more 1234→no more
more 2→no more
find --1-2--,5→main five
find 3-1-4-9,7→main seven
find 3-1--5-6-7,2→main other
find 3-1-6-7,2→none
find -3-1-4-,1→main three
find 3-1-4-,7→none
more 3-1-→more
more 3-1-4-→no more";
    check_tries(rt.alloc(), text, b"main", asked)
}

/// A label of several names that match, of a name that does not, and of two contexts, each by the order of names.
#[test]
fn look_ups_of_labels(rt: HostRuntime) -> Result<(), Fail> {
    let text =
        b"[main]\ninclude => far\nexten => _1X,2(both),any\nexten => 12,4(both),exact\nexten => _1.,3(tail),dot\n\
exten => 99,5(none),other\nexten => _X5,6(none),five\nexten => 12,7(single),single\n\
exten => _1[0-5],8(class),few\nexten => _1.,9(class),many\n\
[far]\nexten => _1X,10(both),later\nexten => 12,11(far),seven\nexten => 77,12(far),eight\n";
    let asked = "\
label 12,both→4
label 1-2-,both→4
label 13,both→2
label 123,both→none
label 22,both→none
label 12,tail→3
label 123,tail→3
label 1,tail→none
label 15,none→6
label 99,none→5
label 12,single→7
label 13,single→none
label 14,class→8
label 16,class→9
label 12,far→11
label 77,far→12
label 78,far→none
label 12,fa→none
label 12,→none";
    check_tries(rt.alloc(), text, b"main", asked)?;
    let asked = "\
label 12,both→10
label 12,far→11
label 12,single→none";
    check_tries(rt.alloc(), text, b"far", asked)
}
