//! Files with the answers of their queues to steps.

/// Whom an offer rings, by penalties, pauses, talks elsewhere, and by strategy.
pub(super) const OFFERS: &str = r"
# The least penalty of those that may ring, and then the next one.
[q]\nmember=A\nmember=B\nmember=C,1 ; join q 1 ; offer q ; join q 2 ; offer q ; offer q ; show→joined 0, offered #1 2, joined 0, offered #2 1, refused 45 NobodyWaiting, <q #1 #2 A/0 B/0 C/1>{A rings 0 #1}{B rings 0 #1}{C rings 0 #2}
[q]\nmember=A\nmember=B,1 ; pause q A ; join q 1 ; offer q ; show→yes, joined 0, offered #1 1, <q #1 A/0 paused B/1>{A}{B rings 0 #1}
[q]\nmember=A,3\nmember=B,2\nmember=C,3 ; pause q B ; join q 1 ; offer q ; show→yes, joined 0, offered #1 2, <q #1 A/3 B/2 paused C/3>{A rings 0 #1}{B}{C rings 0 #1}
# An agent that talks or rings elsewhere is not rung.
[q]\nmember=A\nmember=B\n[r]\nmember=A ; join r 1 ; offer r ; answer A ; join q 2 ; offer q ; show→joined 1, offered #1 1, call 1 0 #1, joined 0, offered #2 1, <q #2 A/0 B/0><r A/0>{A talks 1 #1}{B rings 0 #2}
[q]\nmember=A\n[r]\nmember=A ; join r 1 ; offer r ; join q 2 ; offer q ; decline A ; offer q→joined 1, offered #1 1, joined 0, refused 46 NoMember, yes, offered #2 1
# The first call for which no agent rings.
[q]\nstrategy=linear\nmember=A\nmember=B ; join q 1 ; join q 2 ; offer q ; offer q ; offer q ; decline A ; offer q→joined 0, joined 0, offered #1 1, offered #2 1, refused 45 NobodyWaiting, yes, offered #1 1
[q]\nmember=A\nmember=B ; join q 1 ; offer q ; decline A ; offer q ; decline B ; offer q→joined 0, offered #1 2, yes, refused 45 NobodyWaiting, yes, offered #1 2
# An agent that answers makes the others idle that ring for the call, and no others.
[q]\nmember=A\nmember=B\nmember=C,1 ; join q 1 ; join q 2 ; offer q ; offer q ; answer B ; show→joined 0, joined 0, offered #1 2, offered #2 1, call 0 1 #1, <q #2 A/0 B/0 C/1>{A}{B talks 0 #1}{C rings 0 #2}
# `linear` starts again at each offer.
[q]\nstrategy=linear\nmember=A\nmember=B ; join q 1 ; offer q ; answer A ; join q 2 ; offer q ; decline B ; done A ; offer q ; answer A→joined 0, offered #1 1, call 0 0 #1, joined 0, offered #2 1, yes, call 0 0 #1, offered #2 1, call 0 0 #2
# `rrmemory` goes past members that may not ring, or have another penalty.
[q]\nstrategy=rrmemory\nmember=A\nmember=B\nmember=C ; join q 1 ; offer q ; decline A ; pause q B ; offer q ; decline C ; unpause q B ; offer q ; decline A ; offer q ; decline B→joined 0, offered #1 1, yes, yes, offered #1 1, yes, yes, offered #1 1, yes, offered #1 1, yes
[q]\nstrategy=rrmemory\nmember=A\nmember=B,1\nmember=C ; join q 1 ; offer q ; decline A ; offer q ; decline C ; offer q ; decline A→joined 0, offered #1 1, yes, offered #1 1, yes, offered #1 1, yes
# The last choice is not a member now: from the start.
[q]\nstrategy=rrmemory ; add q A ; add q B ; add q C ; join q 1 ; offer q ; decline A ; offer q ; decline B ; remove q B ; offer q ; decline A→added, added, added, joined 0, offered #1 1, yes, offered #1 1, yes, removed, offered #1 1, yes
# A member that came back counts at its new place.
[q]\nstrategy=rrmemory ; add q A ; add q B ; add q C ; join q 1 ; offer q ; decline A ; offer q ; decline B ; remove q B ; add q B ; add q D ; offer q ; decline D→added, added, added, joined 0, offered #1 1, yes, offered #1 1, yes, removed, added, added, offered #1 1, yes
# Another member that is removed does not change the turn.
[q]\nstrategy=rrmemory ; add q A ; add q B ; add q C ; join q 1 ; offer q ; decline A ; offer q ; decline B ; remove q A ; offer q ; decline C→added, added, added, joined 0, offered #1 1, yes, offered #1 1, yes, removed, offered #1 1, yes
# Each queue has its own turn.
[q]\nstrategy=rrmemory\nmember=A\nmember=B\n[r]\nstrategy=rrmemory\nmember=A\nmember=B ; join q 1 ; join r 2 ; offer q ; decline A ; offer r ; decline A ; offer q ; decline B→joined 0, joined 1, offered #1 1, yes, offered #2 1, yes, offered #1 1, yes
# Calls and the last one count in their own queue.
[q]\nstrategy=fewestcalls\nmember=A\nmember=B\n[r]\nmember=A ; join r 1 ; offer r ; answer A ; done A ; join q 2 ; offer q ; show→joined 1, offered #1 1, call 1 0 #1, call 1 0 #1, joined 0, offered #2 1, <q #2 A/0 B/0><r A/0 1 calls last 1>{A rings 0 #2}{B} finished 1
[q]\nstrategy=leastrecent\nmember=A\nmember=B\n[r]\nmember=B ; join r 1 ; offer r ; answer B ; done B ; join q 2 ; offer q ; answer A ; done A ; join q 3 ; offer q ; show→joined 1, offered #1 1, call 1 1 #1, call 1 1 #1, joined 0, offered #2 1, call 0 0 #2, call 0 0 #2, joined 0, offered #3 1, <q #3 A/0 1 calls last 2 B/0><r B/0 1 calls last 1>{A}{B rings 0 #3} finished 2
# Whether a queue is too empty to join is checked before whether it is full.
[q]\njoinempty=no ; join q 1→empty
[q]\njoinempty=no\nmember=A ; join q 1→joined 0
[q]\njoinempty=no\nmember=A ; pause q A ; join q 1→yes, empty
[q]\njoinempty=strict\nmember=A ; pause q A ; join q 1→yes, empty
[q]\njoinempty=loose ; join q 1→empty
[q]\njoinempty=loose\nmember=A ; pause q A ; join q 1→yes, joined 0
[q]\nmember=A ; pause q A ; join q 1 ; join z 2→yes, joined 0, unknown
[q]\njoinempty=no\nmaxlen=1\nmember=A ; join q 1 ; join q 2 ; pause q A ; join q 2→joined 0, full, yes, empty
# A call that talks does not wait.
[q]\nmaxlen=1\nmember=A ; join q 1 ; offer q ; answer A ; count q ; join q 2 ; join q 3→joined 0, offered #1 1, call 0 0 #1, 0, joined 0, full
# When calls are to leave.
[q] ; empty 0 ; empty 1→no, no
[q]\nleavewhenempty=yes ; empty 0→yes
[q]\nleavewhenempty=strict\nmember=A ; empty 0 ; pause q A ; empty 0→no, yes, yes
[q]\nleavewhenempty=loose\nmember=A ; pause q A ; empty 0→yes, no
[q]\nleavewhenempty=loose ; empty 0 ; add q A ; empty 0→yes, added, no
# Calls that leave.
[q]\nmember=A ; join q 1 ; offer q ; leave 1 ; leave 1 ; show→joined 0, offered #1 1, yes, no, <q A/0>{A}
[q]\nmember=A\nmember=B,1 ; join q 1 ; join q 2 ; offer q ; offer q ; leave 1 ; show→joined 0, joined 0, offered #1 1, offered #2 1, yes, <q #2 A/0 B/1>{A}{B rings 0 #2}
[q]\nmember=A ; join q 1 ; offer q ; answer A ; leave 1 ; end 2 ; end 1 ; end 1 ; show→joined 0, offered #1 1, call 0 0 #1, no, none, call 0 0 #1, none, <q A/0 1 calls last 1>{A} finished 1
# A call of the greatest number takes no more room than another.
[q]\nmember=A ; join q 4294967295 ; offer q ; answer A ; leave 4294967295 ; end 4294967295 ; show→joined 0, offered #4294967295 1, call 0 0 #4294967295, no, call 0 0 #4294967295, <q A/0 1 calls last 1>{A} finished 1
[q]\nmember=A ; join q 4294967295 ; join q 1 ; offer q ; decline A ; offer q ; leave 4294967295 ; offer q ; leave 4294967295 ; show→joined 0, joined 0, offered #4294967295 1, yes, offered #4294967295 1, yes, offered #1 1, no, <q #1 A/0>{A rings 0 #1}
[q] ; join q 7 ; join q 4294967295 ; join q 4294967294 ; leave 7 ; join q 0 ; leave 4294967294 ; leave 7 ; show→joined 0, joined 0, joined 0, yes, joined 0, yes, no, <q #4294967295 #0>
# A member that is paused or removed while its agent rings or talks.
[q]\nmember=A ; join q 1 ; offer q ; pause q A ; answer A ; show→joined 0, offered #1 1, yes, call 0 0 #1, <q A/0 paused>{A talks 0 #1}
[q] ; add q A 3 ; join q 1 ; offer q ; remove q A ; answer A ; done A ; show→added, joined 0, offered #1 1, removed, call 0 0 #1, call 0 0 #1, <q>{A} finished 1
[q] ; add q A 3 ; join q 1 ; offer q ; answer A ; remove q A ; add q A 5 ; done A ; show→added, joined 0, offered #1 1, call 0 0 #1, removed, added, call 0 0 #1, <q A/5 dynamic 1 calls last 1>{A} finished 1
# A member of the file stays, even if it is added or removed again.
[q]\nmember=A,2 ; add q A 1 ; remove q A ; add q B 1 ; show→already, of the file, added, <q A/2 B/1 dynamic>{A}{B}
# Names of queues have no case, and names of agents do.
[Sales]\nmember=A ; join SALES 1 ; offer sales ; answer a ; answer A ; pause sAlEs A ; pause sales a→joined 0, offered #1 1, none, call 0 0 #1, yes, no
# A second pause is a pause.
[q]\nmember=A ; pause q A ; pause q A ; unpause q A ; unpause q A ; pause z A ; show→yes, yes, yes, yes, no, <q A/0>{A}
";
