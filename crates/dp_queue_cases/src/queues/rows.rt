//! Worked cases, with their answers.

/// Faults of files.
pub(super) const FILE_FAULTS: &str = r"
[q]\nstrategy=best→fault 30 BadStrategy line 2
[q]\nmaxlen=x→fault 31 BadNumber line 2
[q]\nmember => A,x→fault 31 BadNumber line 2
[q]\nstrategy=random→fault 32 LeftOut line 2
[q]\njoinempty=paused→fault 32 LeftOut line 2
[q]\n[q]→fault 33 DoubleQueue line 2
";

/// Files with the answers of their queues to steps.
pub(super) const WORKED: &str = r"
# Strategies: three members that are idle; the one that rings declines.
[q]\nstrategy=linear\nmember=A\nmember=B\nmember=C ; join q 1 ; offer q ; decline A ; offer q ; decline A→joined 0, offered #1 1, yes, offered #1 1, yes
[q]\nstrategy=rrmemory\nmember=A\nmember=B\nmember=C ; join q 1 ; offer q ; decline A ; offer q ; decline B ; offer q ; decline C ; offer q ; decline A→joined 0, offered #1 1, yes, offered #1 1, yes, offered #1 1, yes, offered #1 1, yes
[q]\nmember=A,1\nmember=B\nmember=C,1 ; join q 1 ; offer q ; show→joined 0, offered #1 1, <q #1 A/1 B/0 C/1>{A}{B rings 0 #1}{C}
[q]\nstrategy=fewestcalls\nmember=A\nmember=B\nmember=C ; join q 1 ; offer q ; answer A ; done A ; join q 2 ; offer q ; decline B→joined 0, offered #1 1, call 0 0 #1, call 0 0 #1, joined 0, offered #2 1, yes
[q]\nstrategy=leastrecent\nmember=A\nmember=B\nmember=C ; join q 1 ; offer q ; answer A ; done A ; join q 2 ; offer q ; answer B ; done B ; join q 3 ; offer q ; decline C→joined 0, offered #1 1, call 0 0 #1, call 0 0 #1, joined 0, offered #2 1, call 0 1 #2, call 0 1 #2, joined 0, offered #3 1, yes
# A full queue.
[q]\nmaxlen=1 ; join q 1 ; join q 2 ; count q→joined 0, full, 1
[q]\nmaxlen=1 ; join Q 1 ; join q 2→joined 0, full
# Members that are added and removed.
[q]\nmember=Line/1 ; add q Line/9 ; add q Line/9 ; add no Line/9 ; remove q Line/1 ; remove q Line/9 ; remove q Line/9→added, already, no queue, of the file, removed, not there
# A member that is paused in all queues, and then unpaused in one of them.
[q1]\nmember=Line/7\n[q2]\nmember=Line/7 ; join q1 1 ; pause * Line/7 ; pause * Line/8 ; offer q1 ; unpause q1 Line/7 ; offer q1→joined 0, yes, no, refused 46 NoMember, yes, offered #1 1
# A call that rings at two agents.
[q]\nmember=Line/1\nmember=Line/2 ; join q 1 ; offer q ; answer Line/1 ; answer Line/2 ; done Line/1→joined 0, offered #1 2, call 0 0 #1, none, call 0 0 #1
# Refused offers.
[q] ; offer z ; offer q ; join q 1 ; offer q ; answer Line/1 ; done Line/1→refused 44 NoQueue, refused 45 NobodyWaiting, joined 0, refused 46 NoMember, none, none
";
