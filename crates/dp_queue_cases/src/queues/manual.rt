//! The examples of the manual.

/// The file of the manual.
pub(super) const FILE: &str = r"
[general]\npersistentmembers = yes\n\n[support]\nstrategy = rrmemory\nmaxlen = 20\njoinempty = no\nleavewhenempty = strict\ncontext = out\nmember => Line/1\nmember => Line/2\nmember => Line/3,1\nmember => Line/2,5             ; a member already\n\n[sales]\nmember => Line/2\nmember => Line/4,2,Dora\n→<support rrmemory 20 no strict (out) Line/1/0 Line/2/0 Line/3/1><sales ringall 0 yes no () Line/2/0 Line/4/2>{Line/1}{Line/2}{Line/3}{Line/4}
[sales]\n[Sales]→fault 33 DoubleQueue line 2
";

/// Whom the next offer rings.
pub(super) const OFFERS: &str = r"
[q]\nmember=A\nmember=B\nmember=C ; join q 1 ; offer q ; show→joined 0, offered #1 3, <q #1 A/0 B/0 C/0>{A rings 0 #1}{B rings 0 #1}{C rings 0 #1}
[q]\nmember=A\nmember=B\nmember=C ; pause q B ; join q 1 ; offer q ; show→yes, joined 0, offered #1 2, <q #1 A/0 B/0 paused C/0>{A rings 0 #1}{B}{C rings 0 #1}
[q]\nstrategy=linear\nmember=A\nmember=B\nmember=C ; join q 1 ; offer q ; decline A ; offer q ; show→joined 0, offered #1 1, yes, offered #1 1, <q #1 A/0 B/0 C/0>{A rings 0 #1}{B}{C}
[q]\nstrategy=linear\nmember=A\nmember=B\nmember=C ; join q 1 ; offer q ; answer A ; join q 2 ; offer q ; show→joined 0, offered #1 1, call 0 0 #1, joined 0, offered #2 1, <q #2 A/0 B/0 C/0>{A talks 0 #1}{B rings 0 #2}{C}
[q]\nstrategy=rrmemory\nmember=A\nmember=B\nmember=C ; join q 1 ; offer q ; decline A ; offer q ; show→joined 0, offered #1 1, yes, offered #1 1, <q #1 A/0 B/0 C/0>{A}{B rings 0 #1}{C}
[q]\nstrategy=rrmemory\nmember=A\nmember=B\nmember=C ; join q 1 ; offer q ; decline A ; offer q ; decline B ; offer q ; decline C ; offer q ; show→joined 0, offered #1 1, yes, offered #1 1, yes, offered #1 1, yes, offered #1 1, <q #1 A/0 B/0 C/0>{A rings 0 #1}{B}{C}
[q]\nstrategy=rrmemory\nmember=A\nmember=B\nmember=C ; join q 1 ; offer q ; decline A ; pause q B ; offer q ; show→joined 0, offered #1 1, yes, yes, offered #1 1, <q #1 A/0 B/0 paused C/0>{A}{B}{C rings 0 #1}
[q]\nstrategy=fewestcalls\nmember=A\nmember=B\nmember=C ; join q 1 ; offer q ; answer A ; done A ; join q 2 ; offer q ; show→joined 0, offered #1 1, call 0 0 #1, call 0 0 #1, joined 0, offered #2 1, <q #2 A/0 1 calls last 1 B/0 C/0>{A}{B rings 0 #2}{C} finished 1
[q]\nstrategy=leastrecent\nmember=A\nmember=B\nmember=C ; join q 1 ; offer q ; answer A ; done A ; join q 2 ; offer q ; answer B ; done B ; join q 3 ; offer q ; show→joined 0, offered #1 1, call 0 0 #1, call 0 0 #1, joined 0, offered #2 1, call 0 1 #2, call 0 1 #2, joined 0, offered #3 1, <q #3 A/0 1 calls last 1 B/0 1 calls last 2 C/0>{A}{B}{C rings 0 #3} finished 2
[q]\nmember=A,1\nmember=B\nmember=C,1 ; join q 1 ; offer q ; join q 2 ; offer q ; show→joined 0, offered #1 1, joined 0, offered #2 2, <q #1 #2 A/1 B/0 C/1>{A rings 0 #2}{B rings 0 #1}{C rings 0 #2}
[q]\nmember=A,1\nmember=B\nmember=C,1 ; pause q B ; join q 1 ; offer q ; show→yes, joined 0, offered #1 2, <q #1 A/1 B/0 paused C/1>{A rings 0 #1}{B}{C rings 0 #1}
";
