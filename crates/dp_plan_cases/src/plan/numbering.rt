//! The priority `n`, and lines `same`.

/// `n` is one more than the priority of the last line before it in the same context and extension.
pub(crate) const NEXT: &str = r"
[m]\nexten => s,1,A\nexten => s,n,B\nexten => s,n,C\n→[m]<s,1,A()><s,2,B()><s,3,C()>
[m]\nexten => s,007,A\nexten => s, n ,B\n→[m]<s,7,A()><s,8,B()>
# The last line counts, and not the greatest priority.
[m]\nexten => s,5,A\nexten => s,1,B\nexten => s,n,C\n→[m]<s,5,A()><s,1,B()><s,2,C()>
[m]\nexten => s,1,A\nexten => s,10,B\nexten => s,n,C\nexten => s,2,D\nexten => s,n,E\n→[m]<s,1,A()><s,10,B()><s,11,C()><s,2,D()><s,3,E()>
# A dropped line counts too.
[m]\nexten => s,1,A\nexten => s,5,B\nexten => s,1,C\nexten => s,n,D\n→[m]<s,1,A()><s,5,B()><s,2,D()> note 4 DoublePriority
[m]\nexten => s,1(a),A\nexten => s,2(a),B\nexten => s,n,C\n→[m]<s,1(a),A()><s,3,C()> note 3 DoubleLabel
[m]\nexten => s,1(a),A\nexten => s,9(a),B\nexten => s,n(b),C\n→[m]<s,1(a),A()><s,10(b),C()> note 3 DoubleLabel
# A dropped line with `n` counts too.
[m]\nexten => s,1,A\nexten => s,3,C\nexten => s,2,B\nexten => s,n,X\nexten => s,n,D\n→[m]<s,1,A()><s,3,C()><s,2,B()><s,4,D()> note 5 DoublePriority
[m]\nexten => s,1,A\nexten => s,2(x),B\nexten => s,1,C\nexten => s,n(x),D\nexten => s,n,E\n→[m]<s,1,A()><s,2(x),B()><s,3,E()> note 4 DoublePriority note 5 DoublePriority
# Several sections of one context, with other sections between them.
[a]\nexten => s,1,A\n[b]\nexten => s,5,B\n[a]\nexten => s,n,C\n[b]\nexten => s,n,D\n→[a]<s,1,A()><s,2,C()>[b]<s,5,B()><s,6,D()>
[m]\nexten => s,1,A\n[globals]\nexten => s,7,B\n[m]\nexten => s,n,C\n→{exten=s,7,B}[m]<s,1,A()><s,2,C()>
[m]\nexten => s,1,A\n[general]\nexten => s,7,B\n[ m ]\nexten => s,n,C\n→[m]<s,1,A()><s,2,C()>
[a]\nexten => s,1,A\n[b]\n[a]\nexten => s,1,B\n[b]\n[a]\nexten => s,n,C\n→[a]<s,1,A()><s,2,C()>[b] note 5 DoublePriority
# Unknown keys and includes between the lines do not count.
[m]\nexten => s,1,A\nfoo=7\ninclude => m\n\n; s,9\nexten => s,n,B\n→[m]<s,1,A()><s,2,B()>{+m} note 3 UnknownKey
# Lines of other extensions between them do not count.
[m]\nexten => s,1,A\nexten => t,5,B\nexten => s,n,C\nexten => t,n,D\n→[m]<s,1,A()><t,5,B()><s,2,C()><t,6,D()>
# Names with the same meaning are one extension.
[m]\nexten => _N,1,A\nexten => _[2-9],n,B\nexten => _n,n,C\n→[m]<_N,1,A()><_N,2,B()><_N,3,C()>
[m]\nexten => 1-2,3,A\nexten => 12,n,B\nexten => -12,n,C\n→[m]<12,3,A()><12,4,B()><12,5,C()>
[m]\nexten => _[2-9]X.,1,A\nexten => _Nx.,1,B\nexten => _N[0-9].-,n,C\n→[m]<_NX.,1,A()><_NX.,2,C()> note 3 DoublePriority
# `n` is refused without an earlier line of the context and the extension.
[m]\nexten => s,n,A\n→fault 21 line 2
[m]\nexten => s,1,A\nexten => t,n,B\n→fault 21 line 3
[m]\nexten => S,1,A\nexten => s,n,B\n→fault 21 line 3
[m]\nexten => N,1,A\nexten => _N,n,B\n→fault 21 line 3
[m]\nexten => _X,1,A\nexten => 5,n,B\n→fault 21 line 3
[m]\nexten => _1.,1,A\nexten => _1!,n,B\n→fault 21 line 3
[a]\nexten => s,1,A\n[b]\nexten => s,n,B\n[a]\nexten => s,n,C\n→fault 21 line 4
[m]\nexten => s,1,A\n[M]\nexten => s,n,B\n→fault 21 line 4
[general]\nexten => s,1,A\n[m]\nexten => s,n,B\n→fault 21 line 4
[m]\nexten => s,n,A\n[m]\nexten => s,1,B\n→fault 21 line 2
# `n` is refused after the greatest priority.
[m]\nexten => s,2147483646,A\nexten => s,n,B\n→[m]<s,2147483646,A()><s,2147483647,B()>
[m]\nexten => s,2147483647,A\nexten => s,n,B\n→fault 27 line 3
# It is refused even if the line with the greatest priority was dropped, but only if that line is the last one.
[m]\nexten => s,2147483647,A\nexten => s,1,B\nexten => s,2147483647,C\nexten => s,n,D\n→fault 27 line 5
[m]\nexten => s,2147483647,A\nexten => s,1,B\nexten => s,n,C\n→[m]<s,2147483647,A()><s,1,B()><s,2,C()>
";

/// `same` takes the name of the last line `exten` since the header of its section.
pub(crate) const SAME: &str = r"
[m]\nexten => s,1,A\nsame => n,B\n same => n,C(x,y)\n→[m]<s,1,A()><s,2,B()><s,3,C(x,y)>
[m]\nexten => s,1,A\nSAME => n,B\nSame = n,C\n→[m]<s,1,A()><s,2,B()><s,3,C()>
[m]\nexten => s,1,A\nsame => 5,B\nsame => n,C\nsame => 2,D\n→[m]<s,1,A()><s,5,B()><s,6,C()><s,2,D()>
[m]\nexten => s,1,A\nsame => n(x),B\nsame => 7 ( y ) , C ( z )\n→[m]<s,1,A()><s,2(x),B()><s,7(y),C( z )>
# The last of several lines `exten` counts.
[m]\nexten => s,1,A\nexten => t,1,B\nsame => n,C\nexten => s,n,D\nsame => n,E\n→[m]<s,1,A()><t,1,B()><t,2,C()><s,2,D()><s,3,E()>
[m]\nexten => _[2-9]X,1,A\nsame => n,B\nexten => _NX,n,C\nsame => n,D\n→[m]<_NX,1,A()><_NX,2,B()><_NX,3,C()><_NX,4,D()>
[m]\nexten => 1-2,1,A\nsame => n,B\nexten => 12,n,C\n→[m]<12,1,A()><12,2,B()><12,3,C()>
[m]\nexten => _[0-9][0-9][0-9][0-9][0-9][0-9][0-9][0-9][0-9][0-9][0-9][0-9][0-9][0-9][0-9][0-9][0-9][0-9][0-9][0-9][0-9][0-9][0-9][0-9][0-9][0-9][0-9][0-9][0-9][0-9][0-9][0-9][0-9][0-9][0-9][0-9][0-9][0-9][0-9][0-9],1,A\nsame => n,B\nexten => s,1,C\nsame => n,D\nexten => _XXXXXXXXXXXXXXXXXXXXXXXXXXXXXXXXXXXXXXXX,n,E\nsame => n(x),F\n→[m]<_XXXXXXXXXXXXXXXXXXXXXXXXXXXXXXXXXXXXXXXX,1,A()><_XXXXXXXXXXXXXXXXXXXXXXXXXXXXXXXXXXXXXXXX,2,B()><s,1,C()><s,2,D()><_XXXXXXXXXXXXXXXXXXXXXXXXXXXXXXXXXXXXXXXX,3,E()><_XXXXXXXXXXXXXXXXXXXXXXXXXXXXXXXXXXXXXXXX,4(x),F()>
# A dropped line `exten` counts as the last one too.
[m]\nexten => s,1,A\nexten => t,1,B\nexten => s,1,C\nsame => n,D\n→[m]<s,1,A()><t,1,B()><s,2,D()> note 4 DoublePriority
[m]\nexten => s,1(a),A\nexten => t,1(a),B\nexten => s,2(a),C\nsame => 2,D\n→[m]<s,1(a),A()><t,1(a),B()><s,2,D()> note 4 DoubleLabel
# A line `same` may be dropped, but counts for the next `n`.
[m]\nexten => s,1,A\nsame => 1,B\nsame => n,C\n→[m]<s,1,A()><s,2,C()> note 3 DoublePriority
[m]\nexten => s,1(a),A\nsame => n(a),B\nsame => n,C\n→[m]<s,1(a),A()><s,3,C()> note 3 DoubleLabel
# Other lines between `exten` and `same`.
[m]\nexten => s,1,A\n\n; x\nfoo=1\ninclude => m\nsame => n,B\n→[m]<s,1,A()><s,2,B()>{+m} note 5 UnknownKey
# The lines of other sections of the context count for `n`.
[m]\nexten => s,1,A\n[m]\nexten => s,9,B\nsame => n,C\n→[m]<s,1,A()><s,9,B()><s,10,C()>
[m]\nexten => s,4,A\n[o]\n[m]\nexten => s,n,B\nsame => n,C\n→[m]<s,4,A()><s,5,B()><s,6,C()>[o]
# `same` is refused without a line `exten` since the header.
[m]\nsame => n,A\n→fault 26 line 2
[m]\nSAME => 1,A\nexten => s,1,B\n→fault 26 line 2
[m]\nexten => s,1,A\n[m]\nsame => n,B\n→fault 26 line 4
[a]\nexten => s,1,A\n[b]\nsame => 1,B\n→fault 26 line 4
[a]\nexten => s,1,A\n[b]\nexten => t,1,B\n[a]\nsame => n,C\n→fault 26 line 6
[m]\nexten => s,1,A\n[globals]\nsame=n,B\n[m]\nsame => n,C\n→fault 26 line 6
[general]\nexten => s,1,A\n[m]\nsame => n,B\n→fault 26 line 4
[m]\ninclude => m\nfoo=1\nsame => 1,A\n→fault 26 line 4
# This is checked before the rest of the line.
[m]\nsame =>\n→fault 26 line 2
[m]\nsame => 1\n→fault 26 line 2
[m]\nsame => hint,A(\n→fault 26 line 2
# A line `same` without a comma is too short, and there is no place for a name in it.
[m]\nexten => s,1,A\nsame =>\n→fault 28 line 3
[m]\nexten => s,1,A\nsame => 2\n→fault 28 line 3
[m]\nexten => s,1,A\nsame => B(x)\n→fault 28 line 3
[m]\nexten => s,1,A\nsame => t,1,B\n→fault 20 line 3
[m]\nexten => s,1,A\nsame => s,2,B\n→fault 24 PriorityWord line 3
[m]\nexten => s,1,A\nsame => n,B,x\n→fault 24 OldForm line 3
# Faults of the priority and of the application.
[m]\nexten => s,1,A\nsame => ,B\n→fault 20 line 3
[m]\nexten => s,1,A\nsame => 2,\n→fault 23 line 3
[m]\nexten => s,2147483647,A\nsame => n,B\n→fault 27 line 3
";

/// Whole texts.
pub(crate) const WHOLE: &str = r"
# A context whose sections, extensions and keys are mixed.
[in]\nexten => 1-00,1(top),Answer\nsame => n,Wait(1)\nexten => _1xx,1,NoOp(any)\n[out]\nexten => _.,5,Dial(x)\nsame => n,Hangup\n[in]\nexten => 100,n(end),Hangup\nexten => _1[0-9]X,n,Goto(100,end)\nsame => n,Hangup()\n→[in]<100,1(top),Answer()><100,2,Wait(1)><_1XX,1,NoOp(any)><100,3(end),Hangup()><_1XX,2,Goto(100,end)><_1XX,3,Hangup()>[out]<_.,5,Dial(x)><_.,6,Hangup()>
# An extension and a pattern that matches it are counted separately.
[m]\nexten => 5,1,A\nexten => _X,1,B\nexten => 5,n,C\nexten => _X,n,D\nexten => _x,n,E\n→[m]<5,1,A()><_X,1,B()><5,2,C()><_X,2,D()><_X,3,E()>
# Several dropped lines, one after another.
[m]\nexten => s,1,A\nexten => s,2,B\nexten => s,3,C\nexten => s,1,X\nsame => n,Y\nsame => n,Z\nsame => n,D\n→[m]<s,1,A()><s,2,B()><s,3,C()><s,4,D()> note 5 DoublePriority note 6 DoublePriority note 7 DoublePriority
";
