//! Labels of priorities: how they are read, and which are taken.

/// Labels that load.
pub(crate) const LABELS: &str = r"
[m]\nexten => s,1(a),A\n→[m]<s,1(a),A()>
[m]\nexten => s,1(a),A(b)\nexten => s,n(c),D(e)\n→[m]<s,1(a),A(b)><s,2(c),D(e)>
# Blanks at the ends of the priority and of the label do not count.
[m]\nexten => s, 1 ( a ) ,A\n→[m]<s,1(a),A()>
[m]\nexten => s,1,A\nexten => s,n\t(\ta\t)\t,B\n→[m]<s,1,A()><s,2(a),B()>
[m]\nexten => s,1(two words),A\n→[m]<s,1(two words),A()>
[m]\nexten => s,0009(a),A\n→[m]<s,9(a),A()>
# A label is any text that is not made of digits alone.
[m]\nexten => s,1(a+b),A\n→[m]<s,1(a+b),A()>
[m]\nexten => s,1(+1),A\nexten => s,2(-1),B\n→[m]<s,1(+1),A()><s,2(-1),B()>
[m]\nexten => s,1(1a),A\nexten => s,2(1.5),B\n→[m]<s,1(1a),A()><s,2(1.5),B()>
[m]\nexten => s,1(1 2),A\n→[m]<s,1(1 2),A()>
[m]\nexten => s,1(a\\;b),A\n→[m]<s,1(a;b),A()>
[m]\nexten => s,1(a=b),A\n→[m]<s,1(a=b),A()>
[m]\nexten => s,1(\xC3\xA9),A\n→[m]<s,1(é),A()>
[m]\nexten => s,1($[1]),A\n→[m]<s,1($[1]),A()>
[m]\nexten => s,1([]),A\n→[m]<s,1([]),A()>
# Words that are refused as priorities may be labels.
[m]\nexten => s,1(n),A\nexten => s,2(hint),B\n→[m]<s,1(n),A()><s,2(hint),B()>
[m]\nexten => s,1(s),A\nexten => s,2(same),B\n→[m]<s,1(s),A()><s,2(same),B()>
[m]\nexten => s,2147483647(last),A\n→[m]<s,2147483647(last),A()>
";

/// Labels that an extension already has, and labels that are free.
pub(crate) const TAKEN: &str = r"
[m]\nexten => s,1(a),A\nexten => s,2(a),B\n→[m]<s,1(a),A()> note 3 DoubleLabel
[m]\nexten => s,1(a),A\nexten => s,2( a ),B\n→[m]<s,1(a),A()> note 3 DoubleLabel
[m]\nexten => s,1(a),A\nexten => s,n(a),B\nexten => s,n(a),C\n→[m]<s,1(a),A()> note 3 DoubleLabel note 4 DoubleLabel
[m]\nexten => s,1(a),A\nsame => n(b),B\nsame => n(a),C\n→[m]<s,1(a),A()><s,2(b),B()> note 4 DoubleLabel
[m]\nexten => s,1(a),A\n[m]\nexten => s,2(a),B\n→[m]<s,1(a),A()> note 4 DoubleLabel
[m]\nexten => _N,1(a),A\nexten => _[2-9],2(a),B\n→[m]<_N,1(a),A()> note 3 DoubleLabel
[m]\nexten => 1-2,1(a),A\nexten => 12,2(a),B\n→[m]<12,1(a),A()> note 3 DoubleLabel
# A line without a label takes no label.
[m]\nexten => s,1(a),A\nexten => s,2,B\nexten => s,3,C\n→[m]<s,1(a),A()><s,2,B()><s,3,C()>
# The priority of a dropped line is free for a later line.
[m]\nexten => s,1(a),A\nexten => s,2(a),B\nexten => s,2,C\n→[m]<s,1(a),A()><s,2,C()> note 3 DoubleLabel
[m]\nexten => s,1(a),A\nexten => s,2(a),B\nexten => s,2(b),C\n→[m]<s,1(a),A()><s,2(b),C()> note 3 DoubleLabel
# The label of a dropped line is free too.
[m]\nexten => s,1,A\nexten => s,1(a),B\nexten => s,2(a),C\n→[m]<s,1,A()><s,2(a),C()> note 3 DoublePriority
[m]\nexten => s,1(a),A\nexten => s,1(b),B\nexten => s,n(b),C\n→[m]<s,1(a),A()><s,2(b),C()> note 3 DoublePriority
# If both are taken, only the priority is noted.
[m]\nexten => s,1(a),A\nexten => s,1(a),B\n→[m]<s,1(a),A()> note 3 DoublePriority
[m]\nexten => s,1(a),A\nexten => s,2(b),B\nexten => s,1(b),C\n→[m]<s,1(a),A()><s,2(b),B()> note 4 DoublePriority
[m]\nexten => s,1(a),A\nexten => s,2(a),B\nexten => s,1(a),C\n→[m]<s,1(a),A()> note 3 DoubleLabel note 4 DoublePriority
# Another extension or another context has labels of its own.
[m]\nexten => s,1(a),A\nexten => t,1(a),B\n→[m]<s,1(a),A()><t,1(a),B()>
[m]\nexten => _X,1(a),A\nexten => X,1(a),B\nexten => 5,1(a),C\n→[m]<_X,1(a),A()><X,1(a),B()><5,1(a),C()>
[a]\nexten => s,1(x),A\n[b]\nexten => s,1(x),B\n[a]\nexten => s,2(x),C\n→[a]<s,1(x),A()>[b]<s,1(x),B()> note 6 DoubleLabel
[m]\nexten => s,1(a),A\n[M]\nexten => s,1(a),B\n→[m]<s,1(a),A()>[M]<s,1(a),B()>
# Labels are compared byte by byte.
[m]\nexten => s,1(a),A\nexten => s,2(A),B\n→[m]<s,1(a),A()><s,2(A),B()>
[m]\nexten => s,1(a-b),A\nexten => s,2(ab),B\n→[m]<s,1(a-b),A()><s,2(ab),B()>
# A label is neither a name nor a priority.
[m]\nexten => s,1(s),A\nexten => t,1(s),B\nexten => t,2(t),C\n→[m]<s,1(s),A()><t,1(s),B()><t,2(t),C()>
# A line that is refused is not dropped.
[m]\nexten => s,1(a),A\nexten => s,2(a),B(\n→fault 23 line 3
[m]\nexten => s,1(a),A\nexten => s,1(a,B\n→fault 22 line 3
";

/// Labels that are refused.
pub(crate) const BAD: &str = r"
# An empty label.
[m]\nexten => s,1(),A\n→fault 22 line 2
[m]\nexten => s,1( \t),A\n→fault 22 line 2
# Only digits.
[m]\nexten => s,1(12),A\n→fault 22 line 2
[m]\nexten => s,1( 0 ),A\n→fault 22 line 2
[m]\nexten => s,1(1),A\n→fault 22 line 2
# No `)` at the end.
[m]\nexten => s,1(,A\n→fault 22 line 2
[m]\nexten => s,1(a,A\n→fault 22 line 2
[m]\nexten => s,1(a)b,A\n→fault 22 line 2
[m]\nexten => s,1(a) b,A\n→fault 22 line 2
[m]\nexten => s,1(a,b),A\n→fault 22 line 2
[m]\nexten => s,1,A\nexten => s,n(a)+1,B\n→fault 22 line 3
# Parentheses inside the label.
[m]\nexten => s,1(a(b)),A\n→fault 22 line 2
[m]\nexten => s,1((a),A\n→fault 22 line 2
[m]\nexten => s,1(a)),A\n→fault 22 line 2
[m]\nexten => s,1(a)(b),A\n→fault 22 line 2
[m]\nexten => s,1()),A\n→fault 22 line 2
[m]\nexten => s,1,A\nsame => n(),B\n→fault 22 line 3
# A `)` without a `(` before it makes no label.
[m]\nexten => s,1),A\n→fault 20 line 2
[m]\nexten => s,1a),A\n→fault 20 line 2
# A comment ends the line inside the label.
[m]\nexten => s,1(a;b),A\n→fault 28 line 2
# The priority before the label is refused.
[m]\nexten => s,(a),A\n→fault 20 line 2
[m]\nexten => s, ( a ),A\n→fault 20 line 2
[m]\nexten => s,0(a),A\n→fault 20 line 2
[m]\nexten => s,x(a),A\n→fault 20 line 2
[m]\nexten => s,2147483648(a),A\n→fault 27 line 2
[m]\nexten => s,n(a),A\n→fault 21 line 2
";
