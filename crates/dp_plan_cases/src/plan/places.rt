//! Places: each priority of an extension has at most one entry.

/// Places that are taken in an extension, and places that are free.
pub(crate) const TAKEN: &str = r"
# Priorities that rise, and priorities that come again.
[m]\nexten => s,1,A\nexten => s,1,B\nexten => s,2,C\nexten => s,2,D\nexten => s,1,E\nexten => s,3,F\n→[m]<s,1,A()><s,2,C()><s,3,F()> note 3 DoublePriority note 5 DoublePriority note 6 DoublePriority
[m]\nexten => s,2147483647,A\nexten => s,2147483647,B\nexten => s,1,C\nexten => s,1,D\n→[m]<s,2147483647,A()><s,1,C()> note 3 DoublePriority note 5 DoublePriority
# Priorities that do not rise are free too, if no entry has them.
[m]\nexten => s,3,A\nexten => s,1,B\nexten => s,2,C\nexten => s,3,D\nexten => s,4,E\nexten => s,1,F\n→[m]<s,3,A()><s,1,B()><s,2,C()><s,4,E()> note 5 DoublePriority note 7 DoublePriority
[m]\nexten => s,5,A\nexten => s,2,B\nexten => s,2,C\nexten => s,5,D\nexten => s,6,E\nexten => s,6,F\n→[m]<s,5,A()><s,2,B()><s,6,E()> note 4 DoublePriority note 5 DoublePriority note 7 DoublePriority
# Two extensions whose lines alternate have their own places.
[m]\nexten => s,1,A\nexten => t,1,B\nexten => s,2,C\nexten => t,2,D\nexten => s,2,E\nexten => t,1,F\nexten => t,3,G\nexten => s,n,H\n→[m]<s,1,A()><t,1,B()><s,2,C()><t,2,D()><t,3,G()><s,3,H()> note 6 DoublePriority note 7 DoublePriority
# An extension of the same name in another context has its own places too.
[a]\nexten => s,1,A\n[b]\nexten => s,1,B\n[a]\nexten => s,2,C\n[b]\nexten => s,1,D\nexten => s,5,E\n[a]\nexten => s,5,F\nexten => s,2,G\n→[a]<s,1,A()><s,2,C()><s,5,F()>[b]<s,1,B()><s,5,E()> note 8 DoublePriority note 12 DoublePriority
[m]\nexten => s,1,A\nsame => 1,B\n[o]\nexten => s,2,C\n[m]\nexten => s,2,D\nsame => 1,E\nsame => n,F\n→[m]<s,1,A()><s,2,D()>[o]<s,2,C()> note 3 DoublePriority note 8 DoublePriority note 9 DoublePriority
# Names with the same meaning are one extension.
[m]\nexten => _N,1,A\nexten => 2,1,B\nexten => _[2-9],1,C\nexten => _n,2,D\nexten => 2,1,E\n→[m]<_N,1,A()><2,1,B()><_N,2,D()> note 4 DoublePriority note 6 DoublePriority
# A dropped line takes no place, but counts for the next `n`.
[m]\nexten => s,1,A\nexten => s,4,B\nexten => s,1,C\nexten => s,n,D\nexten => t,1,E\nexten => s,n,F\nexten => s,n,G\nexten => s,n,H\n→[m]<s,1,A()><s,4,B()><s,2,D()><t,1,E()><s,3,F()><s,5,H()> note 4 DoublePriority note 8 DoublePriority
[m]\nexten => s,1(a),A\nexten => s,7(a),B\nexten => s,7,C\nexten => s,4,D\nexten => s,7,E\n→[m]<s,1(a),A()><s,7,C()><s,4,D()> note 3 DoubleLabel note 6 DoublePriority
# Labels after priorities that do not rise.
[m]\nexten => s,2,A\nexten => s,1(a),B\nexten => s,3(a),C\nexten => t,1(a),D\nexten => s,3,E\nexten => s,2(b),F\nexten => s,4(b),G\n→[m]<s,2,A()><s,1(a),B()><t,1(a),D()><s,3,E()><s,4(b),G()> note 4 DoubleLabel note 7 DoublePriority
";
