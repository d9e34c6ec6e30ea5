//! Which entry is found if several names have the priority, worked out by hand from the rules.

/// Names that have priorities of their own.
pub(super) const PRIORITIES: &str = r"
# The priority is checked before the name.
[main]\nexten => _X,3,any\nexten => _N,2,digit\nexten => 5,1,five\n
from main
find 5,1→main five
find 5,2→main digit
find 5,3→main any
find 5,4→none
find 1,1→none
find 1,2→none
find 1,3→main any
find 2,1→none
find 2,2→main digit

# Lines may be in any order.
[main]\nexten => _X,2,other\nexten => 5,3,three\nexten => _X,1,any\nexten => 5,1,one\nexten => _X,3,last\n
from main
find 5,1→main one
find 5,2→main other
find 5,3→main three
find 6,1→main any
find 6,2→main other
find 6,3→main last

# A gap is not an entry.
[main]\nexten => 1,1,one\nexten => 1,3,three\n
from main
find 1,0→none
find 1,1→main one
find 1,2→none
find 1,3→main three
find 1,2147483647→none

# Numbers beyond the greatest priority find nothing.
[main]\nexten => 1,2147483647,last\n
from main
find 1,2147483646→none
find 1,2147483647→main last
find 1,2147483648→none
find 1,4294967295→none

# Of two lines for one place the first is kept, and is found.
[main]\nexten => 1,1,first\nexten => 1,1,second\nexten => _X,1,any\n
from main
find 1,1→main first
find 2,1→main any
";
