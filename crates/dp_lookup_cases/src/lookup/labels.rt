//! The priorities of labels, worked out by hand from the rules.

/// Labels.
pub(super) const LABELS: &str = r"
# A label belongs to the name that matches.
[main]\nexten => 5,3(here),five\nexten => 6,4(here),six\nexten => 5,4,next\n
from main
label 5,here→3
label -5-,here→3
label 6,here→4
label 7,here→none
label 5,Here→none
label 5,her→none
label 5,→none
label 5,3→none
label ,here→none

# The label of the more specific name is found.
[main]\nexten => _X,3(out),any\nexten => 5,9(out),five\n
from main
label 5,out→9
label 6,out→3

# A label may belong to a less specific name: a more specific name without it does not hide it.
[main]\nexten => 5,1,five\nexten => _X,2(out),any\nexten => _.,7(last),all\n
from main
label 5,out→2
label 5,last→7
label s,last→7
label s,out→none
find 5,2→main any

# A label may be in an include.
[a]\nexten => 1,1,own\ninclude => b\n[b]\nexten => _X,4(there),b\n
from a
label 1,there→4
label 12,there→none
label 1,own→none

# The label of the context comes before that of an include.
[a]\ninclude => b\nexten => _X,2(l),a\n[b]\nexten => 5,7(l),b\n
from a
label 5,l→2
from b
label 5,l→7
label 6,l→none
from c
label 5,l→none

# The first line with a label is found: a second line with a label that the extension has is dropped.
[main]\nexten => 5,8(l),first\nexten => 5,2(l),second\nexten => 5,n(m),last\n
from main
label 5,l→8
label 5,m→3
find 5,2→none
";
