//! Look-ups through includes, worked out by hand from the rules.

/// Contexts with includes.
pub(super) const INCLUDES: &str = r"
# A context comes before its includes, even with a less specific name.
[a]\ninclude => b\nexten => _X,1,any\n[b]\nexten => 5,1,five\nexten => 55,1,more\n
from a
find 5,1→a any
find 55,1→b more
find 6,1→a any
from b
find 5,1→b five
find 55,1→b more
find 6,1→none

# A priority may be in an include.
[a]\nexten => 5,1,own\ninclude => b\n[b]\nexten => 5,1,first\nexten => _X,2,second\n
from a
find 5,1→a own
find 5,2→b second
find 5,3→none
find 6,1→none
find 6,2→b second

# Includes are in the order of the file.
[c]\nexten => _X,1,c\n[b]\nexten => _X,1,b\n[a]\ninclude => b\ninclude => c\n
from a
find 5,1→b b

[b]\nexten => _X,1,b\n[c]\nexten => _X,1,c\n[a]\ninclude => c\ninclude => b\n
from a
find 5,1→c c

# Includes are searched depth first.
[a]\ninclude => b\ninclude => c\n[b]\ninclude => d\n[c]\nexten => 5,1,c\n[d]\nexten => 5,1,d\nexten => 6,1,d\n
from a
find 5,1→d d
find 6,1→d d
from c
find 5,1→c c
find 6,1→none

# A context may be included twice.
[a]\ninclude => b\ninclude => c\n[b]\ninclude => d\n[c]\ninclude => d\nexten => 7,1,c\n[d]\nexten => 7,1,d\n
from a
find 7,1→d d
from c
find 7,1→c c

[a]\ninclude => b\ninclude => b\n[b]\nexten => 7,1,b\n
from a
find 7,1→b b
find 8,1→none

# Cycles end.
[a]\ninclude => a\nexten => 1,1,own\n
from a
find 1,1→a own
find 2,1→none

[a]\ninclude => b\n[b]\ninclude => c\n[c]\ninclude => a\nexten => 9,1,last\nexten => _X,1,any\n
from a
find 9,1→c last
find 8,1→c any
from b
find 9,1→c last
find 8,1→c any
from c
find 9,1→c last
find 8,1→c any

[a]\nexten => 1,1,a\ninclude => b\n[b]\ninclude => a\nexten => 1,1,b\n
from a
find 1,1→a a
from b
find 1,1→b b

# An unknown context finds nothing.
[general]\nstatic=yes\n[globals]\nX=1\n[main]\nexten => _.,1,all\n
from mai
find 1,1→none
find s,1→none
from Main
find 1,1→none
find s,1→none
from main 
find 1,1→none
find s,1→none
from 
find 1,1→none
find s,1→none
from general
find 1,1→none
find s,1→none
from globals
find 1,1→none
find s,1→none
from main
find 1,1→main all

# So does any context of a dialplan without contexts, and its order is empty.
from main
find 1,1→none
find s,1→none
order→

# An include of an unknown context is skipped.
[a]\ninclude => x\ninclude => b\ninclude => B\n[b]\nexten => 1,1,b\ninclude => y\n
from a
find 1,1→b b
find 2,1→none
from x
find 1,1→none

[a]\ninclude => B\n[b]\nexten => 1,1,b\n
from a
find 1,1→none

# Sections with one name are one context, and an include may come before the context.
[a]\ninclude => c\nexten => _X,1,any\n[b]\nexten => 1,1,b\n[a]\nexten => 1,1,one\ninclude => b\n[c]\nexten => 1,2,c\nexten => 22,1,c\n
from a
find 1,1→a one
find 2,1→a any
find 1,2→c c
find 22,1→c c

# Special extensions are found in includes.
[a]\nexten => s,1,start\ninclude => b\n[b]\nexten => _.,1,all\nexten => h,1,end\n
from a
find s,1→a start
find h,1→b end
find i,1→b all
find t,1→b all
";
