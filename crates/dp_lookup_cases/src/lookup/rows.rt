//! Worked cases, with their answers.

/// Worked cases.
pub(super) const ROWS: &str = r"
# The more specific name first.
[main]\nexten => _X.,1,any\nexten => _1XX,1,three\nexten => 123,1,exact\n
from main
find 123,1→main exact
find 124,1→main three
find 12,1→main any
find 1,1→none

# Wildcards: `!` may match nothing, `.` comes before `!`, and only `.` lets a text go on.
[main]\nexten => s,1,WaitExten(5)\nexten => _1!,1,bang\nexten => _1.,1,dot\n
from main
find 1,1→main bang
find 12,1→main dot
more 1→more

[main]\nexten => s,1,WaitExten(5)\nexten => _1!,1,bang\n
from main
find 1,1→main bang
find 12,1→main bang
more 1→no more

# The priority is checked together with the name.
[main]\nexten => 123,1,one\nexten => _X.,1,other\nexten => _X.,2,two\n
from main
find 123,1→main one
find 123,2→main two
find 123,3→none

# A cycle of includes ends.
[a]\ninclude => b\n[b]\ninclude => a\n
from a
order→a b 
find 77,1→none
";
