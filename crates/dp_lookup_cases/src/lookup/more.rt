//! Whether a text could go on, worked out by hand from the rules.

/// Texts that could go on.
pub(super) const MORE: &str = r"
# A plain name goes on to its end.
[main]\nexten => 123,1,plain\nexten => 1-5,1,dash\n
from main
more →more
more -→more
more 1→more
more 1-→more
more 1-2→more
more 123→no more
more 1-2-3→no more
more 15→no more
more 124→no more
more 2→no more

# A pattern goes on through its classes.
[main]\nexten => _NXX,1,three\n
from main
more →more
more 2→more
more 23→more
more 234→no more
more 1→no more
more 2a→no more

# A `.` goes on for ever.
[main]\nexten => _.,1,all\n
from main
more →more
more 5→more
more s-----→more
more 5555555555→more

[main]\nexten => _1.,1,one\n
from main
more →more
more 1→more
more 12→more
more 2→no more

# A name with `!` matches already, and does not count.
[main]\nexten => _!,1,any\n
from main
more →no more
more 5→no more

[main]\nexten => _1X!,1,digits\n
from main
more →no more
more 1→no more
more 12→no more
more 123→no more

[main]\nexten => _1X!,1,digits\nexten => 144,1,plain\n
from main
more 1→more
more 14→more
more 144→no more
more 13→no more

# Only priority 1 counts.
[main]\nexten => 12,2,two\nexten => _3X,3,three\nexten => _3XX,1,one\n
from main
more 1→no more
more 3→more
more 34→more
more 345→no more

# Names of includes count.
[a]\ninclude => x\ninclude => b\nexten => 1,1,own\n[b]\ninclude => a\nexten => 12,1,b\n[c]\nexten => _.,1,all\n
from a
more 1→more
more 12→no more
more 2→no more
from b
more 1→more
more 12→no more
more 2→no more
from x
more 1→no more
more →no more
";
