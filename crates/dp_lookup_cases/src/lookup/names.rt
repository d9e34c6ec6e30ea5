//! Which of several names of one context is found, worked out by hand from the rules.

/// Names of one context.
pub(super) const NAMES: &str = r"
# The most specific name is found.
[main]\nexten => _X.,1,any\nexten => _1XX,1,three\nexten => 123,1,exact\n
from main
find ,1→none
find 1234,1→main any
find 12-3,1→main exact
find -1-2-4-,1→main three
find 223,1→main any
find a23,1→none

[main]\nexten => _X,1,x\nexten => _N,1,n\nexten => _[2-4],1,set\nexten => _3,1,three\n
from main
find 3,1→main three
find 2,1→main set
find 4,1→main set
find 5,1→main n
find 9,1→main n
find 1,1→main x
find 0,1→main x
find 33,1→none
find -,1→none

# Patterns with equal classes are one name.
[main]\nexten => _NX,1,first\nexten => _[2-9]X,2,second\nexten => _[2-9]X,1,late\n
from main
find 45,1→main first
find 45,2→main second
find 15,1→none
find 4,1→none

# Classes of one size are in the order of their members.
[main]\nexten => _[13],1,low\nexten => _[12],1,lowest\nexten => _[23],1,high\n
from main
find 1,1→main lowest
find 2,1→main lowest
find 3,1→main low
find 4,1→none

[main]\nexten => _X2,1,late\nexten => _NX,1,early\n
from main
find 22,1→main early
find 23,1→main early
find 12,1→main late
find 13,1→none

# At the first difference of two patterns the end comes first, then classes, then `.`, then `!`.
[main]\nexten => _1!,1,bang\nexten => _1.,1,dot\nexten => _1X,1,class\n
from main
find 1,1→main bang
find 12,1→main class
find 1a,1→main dot
find 123,1→main dot
find 2,1→none

[main]\nexten => _1!,1,bang\nexten => _1,1,end\n
from main
find 1,1→main end
find 12,1→main bang

[main]\nexten => _1,1,pattern\nexten => 1,1,plain\n
from main
find 1,1→main plain
find -1,1→main plain

# `s`, `i`, `t` and `h` are found as any other text is.
[main]\nexten => _.,1,all\n
from main
find s,1→main all
find i,1→main all
find t,1→main all
find h,1→main all
find ,1→none
find -,1→none
find --1,1→main all

[main]\nexten => _.,1,all\nexten => s,1,start\nexten => h,2,late\n
from main
find s,1→main start
find S,1→main all
find h,1→main all
find h,2→main late
find i,2→none

[main]\nexten => _!,1,any\n
from main
find ,1→main any
find -,1→main any
find t,1→main any

[main]\nexten => s,1,start\nexten => _X.,1,digits\n
from main
find s,1→main start
find h,1→none
find i,1→none
find t,1→none

# Names are matched by their bytes.
[main]\nexten => *72,1,star\nexten => #,1,hash\nexten => _*X,1,digit\nexten => _[a-c]b,1,letters\n
from main
find *72,1→main star
find #,1→main hash
find *7,1→main digit
find *a,1→none
find ab,1→main letters
find cb,1→main letters
find db,1→none
find Ab,1→none

[main]\nexten => X,1,plain\nexten => x.,1,text\n
from main
find 5,1→none
find X,1→main plain
find x.,1→main text
find xx,1→none

# Dashes do not count, in a name or in dialled text.
[main]\nexten => 5-55,1,plain\nexten => _5-XX,1,pattern\nexten => -_6.,1,dot\n
from main
find 555,1→main plain
find 5-5-5,1→main plain
find 5-55,1→main plain
find 512,1→main pattern
find --51-2,1→main pattern
find 6-,1→none
find 6-1,1→main dot
find ---,1→none
";
