//! Which texts match a name, and which could match by going on.

/// Texts that match a name, and texts that do not.
pub(super) const MATCHES: &str = r"
# Plain names.
matches 100|100→yes
matches 100|1-0-0→yes
matches 1-00|100→yes
matches 100|1000→no
matches 100|10→no
matches 100|→no
matches 100|-→no
matches 100|101→no
matches s|s→yes
matches s|S→no
matches X|X→yes
matches X|5→no
matches 1.|1.→yes
matches 1.|12→no
matches 1!|1!→yes
matches 1!|1→no
matches [12]|[12]→yes
matches [12]|1→no
matches a_b|a_b→yes
# Letters that stand for digits.
matches _X|0→yes
matches _X|9→yes
matches _X|a→no
matches _X|X→no
matches _X|→no
matches _X|12→no
matches _x|0→yes
matches _Z|0→no
matches _Z|1→yes
matches _z|9→yes
matches _N|1→no
matches _N|2→yes
matches _n|9→yes
matches _XX|5-5→yes
matches _X-X|55→yes
matches -_X|7→yes
matches _NXXXXXX|2345678→yes
matches _NXXXXXX|234-5678→yes
matches _NXXXXXX|1345678→no
matches _NXXXXXX|234567→no
matches _NXXXXXX|23456789→no
# Sets.
matches _[1-3]|1→yes
matches _[1-3]|2→yes
matches _[1-3]|3→yes
matches _[1-3]|4→no
matches _[1-3]|-→no
matches _[13]|2→no
matches _[a-c]|b→yes
matches _[a-c]|B→no
matches _[A-C]|B→yes
matches _[A-C]|b→no
matches _[X]|X→yes
matches _[X]|x→no
matches _[X]|5→no
matches _[.]|.→yes
matches _[.]|a→no
matches _[!]|!→yes
matches _[[]|[→yes
matches _[0-9#*]|#→yes
matches _[0-9#*]|7→yes
matches _[0-9#*]|+→no
# Characters that mean themselves.
matches _]|]→yes
matches _*5|*5→yes
matches __1|_1→yes
matches _a|a→yes
matches _a|A→no
# Wildcards.
matches _X.|12→yes
matches _X.|123456→yes
matches _X.|1→no
matches _X.|1-→no
matches _.|s→yes
matches _.|→no
matches _.|-→no
matches _!|→yes
matches _!|-→yes
matches _!|any→yes
matches _1!|1→yes
matches _1!|12→yes
matches _1!|2→no
matches _1!|→no
matches _1.-|12→yes
# Bytes above 127.
matches _[\xFF\x80]\xE9|\x80\xE9→yes
matches _[\xFF\x80]\xE9|\xFF-\xE9→yes
matches _[\xFF\x80]\xE9|\x81\xE9→no
matches _[\xFF\x80]\xE9|\xE9\x80→no
matches caf\xC3\xA9|caf\xC3\xA9→yes
matches caf\xC3\xA9|caf\xC3\xA8→no
";

/// What `.` and `!` match, and which of them goes on.
pub(super) const WILDCARDS: &str = r"
matches _1!|1→yes
matches _1.|1→no
matches _1!|12→yes
matches _1.|12→yes
goes_on _1.|1→yes
goes_on _1!|1→no
";

/// Texts that could match by going on.
pub(super) const GOES_ON: &str = r"
goes_on 100|→yes
goes_on 100|1→yes
goes_on 100|1-0-→yes
goes_on 100|100→no
goes_on 100|1000→no
goes_on 100|2→no
goes_on _XX|→yes
goes_on _XX|1→yes
goes_on _XX|a→no
goes_on _XX|12→no
goes_on _XX|123→no
goes_on _[12]3|1→yes
goes_on _[12]3|3→no
goes_on _[12]3|13→no
goes_on _X.|→yes
goes_on _X.|1→yes
goes_on _X.|1-→yes
goes_on _X.|12→yes
goes_on _X.|a→no
goes_on _.|→yes
goes_on _.|5→yes
goes_on _1!|→no
goes_on _1!|1→no
goes_on _!|→no
goes_on _X!|1→no
";
