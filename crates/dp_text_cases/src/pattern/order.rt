//! The order of names, and which names are one.

/// The first name of each pair comes before the second.
pub(super) const IN_ORDER: &str = r"
# Plain names by their bytes, and before patterns.
order 100|200→before
order 100|1000→before
order 10|9→before
order A|a→before
order s|t→before
order 999|_1→before
order z|_!→before
# The end of a pattern first.
order _1|_11→before
order _1|_1X→before
order _1|_1.→before
order _1|_1!→before
order _NX|_[2-9]X.→before
# Fewer members first.
order _1|_X→before
order _9|_[01]→before
order _9Z|_XX→before
order _N|_Z→before
order _Z|_X→before
order _[4-8]X|_NX→before
order _[12]|_[345]→before
order _[ab]|_[abc]→before
order _12|_1X→before
order _XX1|_XXX→before
order _X1|_XZ→before
order _1XX|_X.→before
# Equal sizes by their members.
order _1|_2→before
order _A|_a→before
order _a|_b→before
order _[0-4]X|_[4-8]X→before
order _[12]|_[13]→before
order _[19]|_[23]→before
# Classes before `.`, and `.` before `!`.
order _X.|_.→before
order _X!|_.→before
order _1X!|_1.→before
order _.|_!→before
order _1.|_1!→before
";

/// Which names are one, and some that are not.
pub(super) const SAME: &str = r"
order 100|1-00→same
order _N|_[2-9]→same
order _n|_N→same
order _X|_[0123456789]→same
order _Z|_[1-9]→same
order _1-2|_12→same
order _[1]|_1→same
order _[21]|_[12]→same
order _[1-31-2]|_[123]→same
order _[aa]|_a→same
order -_X|_x→same
order _1.-|_1.→same
order X|_X→before
order _[X]|_X→before
order _[x]|_[X]→after
order _1.|_1!→before
order _a|_A→after
";

/// The more specific name comes first.
pub(super) const SPECIFIC_FIRST: &str = r"
order 123|_1XX→before
order _1XX|_X.→before
matches 123|123→yes
matches _1XX|123→yes
matches _X.|123→yes
matches 123|124→no
matches _1XX|124→yes
matches _X.|124→yes
matches _1XX|12→no
matches _X.|12→yes
matches _X.|1→no
";

/// Classes with equal sizes are in the order of their members, and patterns with equal classes are one name.
pub(super) const CLASSES_AND_DOUBLES: &str = r"
order _[4-8]X|_NX→before
order _[0-4]X|_[4-8]X→before
order _NX|_[2-9]X→same
matches _[0-4]X|45→yes
matches _[4-8]X|45→yes
matches _NX|45→yes
";
