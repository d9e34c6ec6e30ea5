//! Expressions, and texts whose brackets Asterisk counts, worked out by hand from the rules.

/// An expression is its value if Asterisk has the same one, `0` for a fault, or unknown.
pub(super) const EXPRESSIONS: &str = r"
$[1 + 2]→3
$[4 / 2]→2
set A=6 ; $[${A} / 2]→3
$[\x22a:b\x22 = \x22a:b\x22]→1
# An expression with a fault that is not empty is `0`, and an empty one is empty.
$[].→.
$[ ].→.
set A= ; $[${A}].→.
$[1 +]→0
$[1 / 0]$[2]→02
x$[a + 1]y→x0y
set A= ; $[${A} + 1]→0
set A=abc ; ${LEN($[${A} * 2])}→1
# An expression that Asterisk may read differently is unknown, and is printed as it is, with its groups expanded.
$[7 / 2]→3 unknown $[7 / 2]
set A=7 ; $[${A} / 2]→3 unknown $[7 / 2]
$[1.5 + 1]→ unknown $[1.5 + 1]
$[a : b]→ unknown $[a : b]
$[\x22x\x22 =~ \x22x\x22]→ unknown $[\x22x\x22 =~ \x22x\x22]
set A=b ; $[${A} ? 1 : 0]→ unknown $[b ? 1 : 0]
${LEN($[7 / 2])}→1 unknown $[7 / 2]
${IF($[7 / 2 = 3]?a:b)}→a unknown $[7 / 2 = 3]
# The first one in the order in which groups are expanded.
$[7 / 2]${UNIQUEID}→3 unknown $[7 / 2]
${UNIQUEID}$[7 / 2]→3 unknown UNIQUEID
$[${UNIQUEID}7 / 2]→3 unknown UNIQUEID
$[$[7 / 2] / 2]→1 unknown $[7 / 2]
";

/// A text in which Asterisk counts a bracket is unknown as a whole.
pub(super) const BRACKETS: &str = r"
# Outside of groups, and inside of groups of the other kind, brackets are plain in both.
set A=1 ; ${A}{x}→1{x}
{${A}}→{}
[${A}]→[]
${FILTER([0-9],a1b2)}→12
$[{1}]→{1}
# Inside a group of its kind a bracket counts, even below a group of the other kind.
set A{b=2 ; ${A{b}→2 unknown ${A{b}
set A=5 ; ${REGEX(\x22^[0-9]{3}$\x22 ${A})}→$\x22 5)} unknown ${REGEX(\x22^[0-9]{3}$\x22 ${A})}
$[\x22x\x22 : \x22[0-9]\x22]→\x22] unknown $[\x22x\x22 : \x22[0-9]\x22]
${A$[}]}→ unknown ${A$[}]}
# It comes before what is unknown in the groups.
${UNIQUEID}${A{b}→ unknown ${UNIQUEID}${A{b}
# Brackets in a value are not counted.
set A={ ; ${LEN(${A})}→1
set A=x{ ; $[\x22${A}\x22 = \x22x{\x22]→1
# An opening without an end is plain here, and an error in Asterisk.
${A{→${A{ unknown ${A{
${A→${A
";
