//! Functions of a text, worked out by hand from the rules.

/// Texts that are filtered, written in one case, or asked whether they are empty.
pub(super) const TEXTS: &str = r"
${FILTER(0-9,+49 (30) 12)}→493012
${FILTER(0-9a-c,x1,b2,d3)}→1b23
${FILTER(0-9,,12,,3)}→123
${FILTER(0-9:,a1:2)}→1:2
${FILTER(-a,x-a)}→-a
${FILTER(a-,x-a)}→-a
${FILTER(z-a,abz)}.→.
${FILTER(0-9)}.→.
${FILTER(0-9,)}.→.
${FILTER(,abc)}.→.
${FILTER()}.→.
set X=a1b2 ; ${FILTER(0-9,${X})}→12
${FILTER(0-9,${DB(k)})}→ unknown DB(k)
${filter(0-9,1)}→ unknown filter(0-9,1)
# Only ASCII letters have two cases.
${TOUPPER(aZ9-,b)}→AZ9-,B
${TOLOWER(aZ9-,B)}→az9-,b
${TOUPPER(\xE4)}→ä
${TOLOWER(\xC4)}→Ä
${TOUPPER()}.→.
${TOLOWER()}.→.
${TOLOWER(${TOUPPER(a)}B)}→ab
${TOUPPER(abc):1}→BC
${toupper(a)}→ unknown toupper(a)
# Blanks are not empty, and the text has been expanded.
${ISNULL()}→1
${ISNULL( )}→0
${ISNULL(0)}→0
${ISNULL(,)}→0
${EXISTS()}→0
${EXISTS( )}→1
${EXISTS(0)}→1
${EXISTS(a,b)}→1
${ISNULL(${NOSUCH})}${EXISTS(${NOSUCH})}→10
set A=x ; ${ISNULL(${A})}${EXISTS(${A})}→01
${ISNULL(${DB(k)})}→1 unknown DB(k)
${EXISTS(${UNIQUEID})}→0 unknown UNIQUEID
global DB(k)= ; ${ISNULL(${DB(k)})}→1
${isnull()}→ unknown isnull()
";

/// The side that a condition takes.
pub(super) const SIDES: &str = r"
${IF(1?a:b)}→a
${IF(0?a:b)}→b
${IF(x?a:b)}→a
${IF(?a:b)}→b
${IF( 0 ?a:b)}→b
${IF(-0?a:b)}→b
${IF($[2 > 1]?yes:no)}→yes
# A side is trimmed, and a missing side is empty.
${IF(1? a b : c )}.→a b.
${IF(0? a b : c )}.→c.
${IF(1?a)}→a
${IF(0?a)}.→.
${IF(1?:b)}.→.
${IF(0?a:)}.→.
${IF(1?  :b)}.→.
${IF(1?)}.→.
${IF(1)}.→.
${IF()}.→.
# The separators: the first question mark, and the first colon outside parentheses.
${IF(1?(a:b):c)}→(a:b)
${IF(0?(a:b):c)}→c
${IF(0?a:b:c)}→b:c
${IF(1?a?b:c)}→a?b
${IF(1?a,b:c)}→a,b
${IF(1?abc:d):1}→bc
# Anything unknown in either side is unknown.
${IF(${DB(k)}?a:b)}→b unknown DB(k)
${IF(0?${DB(k)}:b)}→b unknown DB(k)
${if(1?a:b)}→ unknown if(1?a:b)
set X=a-b ; ${CUT(IF(0?c-d:e-f),-,2)}→f
";
