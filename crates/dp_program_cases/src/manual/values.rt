//! The values of the manual's tables of texts.

/// A case is lines of `[globals]`, separated by `; `, a `¦` and a text; then an arrow, and its value.
pub(super) const VALUES: &str = r##"
¦plain {x} [y] $ $$ }→plain {x} [y] $ $$ }
¦${CONTEXT}-${EXTEN}-${PRIORITY}-${CHANNEL}-${CALLERID(num)}→main-100-1-Channel/1-5551234
X=abcdef¦${X→${X
b=1¦${a${b}→${a1
A=B; B=v¦${${A}}→v
A=$; B=${A}{N}; N=1¦${B}→${N}
EXTEN=x¦${EXTEN}${GLOBAL(EXTEN)}→100x
=v¦${}→
X=abcdef¦${LEN(${X})}→6
¦${len(x)}→
¦${LEN(a)b}→1
¦${F(}→
LEN(x)=seven¦${LEN(x)}→1
X=v¦${LOCAL(X)}→
¦${QUEUE_WAITING_COUNT(none)}→0
¦${IF(1?a:b)}→
X=abcdef¦${X:-2}→ef
X=abcdef¦${X:1:-1}→bcde
X=abcdef¦${X:-9:2}→ab
X=abcdef¦${X:2:0}→
X=abcdef¦${X:}→abcdef
X=abcdef¦${X:1:2:3}→
¦${LEN(abcdefghijkl):-1}→2
¦${EXTEN:1}→00
N=3¦$[${N} + ${LEN(${N})}]→4
¦$[2+3*4]→14
¦$[x | y]→x
¦$[0 | y]→y
¦$[0 || 00]→00
¦$[a & b]→a
¦$[a & 0]→0
¦$[a && b]→a
¦$[!0]→1
¦$[!a]→0
¦$[10 > 9]→1
¦$[10 > 9a]→0
¦$[a == a]→1
¦$["5" = 5]→0
¦$["" | x]→""
¦$[-7 / 2]→-3
¦$[-7 % 2]→-1
¦$[7 % -2]→1
¦$[1 / 0]→
¦$[x + 1]→
¦$[1.5 + 1]→
¦$[1 | 1 / 0]→
¦$[1 2]→
¦$[a:b]→
¦$[]→
N=1; N=${N}2¦${N}→12
"##;
