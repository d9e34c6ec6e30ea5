//! Parts of values.

/// Parts of values, by an offset and a length.
pub(super) const PARTS: &str = r"
set X=abcdef ; ${X:-2}→ef
set X=abcdef ; ${X:1:-1}→bcde
set X=abcdef ; ${X:-9:2}→ab
set X=abcdef ; ${X:2:0}→
set X=abcdef ; ${LEN(${X})}→6
set X=abcdef ; ${LEN(abcdefghijkl):-1}→2
set X=abcdef ; ${X→${X
# An empty offset is 0, and an empty length means no limit.
set X=abcdef ; ${X:}→abcdef
set X=abcdef ; ${X::}→abcdef
set X=abcdef ; ${X::2}→ab
set X=abcdef ; ${X:2:}→cdef
# Offsets and lengths past the ends.
set X=abcdef ; ${X:6}→
set X=abcdef ; ${X:7}→
set X=abcdef ; ${X:0:99}→abcdef
set X=abcdef ; ${X:-7}→abcdef
set X=abcdef ; ${X:1:-9}→
set X=abcdef ; ${X:-2:-1}→e
set X=abcdef ; ${X:-2:-2}→
# Minus nothing is nothing.
set X=abcdef ; ${X:-0}→abcdef
set X=abcdef ; ${X:1:-0}→
set X=abcdef ; ${X:-000:3}→abc
# Anything else gives the empty text.
set X=abcdef ; ${X:1:2:3}→
set X=abcdef ; ${X:1:2:}→
set X=abcdef ; ${X: 1}→
set X=abcdef ; ${X:1 }→
set X=abcdef ; ${X:+1}→
set X=abcdef ; ${X:-}→
set X=abcdef ; ${X:--1}→
set X=abcdef ; ${X:a}→
set X=abcdef ; ${X:1:a}→
set X=abcdef ; ${X:1:-}→
# Numbers of any length are read exactly.
set X=abcdef ; ${X:9999999999999999999999999999999999999999}→
set X=abcdef ; ${X:-9999999999999999999999999999999999999999}→abcdef
set X=abcdef ; ${X:1:9999999999999999999999999999999999999999}→bcdef
set X=abcdef ; ${X:1:-9999999999999999999999999999999999999999}→
set X=abcdef ; ${X:0000000000000000000000000000000000000002}→cdef
set X=abcdef ; ${X:18446744073709551617}→
set X=abcdef ; ${X:-18446744073709551617:1}→a
set X=abcdef ; ${X:1:18446744073709551615}→bcdef
# A missing value has no parts.
${NONE:1}→
${:1}→
# Parts of what a channel gives.
${EXTEN:1}→00
${PRIORITY:0:1}→2
${CHANNEL:8}→7
${CHANNEL:0:7}→Channel
# A value brings its own cut.
set A=X:2 ; set X=abcdef ; ${${A}}→cdef
set A=2 ; set X=abcdef ; ${X:${A}:${A}}→cd
";
