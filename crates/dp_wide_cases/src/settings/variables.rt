//! Variables that are set.

/// Names with their values.
pub(super) const VARIABLES: &str = r"
# The text before the first `=` is the name, and everything after it is the value.
1,Set(A=1)¦1¦A;@A;=→1||main,s,2
1,Set(A=b=c)¦1¦A→b=c
1,Set(A=)¦1¦A→
1,Set(A=1)\n2,Set(A=)¦2¦A→
1,Set(A= 1,2)¦1¦A→\x201,2
1,set(A=1)¦1¦A→1
# Without a `=`, or without a name, nothing is set.
1,Set(A)¦1¦A;=→|main,s,2
1,Set()¦1¦A;;=→||main,s,2
1,Set(=1)¦1¦;=→|main,s,2
1,Set(  =1)¦1¦;  ;=→||main,s,2
# Blanks at the ends of a name are left out, those inside are not.
1,Set( A =1)¦1¦A→1
1,Set(a b=1)¦1¦a b;a;b→1||
1,Set(a=1)¦1¦A→
# Two marks of inheritance at most are left out.
1,Set(_X=1)¦1¦X;_X→1|
1,Set(__X=1)¦1¦X;_X;__X→1||
1,Set(___X=1)¦1¦_X;X;___X→1||
1,Set( __X =1)¦1¦X→1
1,Set(__ X=1)¦1¦ X;X→1|
1,Set(X_=1)¦1¦X_;X→1|
1,Set(_X=1)\n2,Set(__X=2)¦2¦X→2
# A name that consists of marks.
1,Set(_=1)¦1¦;_;=→||main,s,2
1,Set(__=1)¦1¦;_;__→||
1,Set(___=1)¦1¦;_;___→|1|
# A value is expanded before it is set, and is not read again.
1,Set(A=${EXTEN})¦1¦A→s
1,Set(A=1)\n2,Set(${A}B=${A}2)¦2¦1B→12
";
