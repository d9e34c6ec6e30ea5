//! The faults of the manual's examples of lines.

/// A case is a line below `[main]`; then an arrow, and the number and the name of its fault.
pub(super) const FAULTS: &str = r##"
a = 1 ;-- x→1 BlockComment
[main→3 BadHeader
abc→4 NoEquals
#include "x"→5 Directive
[main](!)→6 Template
exten => _,1,NoOp()→10 EmptyName
exten => _[],1,NoOp()→11 EmptySet
exten => _[9-0],1,NoOp()→12 BadRange
exten => _[12,1,NoOp()→13 OpenSet
exten => _1.2,1,NoOp()→14 AfterWildcard
exten => a b,1,NoOp()→15 BadByte
exten => s,0,NoOp()→20 BadPriority
exten => s,n,NoOp()→21 NoPrevious
exten => s,1(),NoOp()→22 BadLabel
exten => s,1,NoOp(→23 BadApplication
switch => Loopback/x→24 LeftOut
same => 1,NoOp()→26 NoExten
exten => s,2147483648,NoOp()→27 PriorityLimit
exten => s,1→28 ShortLine
lswitch => Loopback/x→24 LeftOut
ignorepat => 9→24 LeftOut
exten => 100,hint,Line/1→24 LeftOut
exten => s,n+1,NoOp()→24 LeftOut
exten => s/5551234,1,NoOp()→24 LeftOut
exten => ${X},1,NoOp()→24 LeftOut
exten => _[{$],1,NoOp()→24 LeftOut
include => late,9:00-17:00,*,*,*→24 LeftOut
exten => s,1,Wait,5→24 LeftOut
"##;
