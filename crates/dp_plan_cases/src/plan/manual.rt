//! The examples of the manual, and what the manual says that they load as.

/// Dialplans, names, patterns, priorities, labels and includes.
pub(crate) const EXAMPLES: &str = r"
# Dialplans.
[globals]\nGREETING = hello\n\n[main]\nexten => 100,1,NoOp(first)\nexten => 100,2,Goto(200,1)     ; to 200, priority 1, of this context\nexten => 200,1,Hangup()\n→{GREETING=hello}[main]<100,1,NoOp(first)><100,2,Goto(200,1)><200,1,Hangup()>
# Names.
[names]\nexten => 555-1234,1,NoOp()     ; the name 5551234\nexten => 5551234,1,Hangup()    ; the same one: dropped\nexten => 1.,1,NoOp()           ; plain, and no pattern\nexten => s,1,NoOp()\nexten => S,1,Hangup()          ; another name\n→[names]<5551234,1,NoOp()><1.,1,NoOp()><s,1,NoOp()><S,1,Hangup()> note 3 DoublePriority
# Patterns.
[main]\nexten => _NX,1,NoOp()\nexten => _[4-8]X,1,NoOp()\nexten => _[0-4]X,1,NoOp()\nexten => _[2-9]X,1,NoOp()      ; the name _NX: dropped\n→[main]<_NX,1,NoOp()><_[45678]X,1,NoOp()><_[01234]X,1,NoOp()> note 5 DoublePriority
# Priorities.
[main]\nexten => 100,1,Answer()\n same => n,NoOp(two)\nexten => 200,5,NoOp(five)\n same => n,Hangup()\nexten => 100,1,NoOp(again)     ; dropped\n same => n,NoOp(again)         ; one more than the line before: 2, dropped too\n same => n,Hangup()            ; 3\n→[main]<100,1,Answer()><100,2,NoOp(two)><200,5,NoOp(five)><200,6,Hangup()><100,3,Hangup()> note 6 DoublePriority note 7 DoublePriority
# Labels.
[main]\nexten => s,1(top),Answer()\n same => n(ask),NoOp(one)\n same => n(top),NoOp(two)      ; a label that s has: dropped\n same => n(end),Hangup()       ; 4\nexten => t,1( top ),Hangup()   ; another extension\n→[main]<s,1(top),Answer()><s,2(ask),NoOp(one)><s,4(end),Hangup()><t,1(top),Hangup()> note 4 DoubleLabel
# Includes.
[main]\nexten => _1XX,1,NoOp(main)\ninclude => late\ninclude => night               ; there is none\n\n[late]\nexten => 123,1,NoOp(late)\nexten => 200,1,NoOp(late)\ninclude => main\n→[main]<_1XX,1,NoOp(main)>{+late}{+night}[late]<123,1,NoOp(late)><200,1,NoOp(late)>{+main} note 4 UnknownContext
";
