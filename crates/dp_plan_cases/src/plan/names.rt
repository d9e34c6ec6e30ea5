//! Names of extensions in a dialplan: how they are spelled when they are loaded, and which are refused.

/// Plain names.
pub(crate) const PLAIN: &str = r#"
# Dashes do not count.
[m]\nexten => 1-2-3,1,A\n→[m]<123,1,A()>
[m]\nexten => --s--,1,A\n→[m]<s,1,A()>
[m]\nexten => -a_b,1,A\n→[m]<a_b,1,A()>
[m]\nexten => 1.-2,1,A\n→[m]<1.2,1,A()>
[m]\nexten => [9-0],1,A\n→[m]<[90],1,A()>
[m]\nexten => 5551234,1,A\nexten => 555-1234,1,B\n→[m]<5551234,1,A()> note 3 DoublePriority
[m]\nexten => -1,1,A\nexten => 1-,1,B\nexten => 1--,2,C\n→[m]<1,1,A()><1,2,C()> note 3 DoublePriority
# Bytes that have a meaning in patterns stand for themselves.
[m]\nexten => 1.,1,A\nexten => 1!,1,B\n→[m]<1.,1,A()><1!,1,B()>
[m]\nexten => .,1,A\nexten => !,1,B\n→[m]<.,1,A()><!,1,B()>
[m]\nexten => .2,1,A\nexten => !.,1,B\n→[m]<.2,1,A()><!.,1,B()>
[m]\nexten => [12],1,A\nexten => [,1,B\nexten => ],1,C\n→[m]<[12],1,A()><[,1,B()><],1,C()>
[m]\nexten => X,1,A\nexten => x,1,B\nexten => N,1,C\n→[m]<X,1,A()><x,1,B()><N,1,C()>
[m]\nexten => [],1,A\nexten => [1,1,B\n→[m]<[],1,A()><[1,1,B()>
# Other bytes.
[m]\nexten => a=b,1,A\nexten => >x,1,B\n→[m]<a=b,1,A()><>x,1,B()>
[m]\nexten => a(b),1,A\nexten => "s",1,B\n→[m]<a(b),1,A()><"s",1,B()>
[m]\nexten => ~,1,A\nexten => \\;,1,B\n→[m]<~,1,A()><;,1,B()>
[m]\nexten => \xC3\xA9-\xC3\xA8,1,A\n→[m]<éè,1,A()>
[m]\nexten =>\t s \t,1,A\n→[m]<s,1,A()>
# A `$` without a `{` directly after it is not a variable.
[m]\nexten => $,1,A\nexten => {$,1,B\nexten => $},1,C\n→[m]<$,1,A()><{$,1,B()><$},1,C()>
[m]\nexten => $[x],1,A\nexten => $[{],1,B\n→[m]<$[x],1,A()><$[{],1,B()>
# A plain name and a pattern are never the same name.
[m]\nexten => X,1,A\nexten => _X,1,B\n→[m]<X,1,A()><_X,1,B()>
[m]\nexten => a,1,A\nexten => _a,1,B\n→[m]<a,1,A()><_a,1,B()>
"#;

/// Patterns, each with its one spelling.
pub(crate) const PATTERNS: &str = r"
# Letters that stand for digits.
[m]\nexten => _nXx,1,A\n→[m]<_NXX,1,A()>
[m]\nexten => _zZ,1,A\n→[m]<_ZZ,1,A()>
[m]\nexten => _[2-9],1,A\n→[m]<_N,1,A()>
[m]\nexten => _[1-9],1,A\n→[m]<_Z,1,A()>
[m]\nexten => _[0-9],1,A\n→[m]<_X,1,A()>
[m]\nexten => _[9876543210],1,A\n→[m]<_X,1,A()>
[m]\nexten => _[24-9356],1,A\n→[m]<_N,1,A()>
# Sets list each member once, in byte order.
[m]\nexten => _[a-c1],1,A\n→[m]<_[1abc],1,A()>
[m]\nexten => _[c0-2A-Ba0],1,A\n→[m]<_[012ABac],1,A()>
[m]\nexten => _[1-31-2],1,A\n→[m]<_[123],1,A()>
[m]\nexten => _[3-9],1,A\n→[m]<_[3456789],1,A()>
[m]\nexten => _[*#],1,A\n→[m]<_[#*],1,A()>
[m]\nexten => _[a\\;c],1,A\n→[m]<_[;ac],1,A()>
[m]\nexten => _[A-Z],1,A\n→[m]<_[ABCDEFGHIJKLMNOPQRSTUVWXYZ],1,A()>
# Sets of one member.
[m]\nexten => _[5],1,A\n→[m]<_5,1,A()>
[m]\nexten => _[77]8,1,A\n→[m]<_78,1,A()>
[m]\nexten => _[a-a],1,A\n→[m]<_a,1,A()>
[m]\nexten => _[_],1,A\n→[m]<__,1,A()>
[m]\nexten => _1[.],1,A\n→[m]<_1[.],1,A()>
[m]\nexten => _[!]1,1,A\n→[m]<_[!]1,1,A()>
[m]\nexten => _[[],1,A\n→[m]<_[[],1,A()>
[m]\nexten => _[X][n],1,A\n→[m]<_[X][n],1,A()>
# Bytes that stand for themselves.
[m]\nexten => _],1,A\n→[m]<_],1,A()>
[m]\nexten => __1,1,A\n→[m]<__1,1,A()>
[m]\nexten => _*98#,1,A\n→[m]<_*98#,1,A()>
[m]\nexten => _+[1-3]a.,1,A\n→[m]<_+[123]a.,1,A()>
[m]\nexten => _1(2),1,A\n→[m]<_1(2),1,A()>
[m]\nexten => _\\;=,1,A\n→[m]<_;=,1,A()>
[m]\nexten => _\xC3\xA9X,1,A\n→[m]<_éX,1,A()>
[m]\nexten => _$[1],1,A\nexten => _$[12],1,B\n→[m]<_$1,1,A()><_$[12],1,B()>
[m]\nexten => _[a{$],1,A\nexten => _[{]$,1,B\n→[m]<_[$a{],1,A()><_{$,1,B()>
# Wildcards.
[m]\nexten => _.,1,A\nexten => _!,1,B\n→[m]<_.,1,A()><_!,1,B()>
[m]\nexten => _x.,1,A\nexten => _9!,1,B\n→[m]<_X.,1,A()><_9!,1,B()>
# Dashes outside sets.
[m]\nexten => _NXX-XXXX,1,A\n→[m]<_NXXXXXX,1,A()>
[m]\nexten => _-1,1,A\n→[m]<_1,1,A()>
[m]\nexten => -_1,1,A\n→[m]<_1,1,A()>
[m]\nexten => --_-1-2.--,1,A\n→[m]<_12.,1,A()>
# One name, however it is written.
[m]\nexten => _-1,1,A\nexten => -_1,1,B\nexten => _[1],1,C\n→[m]<_1,1,A()> note 3 DoublePriority note 4 DoublePriority
[m]\nexten => _N,1,A\nexten => _[2-9],1,B\nexten => _n,2,C\n→[m]<_N,1,A()><_N,2,C()> note 3 DoublePriority
[m]\nexten => _[ab].,1,A\nexten => _[ba].,1,B\n→[m]<_[ab].,1,A()> note 3 DoublePriority
[m]\nexten => _1.,1,A\nexten => _1!,1,B\nexten => _1,1,C\n→[m]<_1.,1,A()><_1!,1,B()><_1,1,C()>
[m]\nexten => _[X],1,A\nexten => _X,1,B\nexten => _[x],1,C\n→[m]<_[X],1,A()><_X,1,B()><_[x],1,C()>
";

/// Texts that are not names.
pub(crate) const NO_NAMES: &str = r"
# Nothing is left of the name.
[m]\nexten => - ,1,A\n→fault 10 line 2
[m]\nexten => ---,1,A\n→fault 10 line 2
[m]\nexten => _,1,A\n→fault 10 line 2
[m]\nexten => _-,1,A\n→fault 10 line 2
[m]\nexten => -_,1,A\n→fault 10 line 2
[m]\nexten => -_--,1,A\n→fault 10 line 2
# Empty sets.
[m]\nexten => _[],1,A\n→fault 11 line 2
[m]\nexten => _X[]-,1,A\n→fault 11 line 2
# Ranges, and dashes in sets.
[m]\nexten => _[9-0],1,A\n→fault 12 line 2
[m]\nexten => _[a-C],1,A\n→fault 12 line 2
[m]\nexten => _[0-a],1,A\n→fault 12 line 2
[m]\nexten => _[#-*],1,A\n→fault 12 line 2
[m]\nexten => _[-],1,A\n→fault 12 line 2
[m]\nexten => _[1-],1,A\n→fault 12 line 2
[m]\nexten => _[-1],1,A\n→fault 12 line 2
[m]\nexten => _[1-2-3],1,A\n→fault 12 line 2
[m]\nexten => _[3-\\],1,A\n→fault 12 line 2
[m]\nexten => _[$-{],1,A\n→fault 12 line 2
# Open sets are checked before their members. A comma ends the name.
[m]\nexten => _[,1,A\n→fault 13 line 2
[m]\nexten => _1[2,1,A\n→fault 13 line 2
[m]\nexten => _[9-0,1,A\n→fault 13 line 2
[m]\nexten => _[ 1,1,A\n→fault 13 line 2
[m]\nexten => _[1,2],1,A\n→fault 13 line 2
# Bytes after a wildcard.
[m]\nexten => _1.2,1,A\n→fault 14 line 2
[m]\nexten => _.X,1,A\n→fault 14 line 2
[m]\nexten => _!.,1,A\n→fault 14 line 2
[m]\nexten => _1.-2,1,A\n→fault 14 line 2
[m]\nexten => _1.[,1,A\n→fault 14 line 2
[m]\nexten => _1![],1,A\n→fault 14 line 2
[m]\nexten => _1. 2,1,A\n→fault 14 line 2
# Bytes that a name may not have.
[m]\nexten => a b,1,A\n→fault 15 line 2
[m]\nexten => a\tb,1,A\n→fault 15 line 2
[m]\nexten => 1\x7F,1,A\n→fault 15 line 2
[m]\nexten => a\\b,1,A\n→fault 15 line 2
[m]\nexten => a\\\\;b,1,A\n→fault 15 line 2
[m]\nexten => - -,1,A\n→fault 15 line 2
[m]\nexten => _1 2,1,A\n→fault 15 line 2
[m]\nexten => _[1 ],1,A\n→fault 15 line 2
[m]\nexten => _[\\-],1,A\n→fault 15 line 2
[m]\nexten => _[ -],1,A\n→fault 15 line 2
# The first fault from the left is reported.
[m]\nexten => _[][9-0],1,A\n→fault 11 line 2
[m]\nexten => _[9-0][],1,A\n→fault 12 line 2
[m]\nexten => _[9-0 ],1,A\n→fault 12 line 2
[m]\nexten => _[ 9-0],1,A\n→fault 15 line 2
[m]\nexten => _X[12][3,1,A\n→fault 13 line 2
[m]\nexten => _[]1.2,1,A\n→fault 11 line 2
[m]\nexten => _ .2,1,A\n→fault 15 line 2
[m]\nexten => _1.2 [,1,A\n→fault 14 line 2
";

/// Names with forms that are left out.
pub(crate) const LEFT_OUT: &str = r"
# A variable anywhere in the name.
[m]\nexten => a${,1,A\n→fault 24 Variable line 2
[m]\nexten => _X${Y},1,A\n→fault 24 Variable line 2
[m]\nexten => _[${],1,A\n→fault 24 Variable line 2
[m]\nexten => _[${,1,A\n→fault 24 Variable line 2
[m]\nexten => _[]${,1,A\n→fault 24 Variable line 2
[m]\nexten => a ${b},1,A\n→fault 24 Variable line 2
# The caller's number.
[m]\nexten => s/,1,A\n→fault 24 CallerId line 2
[m]\nexten => _X./555,1,A\n→fault 24 CallerId line 2
[m]\nexten => _[/],1,A\n→fault 24 CallerId line 2
[m]\nexten => _[/,1,A\n→fault 24 CallerId line 2
[m]\nexten => a b/,1,A\n→fault 24 CallerId line 2
[m]\nexten => _1.2/3,1,A\n→fault 24 CallerId line 2
[m]\nexten => -/-,1,A\n→fault 24 CallerId line 2
# A variable is checked first, wherever the `/` is.
[m]\nexten => ${X}/1,1,A\n→fault 24 Variable line 2
[m]\nexten => 1/${X},1,A\n→fault 24 Variable line 2
# A variable in the one spelling of a name.
[m]\nexten => $-{x,1,A\n→fault 24 Variable line 2
[m]\nexten => -$--{-,1,A\n→fault 24 Variable line 2
[m]\nexten => _$-{,1,A\n→fault 24 Variable line 2
[m]\nexten => _[{$],1,A\n→fault 24 Variable line 2
[m]\nexten => _[{#$],1,A\n→fault 24 Variable line 2
[m]\nexten => _$[{],1,A\n→fault 24 Variable line 2
[m]\nexten => _[$]{,1,A\n→fault 24 Variable line 2
[m]\nexten => _X[$]-[{].,1,A\n→fault 24 Variable line 2
# This is checked last in the name.
[m]\nexten => $-{/1,1,A\n→fault 24 CallerId line 2
[m]\nexten => $-{ x,1,A\n→fault 15 line 2
[m]\nexten => _[{$][],1,A\n→fault 11 line 2
[m]\nexten => _[{$][9-0],1,A\n→fault 12 line 2
[m]\nexten => _[{$,1,A\n→fault 13 line 2
[m]\nexten => _[{$]1.2,1,A\n→fault 14 line 2
[m]\nexten => _$.{,1,A\n→fault 14 line 2
# But it is checked before the priority.
[m]\nexten => $-{x,hint,A(\n→fault 24 Variable line 2
[m]\nexten => s/1,hint,A(\n→fault 24 CallerId line 2
[m]\nexten => ${x},hint,A(\n→fault 24 Variable line 2
";
