//! Which of several faults is reported, in one line and in several lines.

/// Lines with several faults.
pub(crate) const OF_A_LINE: &str = r"
# Too few commas come before the name, and the name before the priority.
[m]\nexten => _[/\n→fault 28 line 2
[m]\nexten => _[,hint\n→fault 28 line 2
[m]\nexten => a b,hint,A(\n→fault 15 line 2
[m]\nexten => _,0(,A(\n→fault 10 line 2
[m]\nexten => _[],n,a,b\n→fault 11 line 2
[m]\nexten => _[9-0],2147483648,A(\n→fault 12 line 2
[m]\nexten => _[,1(),A\n→fault 13 line 2
[m]\nexten => _..,x,A\n→fault 14 line 2
[m]\nexten => s/1,0,A\n→fault 24 CallerId line 2
[m]\nexten => ${X},0,A\n→fault 24 Variable line 2
[m]\nexten => _[{$],0,A\n→fault 24 Variable line 2
# In the priority, a form that is left out comes first.
[m]\nexten => s,hint(a),A\n→fault 24 Hint line 2
[m]\nexten => s,hint(,A\n→fault 24 Hint line 2
[m]\nexten => s,next(12),A\n→fault 24 PriorityWord line 2
[m]\nexten => s,s(),A\n→fault 24 PriorityWord line 2
[m]\nexten => s,same(a,A\n→fault 24 PriorityWord line 2
[m]\nexten => s,n+1(a),A\n→fault 24 PriorityWord line 2
[m]\nexten => s,n+1(a,A\n→fault 24 PriorityWord line 2
[m]\nexten => s,0+1(),A\n→fault 24 PriorityWord line 2
# Then comes a text that is not a priority.
[m]\nexten => s,0(),A\n→fault 20 line 2
[m]\nexten => s,x(,A\n→fault 20 line 2
[m]\nexten => s,(12),A\n→fault 20 line 2
[m]\nexten => s,N(),A\n→fault 20 line 2
# Then comes the label, before an `n` without an earlier line, and before the limit.
[m]\nexten => s,n(),A\n→fault 22 line 2
[m]\nexten => s,n(a)+1,A\n→fault 22 line 2
[m]\nexten => s,2147483648(),A\n→fault 22 line 2
[m]\nexten => s,2147483647,A\nexten => s,n(1),B\n→fault 22 line 3
# The priority comes before the application.
[m]\nexten => s,hint,A(\n→fault 24 Hint line 2
[m]\nexten => a-b,hint,A(\n→fault 24 Hint line 2
[m]\nexten => s,0,a,b\n→fault 20 line 2
[m]\nexten => s,1(),A(\n→fault 22 line 2
[m]\nexten => s,n,A(\n→fault 21 line 2
[m]\nexten => s,n,a,b\n→fault 21 line 2
[m]\nexten => s,2147483647,A\nexten => s,n(a),B(\n→fault 27 line 3
# In the application, a comma comes first.
[m]\nexten => s,1,A,(\n→fault 24 OldForm line 2
[m]\nexten => s,1,,\n→fault 24 OldForm line 2
[m]\nexten => s,1,A(,\n→fault 23 line 2
";

/// Texts with several faulty lines.
pub(crate) const OF_A_TEXT: &str = r"
# The first faulty line, whatever its fault.
[m]\nexten => s,n,A\nexten => s,0,B\n→fault 21 line 2
[m]\nexten => s,1,A\nsame => n,B\nexten => t,n,C\nexten => s,0,D\n→fault 21 line 4
[m]\nsame => n,A\nexten => _[,1,B\n→fault 26 line 2
[m]\nexten => _[,1,B\nsame => n,A\n→fault 13 line 2
[m]\ninclude => a,b\nexten => _,1,A\n→fault 24 IncludeTimes line 2
[m]\nexten => s,1(),A\nexten => s,1,A(${${${${${${${${${${${${${${${${${${${${${${${${${${${${${${${${${}}}}}}}}}}}}}}}}}}}}}}}}}}}}}}}}})\n→fault 22 line 2
[m]\nexten => s,1,A(${${${${${${${${${${${${${${${${${${${${${${${${${${${${${${${${${}}}}}}}}}}}}}}}}}}}}}}}}}}}}}}}}})\nexten => s,1(),A\n→fault 25 line 2
[globals]\nA=${${${${${${${${${${${${${${${${${${${${${${${${${${${${${${${${${}}}}}}}}}}}}}}}}}}}}}}}}}}}}}}}}}\n[m]\nexten => _,1,A\n→fault 25 line 2
[m]\nexten => _,1,A\n[globals]\nA=${${${${${${${${${${${${${${${${${${${${${${${${${${${${${${${${${}}}}}}}}}}}}}}}}}}}}}}}}}}}}}}}}}\n→fault 10 line 2
# Lines that are dropped or noted have no fault.
[m]\ninclude => x\nfoo=1\nexten => s,1,A\nexten => s,1,B\nexten => s/1,1,C\n→fault 24 CallerId line 6
# Faults of the text come first.
[m]\nexten => s,n,A\n[x\n→fault 3 line 3
[m]\nsame => n,A\nabc\n→fault 4 line 3
[m]\ninclude => a,b\n#x\n→fault 5 line 3
[m]\nexten => _,1,A(${X})\n[x](!)\n→fault 6 line 3
";
