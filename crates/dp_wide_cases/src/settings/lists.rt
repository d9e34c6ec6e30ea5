//! Several names that are set at once.

/// Names and their values between commas.
pub(super) const ARRAYS: &str = r"
1,Set(ARRAY(A,B)=1,2)¦1¦A;B;ARRAY(A,B);=→1|2||main,s,2
1,Set(ARRAY(A)=1)¦1¦A→1
1,Set(_ARRAY(A,B)=1,2)¦1¦A;B→1|2
1,Set(array(A,B)=1,2)¦1¦A;array(A,B)→|1,2
# Fewer values than names, and more.
1,Set(C=9)\n2,Set(ARRAY(A,B,C)=1,2)¦2¦A;B;C→1|2|
1,Set(B=9)\n2,Set(ARRAY(A,B)=)¦2¦A;B→|
1,Set(ARRAY(A,B)=1,2,3)¦1¦A;B→1|2
1,Set(B=9)\n2,Set(ARRAY(A,B)=1,)¦2¦A;B→1|
# Blanks at the ends of names are left out, and values stay as they are.
1,Set(ARRAY( A , __B )= 1, 2 )¦1¦A;B→\x201|\x202\x20
# Empty names and malformed ones are skipped with their values.
1,Set(ARRAY(A,,B)=1,2,3)¦1¦A;B→1|3
1,Set(ARRAY()=1)¦1¦;=→|main,s,2
1,Set(ARRAY(A,_,B)=1,2,3)¦1¦A;_;B→1||3
# Commas inside parentheses do not separate.
1,Set(ARRAY(A,B)=(1,2),3)¦1¦A;B→(1,2)|3
1,Set(ARRAY(DB(a,b),B)=1,2)¦1¦@DB(a,b);B→1|2
# Each name is set by the same rule.
1,Set(ARRAY(DB(a/b),GLOBAL(g),CDR(c))=1,2,3)¦1¦@DB(a/b);@g;CDR(c);@CDR(c)→1|2|3|
1,Set(ARRAY(CALLERID(num),A)=7,8)\n2,Set(C=${CALLERID(num)})¦2¦C;A→7|8
1,Set(ARRAY(CALLERID(all),A)=Bob <7>,8)\n2,Set(C=${CALLERID(num)})¦2¦C;CALLERID(name);A→7|Bob|8
1,Set(DB(k)=1)\n2,Set(ARRAY(DB_DELETE(k),A)=7,8)¦2¦@DB(k);A→|8
1,Set(ARRAY(HASH(x,y),A)=7,8)¦1¦HASH(x,y);A→|8
1,Set(ARRAY(A,A)=1,2)¦1¦A→2
# One inside another is a plain cell.
1,Set(ARRAY(A,ARRAY(B,C),D)=1,2,3)¦1¦A;ARRAY(B,C);B;D→1|2||3
";

/// Settings between commas.
pub(super) const SEVERAL: &str = r"
1,MSet(A=1,B=2)¦1¦A;B;@A;=→1|2||main,s,2
1,mset(A=1)¦1¦A→1
1,MSet()¦1¦;=→|main,s,2
1,MSet(A=1,B,=3,C=4)¦1¦A;B;;C→1|||4
# Blanks at the ends of a part are left out, and of its name.
1,MSet( A =1 , B = 2 )¦1¦A;B→1|\x202
# In order, and the later value counts.
1,MSet(A=1,A=2)¦1¦A→2
1,Set(A=0)\n2,MSet(A=1,B=${A})¦2¦A;B→1|0
# Each does what `Set` does.
1,MSet(_A=1,__B=2,___C=3)¦1¦A;B;_C→1|2|3
1,MSet(DB(a/b)=1,GLOBAL(g)=2,CDR(c)=3)¦1¦@DB(a/b);@g;CDR(c);@CDR(c)→1|2|3|
1,MSet(CALLERID(all)=Bob <7>,A=8)\n2,Set(C=${CALLERID(num)})¦2¦C;CALLERID(name);A→7|Bob|8
1,MSet(DB(a,b)=1,A=2)¦1¦@DB(a,b);A→1|2
1,MSet(ARRAY(A,B)=1,2,C=3)¦1¦A;B;C→1||3
1,MSet(ARRAY(A,B)=(1,2),C=3)¦1¦A;B;C→(1,2)||3
1,Gosub(sub,s,1(x))\n[sub]\nexten => s,1,MSet(ARG1=1,V=2)\nexten => s,2,Return()¦2¦ARG1;V→1|2
1,Gosub(sub,s,1(x))\n[sub]\nexten => s,1,MSet(ARG1=1,V=2)\nexten => s,2,Return()¦3¦ARG1;V→|2
";
