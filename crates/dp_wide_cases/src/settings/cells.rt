//! Cells that are set, and functions that set something else.

/// A function of an argument is the cell with that name: for five functions a global, for the others the channel's own.
pub(super) const CELLS: &str = r"
1,Set(DB(a/b)=1)¦1¦DB(a/b);@DB(a/b)→1|1
1,Set(DEVICE_STATE(Custom:x)=INUSE)¦1¦@DEVICE_STATE(Custom:x)→INUSE
1,Set(HINT(100)=x)¦1¦@HINT(100)→x
1,Set(SHARED(x)=1)¦1¦@SHARED(x)→1
1,Set(ENV(x)=1)¦1¦@ENV(x)→1
1,Set(CDR(x)=1)¦1¦CDR(x);@CDR(x)→1|
1,Set(LEN(x)=9)¦1¦LEN(x);@LEN(x)→9|
1,Set((x)=1)¦1¦(x);@(x)→1|
# Names of functions are case sensitive, and blanks inside are kept.
1,Set(db(a)=1)¦1¦db(a);@db(a);DB(a)→1||
1,Set(DB (a)=1)¦1¦DB (a);@DB (a);DB(a)→1||
1,Set(DB( a )=1)¦1¦@DB( a );@DB(a)→1|
1,Set( DB(a) =1)¦1¦@DB(a)→1
1,Set(_DB(a)=1)¦1¦@DB(a);_DB(a)→1|
1,Set(__CDR(a)=1)¦1¦CDR(a);__CDR(a)→1|
1,Set(DB(_a)=1)¦1¦@DB(_a);@DB(a)→1|
# The argument ends at the last `)`, which must be the last byte.
1,Set(DB()=1)¦1¦@DB()→1
1,Set(DB(a(b)=1)¦1¦@DB(a(b)→1
1,Set(DB(a))=1)¦1¦@DB(a))→1
1,Set(DB(a=1)¦1¦DB(a;@DB(a;@DB(a);=→|||main,s,2
1,Set(DB(a)x=1)¦1¦DB(a)x;@DB(a)x;@DB(a)→||
1,Set(DB(=1)¦1¦@DB(;@DB()→|
# A cell that a local has is the local.
1,Gosub(sub,s,1)\n[sub]\nexten => s,1,Set(LOCAL(CDR(x))=1)\nexten => s,2,Set(CDR(x)=2)\nexten => s,3,Return()¦3¦CDR(x)→2
1,Gosub(sub,s,1)\n[sub]\nexten => s,1,Set(LOCAL(CDR(x))=1)\nexten => s,2,Set(CDR(x)=2)\nexten => s,3,Return()¦4¦CDR(x)→
";

/// Functions that are not cells.
pub(super) const FUNCTIONS: &str = r"
1,Set(GLOBAL(g)=1)¦1¦g;@g;GLOBAL(g)→1|1|
1,Set(GLOBAL(_g)=1)¦1¦@_g;@g→1|
1,Set(_GLOBAL(g)=1)¦1¦@g→1
1,Set(global(g)=1)¦1¦g;global(g);@global(g)→|1|
# A local is set if there is a frame.
1,Set(LOCAL(l)=1)¦1¦l;LOCAL(l)→|
1,Gosub(sub,s,1)\n[sub]\nexten => s,1,Set(LOCAL(l)=1)\nexten => s,2,Return()¦2¦l→1
1,Gosub(sub,s,1)\n[sub]\nexten => s,1,Set(LOCAL(l)=1)\nexten => s,2,Return()¦3¦l→
# These do more than write a cell, and have no effect here.
1,Set(HASH(a,b)=1)¦1¦HASH(a,b);@HASH(a,b);=→||main,s,2
1,Set(PUSH(a)=1)¦1¦PUSH(a)→
1,Set(UNSHIFT(a)=1)¦1¦UNSHIFT(a)→
1,Set(CHANNEL(hangup_handler_push)=h,s,1)¦1¦CHANNEL(hangup_handler_push)→
1,Set(CHANNEL(language)=en)¦1¦CHANNEL(language);@CHANNEL(language)→en|
1,Set(CHANNEL(Hangup_Handler_Push)=x)¦1¦CHANNEL(Hangup_Handler_Push)→x
1,Set(hash(a,b)=1)¦1¦hash(a,b)→1
";

/// The number and the name of the caller.
pub(super) const CALLERS: &str = r#"
# The number alone, by two names.
1,Set(CALLERID(num)=77)\n2,Set(C=${CALLERID(num)})¦2¦C;CALLERID(num)→77|
1,Set(CALLERID(number)=77)\n2,Set(C=${CALLERID(num)})¦2¦C;CALLERID(number)→77|
1,Set(CALLERID(num)= 7 7)\n2,Set(C=${CALLERID(num)})¦2¦C→\x207 7
1,Set(CALLERID(Num)=77)\n2,Set(C=${CALLERID(num)})¦2¦C;CALLERID(Num)→5551234|77
1,Set(callerid(num)=77)\n2,Set(C=${CALLERID(num)})¦2¦C;callerid(num)→5551234|77
# The name alone is a cell.
1,Set(CALLERID(name)=Bob)\n2,Set(C=${CALLERID(num)})¦2¦C;CALLERID(name);@CALLERID(name)→5551234|Bob|
# Both, with the name in quotes or bare.
1,Set(CALLERID(all)="Bob" <200>)\n2,Set(C=${CALLERID(num)})¦2¦C;CALLERID(name);CALLERID(all)→200|Bob|
1,Set(CALLERID(all)=Bob <200>)\n2,Set(C=${CALLERID(num)})¦2¦C;CALLERID(name)→200|Bob
1,Set(CALLERID(all)= Bob Smith<200>)\n2,Set(C=${CALLERID(num)})¦2¦C;CALLERID(name)→200|Bob Smith
1,Set(CALLERID(all)=" Bob " < 200 > x)\n2,Set(C=${CALLERID(num)})¦2¦C;CALLERID(name)→200|\x20Bob\x20
1,Set(CALLERID(all)="" <200>)\n2,Set(C=${CALLERID(num)})¦2¦C;CALLERID(name)→200|
1,Set(CALLERID(all)=<200>)\n2,Set(C=${CALLERID(num)})¦2¦C;CALLERID(name)→200|
1,Set(CALLERID(all)=Bob <>)\n2,Set(C=${CALLERID(num)})¦2¦C;CALLERID(name)→|Bob
# Quotes are left out if they are at both ends.
1,Set(CALLERID(all)="Bob <200>)\n2,Set(C=${CALLERID(num)})¦2¦C;CALLERID(name)→200|"Bob
1,Set(CALLERID(all)=Bob" <200>)\n2,Set(C=${CALLERID(num)})¦2¦C;CALLERID(name)→200|Bob"
1,Set(CALLERID(all)=" <200>)\n2,Set(C=${CALLERID(num)})¦2¦C;CALLERID(name)→200|"
1,Set(CALLERID(all)="a"b" <200>)\n2,Set(C=${CALLERID(num)})¦2¦C;CALLERID(name)→200|a"b
# The number goes from the first `<` to the last `>`.
1,Set(CALLERID(all)=Bob <2<3>4>5)\n2,Set(C=${CALLERID(num)})¦2¦C;CALLERID(name)→2<3>4|Bob
# Without a `<`, or without a `>` after it, everything is the number.
1,Set(CALLERID(all)=200)\n2,Set(C=${CALLERID(num)})¦2¦C;CALLERID(name)→200|
1,Set(CALLERID(name)=Al)\n2,Set(CALLERID(all)= 200)\n3,Set(C=${CALLERID(num)})¦3¦C;CALLERID(name)→200|
1,Set(CALLERID(all)=Bob <200)\n2,Set(C=${CALLERID(num)})¦2¦C;CALLERID(name)→Bob <200|
1,Set(CALLERID(all)=>2<3)\n2,Set(C=${CALLERID(num)})¦2¦C;CALLERID(name)→>2<3|
1,Set(CALLERID(name)=Al)\n2,Set(CALLERID(all)=)\n3,Set(C=${CALLERID(num)})¦3¦C;CALLERID(name)→|
"#;

/// Keys that are deleted.
pub(super) const DELETED: &str = r"
1,Set(DB(a/b)=1)\n2,DBdel(a/b)¦2¦DB(a/b);@DB(a/b);=→||main,s,3
1,Set(DB(a/b)=1)\n2,DBdel( a/b )¦2¦@DB(a/b)→
1,Set(DB(a/b)=1)\n2,dbDEL(a/b)¦2¦@DB(a/b)→
1,Set(DB(a/b)=1)\n2,DBdel(a)¦2¦@DB(a/b)→1
1,Set(DB(a,b)=1)\n2,DBdel(a,b)¦2¦@DB(a,b)→
1,Set(DB()=1)\n2,DBdel()¦2¦@DB()→
# With all keys below it: those after a `/`, and no others that begin with the same bytes.
1,Set(DB(a)=1)\n2,Set(DB(a/b)=2)\n3,Set(DB(a/b/c)=3)\n4,Set(DB(ab/c)=4)\n5,DBdeltree(a)¦5¦DB(a);@DB(a/b);DB(a/b/c);DB(ab/c);=→|||4|main,s,6
1,Set(DB(a)=1)\n2,Set(DB(a/b)=2)\n3,Set(DB(a/b/c)=3)\n4,Set(DB(a/bc)=4)\n5,dbDELtree( a/b )¦5¦DB(a);DB(a/b);@DB(a/b/c);@DB(a/bc)→1|||4
1,Set(DB(a/)=1)\n2,Set(DB(a)b)=2)\n3,DBdeltree(a)¦3¦DB(a/);DB(a)b)→|2
# A `/` with nothing after it is left out, unless it is not the first one.
1,Set(DB(a)=1)\n2,Set(DB(a/b)=2)\n3,DBdeltree(a/)¦3¦DB(a);DB(a/b)→|
1,Set(DB(a/b)=1)\n2,Set(DB(a/b/)=2)\n3,Set(DB(a/b//c)=3)\n4,Set(DB(a/b/c)=4)\n5,DBdeltree(a/b/)¦5¦DB(a/b);DB(a/b/);DB(a/b//c);DB(a/b/c)→1|||4
# Without a family all keys are deleted, and the cells of other functions stay.
1,Set(DB(a)=1)\n2,Set(DB(b/c)=2)\n3,Set(ENV(DB(a))=3)\n4,DBdeltree()¦4¦DB(a);DB(b/c);ENV(DB(a))→||3
1,Set(DB(a/b)=1)\n2,Set(DB(c)=2)\n3,DBdeltree(/a)¦3¦DB(a/b);DB(c)→|
# A key that is set afterwards has its value.
1,DBdeltree(a)\n2,Set(DB(a/b)=5)¦2¦@DB(a/b)→5
1,Set(GLOBAL(DB)=1)\n2,Set(GLOBAL(DBx)=2)\n3,DBdeltree(x)¦3¦DB;DBx→1|2
# By the function, whose argument is kept as it is, whatever the value.
1,Set(DB(k)=1)\n2,Set(DB_DELETE(k)=x)¦2¦@DB(k);DB_DELETE(k);@DB_DELETE(k)→||
1,Set(DB(k)=1)\n2,Set(DB_DELETE( k )=)¦2¦@DB(k)→1
1,Set(DB(k)=1)\n2,Set(db_delete(k)=x)¦2¦@DB(k);db_delete(k)→1|x
# A variable of the channel with the same name is another.
1,Gosub(sub,s,1)\n[sub]\nexten => s,1,Set(LOCAL(DB(k))=1)\nexten => s,2,DBdel(k)\nexten => s,3,Return()¦3¦DB(k);@DB(k)→1|
";
