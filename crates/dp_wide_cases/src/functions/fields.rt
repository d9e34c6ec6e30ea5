//! Fields of the values of names, worked out by hand from the rules.

/// Fields that are chosen.
pub(super) const CUTS: &str = r"
set X=a-b-c ; ${CUT(X,-,2)}→b
set X=a-b-c ; ${CUT(X,-,2-)}→b-c
set X=a-b-c ; ${CUT(X,-,1&3)}→a-c
set X=a-b-c ; ${CUT(X,-,2):0:1}.→b.
global X=a-b-c ; ${CUT(X,-,3)}→c
set X=${A}-b ; ${CUT(X,-,1)}→${A}
# The byte that separates fields: the first byte as it is, or a `-` if there is none.
set X=a-b-c ; ${CUT(X,,2)}→b
set X=a.b.c ; ${CUT(X,.-,2)}→b
set X=a b c ; ${CUT(X, ,2)}→b
set X=a b c ; ${CUT(X, -,2)}→b
set X=a,b,c ; ${CUT(X,\\,,2)}→b
set X=a,b,c ; ${CUT(X,\\,:,2)}→b
set X=a\b ; ${CUT(X,\\,2)}.→.
set X=a,b,c ; ${CUT(X,,,2)}.→.
set X=a:b ; ${CUT(X,:,2)}→b
set X=a)b ; ${CUT(X,),2)}→b
# A comma after a parenthesis that does not close separates nothing.
set X=a(b ; ${CUT(X,(,2)}.→.
# Too few arguments choose nothing, and neither do too many.
set X=a-b-c ; ${CUT(X,-)}.→.
set X=a-b-c ; ${CUT(X,-,)}.→.
set X=a-b-c ; ${CUT(X)}.→.
set X=a,b ; ${CUT(X,\\,)}.→.
set X=a-b-c ; ${CUT(X,-,1,2)}.→.
set X=a-b-c ; ${CUT(X,-, 1)}.→.
${CUT()}.→.
${CUT(,-,1)}.→.
${CUT}.→.
# Values that are empty or not set.
set X= ; ${CUT(X,-,1)}.→.
${CUT(X,-,1)}.→.
set X=a-b ; ${CUT(X ,-,1)}.→.
# A part of a value.
${CUT(EXTEN,-,1)}→9
${CUT(EXTEN:2,-,1)}→100
${CUT(EXTEN:2:2,-,1)}→10
${CUT(EXTEN:-1,-,1)}→7
${CUT(EXTEN:x,-,1)}.→.
set X=a-b ; ${CUT(X:,-,2)}→b
# The value of a function.
set X=ab.cd-ef ; ${CUT(CUT(X,-,1),.,2)}→cd
set X=ab.cd-ef ; ${CUT(CUT(X,-,1):1,.,1)}→b
set X=a-b.c-d ; ${CUT(CUT(CUT(X,.,1-),.,2),-,2)}→d
set X=a-b-c ; ${CUT(FIELDQTY(X,-),-,1)}→3
${CUT(TOUPPER(a-b),-,2)}→B
${CUT(LEN(abc),-,1)}→3
${CUT(CALLERID(num),1,1)}→555
${CUT(QUEUE_EXISTS(sales),-,1)}→1
global G=a-b ; ${CUT(GLOBAL(G),-,2)}→b
# The argument ends at the last parenthesis, and a call in it without an end is empty.
set X=a-b ; ${CUT(CUT(X,-,1}.→.
set X=a-b ; ${CUT(CUT(X,-,1),-,1}.→.
${CUT(DB(k)}.→.
# A comma in parentheses belongs to the argument of that function.
${CUT(FILTER(a-c,xaybz),-,1)}→ab
${CUT(TOUPPER(a,b),\\,,2)}→B
# It is known if the group of the name is.
${CUT(DB(k),-,1)}→ unknown CUT(DB(k),-,1)
global DB(k)=a-b ; ${CUT(DB(k),-,2)}→b
global DB(k)= ; ${CUT(DB(k),-,2)}.→.
set DB(k)=a-b ; ${CUT(DB(k),-,2)}→ unknown CUT(DB(k),-,2)
${CUT(DB(k):1,-,1)}→ unknown CUT(DB(k):1,-,1)
${CUT(CUT(DB(k),-,1),.,1)}→ unknown CUT(CUT(DB(k),-,1),.,1)
global DB(k)=a.b-c ; ${CUT(CUT(DB(k),-,1),.,2)}→b
${CUT(INC(X),-,1)}→ unknown CUT(INC(X),-,1)
${CUT(UNIQUEID,.,1)}→ unknown CUT(UNIQUEID,.,1)
set UNIQUEID=1.2 ; ${CUT(UNIQUEID,.,1)}→1
${CUT(VMSTATUS:1,-,1)}→ unknown CUT(VMSTATUS:1,-,1)
${CUT(${DB(k)},-,1)}→ unknown DB(k)
set K=k ; ${CUT(DB(${K}),-,1)}→ unknown CUT(DB(k),-,1)
# An unknown name is unknown even if `CUT` chooses nothing of it.
${CUT(DB(k))}→ unknown CUT(DB(k))
# A name in another case is that of a cell.
set X=a-b ; ${cut(X,-,1)}→ unknown cut(X,-,1)
set X=a-b ; ${Cut(X,-,1)}→ unknown Cut(X,-,1)
set X=a-b ; ${CUT(cut(X,-,1),-,1)}→ unknown CUT(cut(X,-,1),-,1)
";

/// How many fields there are.
pub(super) const COUNTS: &str = r"
set X=a-b-c ; ${FIELDQTY(X,-)}→3
set X=a-b-c ; ${FIELDQTY(X,.)}→1
set X=a ; ${FIELDQTY(X,-)}→1
set X=- ; ${FIELDQTY(X,-)}→2
# An empty value has none.
set X= ; ${FIELDQTY(X,-)}→0
${FIELDQTY(X,-)}→0
${FIELDQTY(,-)}→0
${FIELDQTY()}→0
# The byte that separates fields: the first byte of everything after the name.
set X=a-b-c ; ${FIELDQTY(X)}→3
set X=a-b-c ; ${FIELDQTY(X,)}→3
set X=a,b,c ; ${FIELDQTY(X,\\,)}→3
set X=a,b,c ; ${FIELDQTY(X,,)}→3
set X=a-b-c ; ${FIELDQTY(X,-,.)}→3
set X=a b ; ${FIELDQTY(X, -)}→2
# Parts, functions and what is known, as for `CUT`.
${FIELDQTY(EXTEN,-)}→3
${FIELDQTY(EXTEN:2,-)}→2
${FIELDQTY(EXTEN:2:2,-)}→1
set X=a.b-c ; ${FIELDQTY(CUT(X,-,1),.)}→2
set X=a-b-c ; ${FIELDQTY(FIELDQTY(X,-),-)}→1
${FIELDQTY(DB(k),-)}→0 unknown FIELDQTY(DB(k),-)
global DB(k)=a-b ; ${FIELDQTY(DB(k),-)}→2
global DB(k)= ; ${FIELDQTY(DB(k),-)}→0
${FIELDQTY(UNIQUEID,.)}→0 unknown FIELDQTY(UNIQUEID,.)
${FieldQty(X,-)}→ unknown FieldQty(X,-)
";
