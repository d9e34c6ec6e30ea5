//! Functions and their arguments.

/// Functions, with the text between their parentheses.
pub(super) const FUNCTIONS: &str = r"
${LEN()}→0
${LEN(abc)}→3
${LEN( a )}→3
${LEN(a,b)}→3
${LEN(${CHANNEL})}→9
${CALLERID(num)}→5551234
${CALLERID(num):-4}→1234
${CALLERID(name)}→
${CALLERID()}→
${QUEUE_WAITING_COUNT(sales)}→3
${QUEUE_WAITING_COUNT(Sales)}→0
${QUEUE_WAITING_COUNT()}→0
# Names are case sensitive, and keep their blanks.
${len(x)}→
${ LEN(x)}→
${LEN (x)}→
${CALLERID( num)}→
${CALLERID(NUM)}→
# Others are empty.
${F(x)}→
${(x)}→
${(x):1}→
# Without a `)` after the first `(` the value is empty, whatever comes after the cut.
${F(}→
${LEN(abc}→
${LEN(abc:1}→
${)LEN(abc}→
${)LEN(abc)}→
# The argument ends at the last `)`, and what is between that and the cut has no effect.
${LEN(a)b}→1
${LEN(a)b:0}→1
${LEN(a)b:1}→
${LEN(a))}→2
${LEN((a)(b))}→6
# A `:` inside parentheses cuts nothing.
${LEN(a:b)}→3
${LEN(a:b):0:1}→3
${LEN((a):b)}→5
# A faulty cut gives the empty text for a function too.
${LEN(ab):x}→
${LEN(ab):1:2:3}→
# Globals and locals.
global G=g ; ${GLOBAL(G)}→g
global G=g ; set G=v ; ${G}${GLOBAL(G)}→vg
global G=abc ; ${GLOBAL(G):1}→bc
${GLOBAL(G)}→
push A=1 ; ${LOCAL(A)}→1
push A=1 ; push B=2 ; ${LOCAL(A)}${LOCAL(B)}→2
set A=1 ; ${LOCAL(A)}→
set A=1 ; push B=2 ; ${LOCAL(A)}→
# A global with the name of a function is seen only by its whole name.
global LEN(x)=seven ; ${LEN(x)}→1
global LEN(x)=seven ; ${GLOBAL(LEN(x))}→seven
# A value brings its own function.
set A=LEN(ab) ; ${${A}}→2
set A=LEN ; ${${A}(abc)}→3
# Without a channel there is no caller.
gone ; ${CALLERID(num)}→
gone ; ${LEN(ab)}→2
gone ; ${LOCAL(A)}→
gone ; ${QUEUE_WAITING_COUNT(sales)}→3
";
