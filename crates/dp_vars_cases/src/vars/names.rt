//! Names and the order in which they are searched.

/// Names, and where they are looked for.
pub(super) const NAMES: &str = r"
${CONTEXT},${EXTEN},${PRIORITY},${CHANNEL}→main,100,2,Channel/7
gone ; ${CONTEXT}${EXTEN}${PRIORITY}${CHANNEL}→
# Names are case sensitive, and keep their blanks.
set a=1 ; ${A}→
set a=1 ; ${ a}→
${exten}→
# Locals from the innermost frame outwards, then the channel's variables, then the globals.
global A=g ; ${A}→g
global A=g ; set A=v ; ${A}→v
global A=g ; set A=v ; push A=l ; ${A}→l
global A=g ; set A=v ; push A=l ; push B=m ; ${A}→l
global A=g ; set A=v ; push A=l ; push A=m ; ${A}→m
global A=g ; set A=v ; push A=l ; pop ; ${A}→v
global A=g ; set A= ; ${A}→
# A variable with the name of something that a channel gives is never seen.
set EXTEN=x ; ${EXTEN}→100
push EXTEN=x ; ${EXTEN}→100
push EXTEN=x ; ${LOCAL(EXTEN)}→x
global EXTEN=x ; ${EXTEN}→100
global EXTEN=x ; gone ; ${EXTEN}→
global EXTEN=x ; gone ; ${GLOBAL(EXTEN)}→x
global PRIORITY=x ; gone ; ${PRIORITY}${GLOBAL(PRIORITY)}→x
global N=x ; gone ; ${N}→x
set N=x ; gone ; ${N}→
# The empty name.
set =v ; ${}→v
${}→
local =v ; ${}→
push =v ; ${}→v
global =v ; ${}→v
# Globals are expanded one after another, and one that occurs twice may read itself.
expanded N=200 ; expanded M=${N}1 ; ${M}→2001
expanded M=${N}1 ; expanded N=200 ; ${M}→1
expanded N=1 ; expanded N=${N}2 ; ${N}→12
expanded E=${EXTEN}${CHANNEL} ; ${LEN(${E})}→0
expanded E=$[1 + 2] ; ${E}→3
";
