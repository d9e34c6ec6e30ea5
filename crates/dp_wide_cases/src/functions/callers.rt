//! The caller, worked out by hand from the rules.

/// The number is known, and what reads a cell is known if something set that.
pub(super) const CALLERS: &str = r"
${CALLERID(num)}→5551234
${CALLERID(number)}→5551234
${CALLERID(number):-4}→1234
gone ; ${CALLERID(num)}.→.
# A variable with that very name is not the caller.
set CALLERID(num)=9 ; ${CALLERID(num)}→5551234
set CALLERID(number)=9 ; ${CALLERID(number)}→5551234
# The name is a cell.
${CALLERID(name)}→ unknown CALLERID(name)
set CALLERID(name)=Ann ; ${CALLERID(name)}→Ann
set CALLERID(name)= ; ${CALLERID(name)}.→.
global CALLERID(name)=Ann ; ${CALLERID(name)}→Ann
# Both in one text.
set CALLERID(name)=Ann B ; ${CALLERID(all)}→\x22Ann B\x22 <5551234>
set CALLERID(name)= ; ${CALLERID(all)}→\x22\x22 <5551234>
${CALLERID(all)}→\x22\x22 <5551234> unknown CALLERID(all)
set CALLERID(all)=x ; ${CALLERID(all)}→\x22\x22 <5551234> unknown CALLERID(all)
set CALLERID(name)=Ann ; gone ; ${CALLERID(all)}→\x22\x22 <> unknown CALLERID(all)
global CALLERID(name)=Ann ; gone ; ${CALLERID(all)}→\x22Ann\x22 <>
# Every other part is a cell.
${CALLERID(dnid)}→ unknown CALLERID(dnid)
set CALLERID(dnid)=7 ; ${CALLERID(dnid)}→7
${CALLERID()}→ unknown CALLERID()
set CALLERID()=7 ; ${CALLERID()}→7
${CALLERID(NUM)}→ unknown CALLERID(NUM)
${CALLERID( num)}→ unknown CALLERID( num)
${CALLERID(num,x)}→ unknown CALLERID(num,x)
${CALLERID(numbers)}→ unknown CALLERID(numbers)
${CALLERID(ALL)}→ unknown CALLERID(ALL)
${callerid(num)}→ unknown callerid(num)
${CallerID(all)}→ unknown CallerID(all)
# A plain name, and a call without an end.
${CALLERID}.→.
${CALLERID(num}.→.
";
