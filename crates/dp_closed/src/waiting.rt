//! The duties of applications that wait for digits, dial, wait in a queue, or change its members.
ghost use Rattle.std.specs.Prelude.{◌≡◌, ◌++◌, ◌∷◌, [], OnOk, map};
ghost use Rattle.dp_closed.specs.Shown.{shown_area, shown_duties};
ghost use Rattle.dp_closed.specs.Steps.{any_area};
ghost use Rattle.dp_pieces.specs.Shown.{shown_all};
ghost use Rattle.dp_reach.specs.Bounds as bounds;

use crate::area::KeptArea;
use crate::duty::{KeptDuty, push_area, push_name};
use crate::sets::{bytes_in, digit_set, set_of};
use dp_conf::NoMemory;
use dp_pieces::Piece;
use std::alloc::Global;

/// Adds the duties of `WaitExten` and `Background`.
pub(crate) fn push_digits(
    alloc: Global,
    area: &KeptArea,
    duties: &mut Vec<KeptDuty>,
) -> Result<(), NoMemory>
    ensures { OnOk result (shown_duties duties.new.items
        ≡ shown_duties duties.old.items ++ bounds.digits_duties (shown_area area.now) []) }
{
    let dialled = [Piece::AnyOf(digit_set())];
    push_area(alloc, &area.context, &dialled, duties)?;
    push_area(alloc, &area.context, &[Piece::Known(b't')], duties)
}

/// Adds the duties of `Return`.
pub(crate) fn push_return(
    alloc: Global,
    pieces: &[Piece],
    duties: &mut Vec<KeptDuty>,
) -> Result<(), NoMemory>
    ensures { OnOk result (shown_duties duties.new.items
        ≡ shown_duties duties.old.items ++ bounds.return_duties any_area (shown_all pieces.now)) }
{
    push_name(alloc, b"GOSUB_RETVAL", set_of(pieces), duties)
}

/// Adds that a name may have each of these texts.
fn push_texts(
    alloc: Global,
    name: &[u8],
    texts: &[&[u8]],
    duties: &mut Vec<KeptDuty>,
) -> Result<(), NoMemory>
    ensures { OnOk result (shown_duties duties.new.items
        ≡ shown_duties duties.old.items ++ bounds.tells name.now (map (λ text. text.now) texts.now)) }
{
    for text in texts {
        push_name(alloc, name, bytes_in(text), duties)?;
    }
    Ok(())
}

/// Adds the duties of `Dial`.
pub(crate) fn push_dial(alloc: Global, duties: &mut Vec<KeptDuty>) -> Result<(), NoMemory>
    ensures { OnOk result (shown_duties duties.new.items ≡ shown_duties duties.old.items ++ bounds.dial_duties any_area []) }
{
    let texts = [b"CHANUNAVAIL".as_slice()];
    push_texts(alloc, b"DIALSTATUS", &texts, duties)
}

/// Adds the duties of `Queue`.
pub(crate) fn push_queue(alloc: Global, duties: &mut Vec<KeptDuty>) -> Result<(), NoMemory>
    ensures { OnOk result (shown_duties duties.new.items ≡ shown_duties duties.old.items ++ bounds.queue_duties any_area []) }
{
    duties.push(KeptDuty::Waits)?;
    let texts = [
        b"UNKNOWN".as_slice(),
        b"JOINEMPTY".as_slice(),
        b"FULL".as_slice(),
    ];
    push_texts(alloc, b"QUEUESTATUS", &texts, duties)
}

/// Adds the duties of `AddQueueMember`.
pub(crate) fn push_add(alloc: Global, duties: &mut Vec<KeptDuty>) -> Result<(), NoMemory>
    ensures { OnOk result (shown_duties duties.new.items ≡ shown_duties duties.old.items ++ bounds.add_duties any_area []) }
{
    let texts = [
        b"NOSUCHQUEUE".as_slice(),
        b"MEMBERALREADY".as_slice(),
        b"ADDED".as_slice(),
    ];
    push_texts(alloc, b"AQMSTATUS", &texts, duties)
}

/// Adds the duties of `RemoveQueueMember`.
pub(crate) fn push_remove(alloc: Global, duties: &mut Vec<KeptDuty>) -> Result<(), NoMemory>
    ensures { OnOk result (shown_duties duties.new.items ≡ shown_duties duties.old.items ++ bounds.remove_duties any_area []) }
{
    let texts = [
        b"NOSUCHQUEUE".as_slice(),
        b"NOTINQUEUE".as_slice(),
        b"NOTDYNAMIC".as_slice(),
        b"REMOVED".as_slice(),
    ];
    push_texts(alloc, b"RQMSTATUS", &texts, duties)
}

/// Adds the duties of `PauseQueueMember`.
pub(crate) fn push_pause(alloc: Global, duties: &mut Vec<KeptDuty>) -> Result<(), NoMemory>
    ensures { OnOk result (shown_duties duties.new.items ≡ shown_duties duties.old.items ++ bounds.pause_duties any_area []) }
{
    let texts = [b"PAUSED".as_slice(), b"NOTFOUND".as_slice()];
    push_texts(alloc, b"PQMSTATUS", &texts, duties)
}

/// Adds the duties of `UnpauseQueueMember`.
pub(crate) fn push_unpause(alloc: Global, duties: &mut Vec<KeptDuty>) -> Result<(), NoMemory>
    ensures { OnOk result (shown_duties duties.new.items ≡ shown_duties duties.old.items ++ bounds.unpause_duties any_area []) }
{
    let texts = [b"UNPAUSED".as_slice(), b"NOTFOUND".as_slice()];
    push_texts(alloc, b"UPQMSTATUS", &texts, duties)
}
