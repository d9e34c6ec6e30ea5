//! The applications that only go on here, after the Asterisk documentation's application reference. Their work outside this program, such
//! as to play, to record or to write a log, is left out.
ghost use Rattle.std.specs.Prelude.{◌≡◌};
ghost use Rattle.dp_wide.specs.Going as spec;

use crate::names::is_word_of;
use dp_app::{AppNumber, AppTable, Cell, KnownTable, Move};
use dp_conf::NoMemory;
use dp_vars::{Counts, Scope};
use std::alloc::Global;
use std::marker::PhantomData;

/// The names of the applications that go on.
const GOING: [&[u8]; 44] = [
    b"Ringing",
    b"Progress",
    b"Proceeding",
    b"SayDigits",
    b"SayNumber",
    b"SayAlpha",
    b"SayPhonetic",
    b"SayUnixTime",
    b"Playtones",
    b"StopPlaytones",
    b"StartMusicOnHold",
    b"StopMusicOnHold",
    b"SetMusicOnHold",
    b"MixMonitor",
    b"StopMixMonitor",
    b"Monitor",
    b"StopMonitor",
    b"PauseMonitor",
    b"UnpauseMonitor",
    b"UserEvent",
    b"SendDTMF",
    b"SendText",
    b"SetAMAFlags",
    b"Log",
    b"DumpChan",
    b"ResetCDR",
    b"NoCDR",
    b"ForkCDR",
    b"CELGenUserEvent",
    b"QueueLog",
    b"UpdateConfig",
    b"ChannelRedirect",
    b"SoftHangup",
    b"Originate",
    b"System",
    b"TrySystem",
    b"SIPAddHeader",
    b"SIPRemoveHeader",
    b"HangupCauseClear",
    b"LookupCIDName",
    b"LookupBlacklist",
    b"SetCallerPres",
    b"JabberSend",
    b"MessageSend",
];

/// Whether the application with a name only goes on here, and changes nothing (a choice of this program). Names of applications are
/// compared without regard to ASCII case.
#[tactic(auto, unfolding(crate::specs::Going::going_names))]
pub fn goes_on(name: &[u8]) -> bool
    ensures { result ≡ spec.goes_on name.now }
{
    is_word_of(&GOING, name)
}

/// A table in which the applications that only go on come first, each before the same name of the other table: the channel goes on at the
/// next priority, and nothing changes.
pub struct WithGoing<T> {
    types: PhantomData<T>,
}

impl<T: AppTable> AppTable for WithGoing<T> {
    ghost use Rattle.dp_wide.specs.Going.{with_going, with_going_touch};
    ghost use Rattle.dp_wide.specs.laws.GoingLawful.{with_going_blind, with_going_lawful};

    ghost rows = { with_going T.rows };

    ghost touches = { with_going_touch T.touches };

    ghost lawful = { with_going_lawful T.touches T.rows T.lawful };

    ghost blind = { with_going_blind T.touches T.rows T.blind };

    type Functions = T::Functions;

    fn number_of(name: &[u8]) -> Option<AppNumber> {
        if goes_on(name) {
            return Some(AppNumber::first());
        }
        let number = T::number_of(name)?;
        Some(number.after())
    }

    fn dispatch(
        alloc: Global,
        name: &[u8],
        arguments: &[u8],
        cell: &mut Cell,
    ) -> Result<Option<Move>, NoMemory> {
        if goes_on(name) {
            return Ok(Some(Move::Next));
        }
        T::dispatch(alloc, name, arguments, cell)
    }
}

impl<T: KnownTable> KnownTable for WithGoing<T> {
    ghost use Rattle.dp_wide.specs.Going.{with_going_knowledge};
    ghost use Rattle.dp_wide.specs.laws.GoingLawful.{with_going_overlooks};

    ghost knowledge = { with_going_knowledge T.knowledge };

    ghost overlooks = { with_going_overlooks T.knowledge T.rows T.overlooks };

    fn looks_at_arguments(name: &[u8]) -> bool {
        if goes_on(name) {
            return false;
        }
        T::looks_at_arguments(name)
    }

    fn unknown_need<B, C: Counts>(
        alloc: Global,
        scope: &Scope<'_, B, C>,
        name: &[u8],
        arguments: &[u8],
    ) -> Result<Vec<u8>, NoMemory> {
        if goes_on(name) {
            return Ok(Vec::new(alloc));
        }
        T::unknown_need(alloc, scope, name, arguments)
    }
}
