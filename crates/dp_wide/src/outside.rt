//! The applications that run outside this program, after the Asterisk documentation's application reference. A channel that reaches one
//! waits, and its result comes from outside.
ghost use Rattle.std.specs.Prelude.{◌≡◌, IfOk, OnErr, OnOk, map};
ghost use Rattle.std.specs.Option.{option_map};
ghost use Rattle.dp_app.specs.Cells.{KeepsLoans, cell_now};
ghost use Rattle.dp_wide.specs.Outside as spec;

use crate::read_names::with_listed;
use crate::settings::bare_name;
use dp_app::{AppNumber, AppTable, Cell, KnownTable, Move, Phase, Place};
use dp_conf::{NoMemory, first_argument, same_word, trim};
use dp_vars::{Counts, Scope, Store};
use std::alloc::Global;
use std::marker::PhantomData;

/// The applications that run outside, each with the variables in which it reports how it ended.
const OUTSIDE: [(&[u8], &[&[u8]]); 55] = [
    (b"VoiceMail", &[b"VMSTATUS"]),
    (b"VoiceMailMain", &[]),
    (b"VMAuthenticate", &[b"AUTH_MAILBOX", b"AUTH_CONTEXT"]),
    (b"Directory", &[b"DIRECTORY_RESULT"]),
    (b"Read", &[b"READSTATUS"]),
    (b"ReadExten", &[b"READEXTENSTATUS"]),
    (b"Record", &[b"RECORD_STATUS"]),
    (
        b"ControlPlayback",
        &[b"CPLAYBACKSTATUS", b"CPLAYBACKOFFSET"],
    ),
    (b"BackgroundDetect", &[]),
    (b"AGI", &[b"AGISTATUS"]),
    (b"DeadAGI", &[b"AGISTATUS"]),
    (b"EAGI", &[b"AGISTATUS"]),
    (b"ExternalIVR", &[]),
    (b"ConfBridge", &[b"CONFBRIDGE_RESULT"]),
    (b"MeetMe", &[]),
    (b"Page", &[b"PAGESTATUS"]),
    (b"Pickup", &[]),
    (b"PickupChan", &[]),
    (b"Park", &[b"PARKEDAT"]),
    (b"ParkedCall", &[]),
    (b"ParkAndAnnounce", &[b"PARKEDAT"]),
    (b"Authenticate", &[]),
    (b"FollowMe", &[]),
    (b"ChanSpy", &[]),
    (b"ExtenSpy", &[]),
    (b"SendFAX", &[b"FAXSTATUS", b"FAXERROR"]),
    (b"ReceiveFAX", &[b"FAXSTATUS", b"FAXERROR"]),
    (b"Echo", &[]),
    (b"Milliwatt", &[]),
    (b"MP3Player", &[]),
    (b"Festival", &[]),
    (b"MusicOnHold", &[]),
    (b"WaitMusicOnHold", &[]),
    (b"WaitForSilence", &[b"WAITSTATUS"]),
    (b"WaitForNoise", &[b"WAITSTATUS"]),
    (b"WaitForRing", &[]),
    (b"WaitUntil", &[]),
    (b"Transfer", &[b"TRANSFERSTATUS"]),
    (b"Bridge", &[b"BRIDGERESULT"]),
    (b"BridgeWait", &[]),
    (b"Stasis", &[]),
    (b"DISA", &[]),
    (b"PrivacyManager", &[b"PRIVACYMGRSTATUS"]),
    (b"Zapateller", &[]),
    (b"Flash", &[]),
    (b"AMD", &[b"AMDSTATUS", b"AMDCAUSE"]),
    (b"NVFaxDetect", &[]),
    (b"Dictate", &[]),
    (b"TestClient", &[]),
    (b"TestServer", &[]),
    (b"AgentLogin", &[]),
    (b"AgentRequest", &[b"AGENT_STATUS"]),
    (b"Morsecode", &[]),
    (b"SMS", &[]),
    (b"Curl", &[]),
];

/// The variables in which the application with a name, one of a list, reports how it ended.
fn statuses_among<'a>(
    applications: &[(&[u8], &'a [&'a [u8]])],
    name: &[u8],
) -> Option<&'a [&'a [u8]]>
    ensures { option_map (λ statuses. map (λ status. status.now) statuses.now) result
        ≡ spec.statuses_among (map (λ a. (a.0.now, map (λ status. status.now) a.1.now)) applications.now) name.now }
{
    let mut left = applications;
    while let [(application, statuses), rest @ ..] = left {
        if same_word(name, application) {
            return Some(statuses);
        }
        left = rest;
    }
    None
}

/// The variables in which the application with a name reports how it ended; None if it does not run outside.
#[tactic(auto, unfolding(crate::specs::Outside::outside_applications))]
fn outside_statuses(name: &[u8]) -> Option<&'static [&'static [u8]]>
    ensures { option_map (λ statuses. map (λ status. status.now) statuses.now) result ≡ spec.outside_statuses name.now }
{
    statuses_among(&OUTSIDE, name)
}

/// Whether the application with a name runs outside this program. Names of applications are compared without regard to ASCII case.
pub fn is_outside(name: &[u8]) -> bool
    ensures { result ≡ spec.is_outside name.now }
{
    outside_statuses(name).is_some()
}

/// Whether the first argument of an application with a name names a variable for the input: `Read` and `ReadExten`, in any ASCII case.
pub fn is_read(name: &[u8]) -> bool
    ensures { result ≡ spec.is_read name.now }
{
    same_word(name, b"Read") || same_word(name, b"ReadExten")
}

/// Removes the values of a list of names.
fn unset_all(store: &mut Store<Place>, names: &[&[u8]])
    ensures { store.new ≡ spec.without_values (map (λ name. name.now) names.now) store.old }
{
    for name in names {
        store.unset(name);
    }
}

/// The name of the variable for the input: the first argument, read like a name in `Set`.
fn name_to_read(arguments: &[u8]) -> &[u8]
    ensures { result.now ≡ spec.name_to_read arguments.now }
{
    let (first, _) = first_argument(arguments);
    bare_name(trim(first))
}

/// Records that a name is for input, and removes its value. If memory runs out the store is as before.
fn begin_reading(alloc: Global, store: &mut Store<Place>, name: &[u8]) -> Result<(), NoMemory>
    ensures ok { OnOk result (store.new ≡ spec.after_reading name.now store.old) }
    ensures err { OnErr result (store.new ≡ store.old) }
{
    let names = with_listed(alloc, store.get(b"READ()"), name)?;
    store.set(alloc, b"READ()", &names)?;
    store.unset(name);
    Ok(())
}

/// The same for the name in the first argument, if it names a variable.
fn begin_reading_first(
    alloc: Global,
    store: &mut Store<Place>,
    reads: bool,
    arguments: &[u8],
) -> Result<(), NoMemory>
    ensures ok { OnOk result (store.new ≡ spec.after_arguments reads arguments.now store.old) }
    ensures err { OnErr result (store.new ≡ store.old) }
{
    if reads {
        begin_reading(alloc, store, name_to_read(arguments))?;
    }
    Ok(())
}

/// The channel waits for an application that runs outside, and how an earlier run of it ended becomes unknown. A channel that is closing
/// does not wait, and its call ends. If memory runs out the cell is as before.
#[tactic(auto, unfolding(crate::specs::Outside::outside_row))]
fn wait_outside(
    alloc: Global,
    statuses: &[&[u8]],
    reads: bool,
    arguments: &[u8],
    cell: &mut Cell,
) -> Result<Move, NoMemory>
    ensures row { IfOk result (λ going. spec.outside_row (map (λ status. status.now) statuses.now) reads arguments.now (cell_now cell.old)
        ≡ record { cell = cell_now cell.new; next = going }) }
    ensures err { OnErr result (cell_now cell.new ≡ cell_now cell.old) }
    ensures loans { KeepsLoans cell.old cell.new }
{
    if cell.is_closing {
        return Ok(Move::Hang);
    }
    begin_reading_first(alloc, cell.store, reads, arguments)?;
    unset_all(cell.store, statuses);
    Ok(Move::Park(Phase::Pause))
}

/// A table in which the applications that run outside come first, each before the same name of the other table.
///
/// The channel waits until a time-out, after which it goes on at the next priority. How the application ended, and what `Read` read, comes
/// from outside while the channel waits: until then the variables for it have no value, even if an earlier run left one, and nothing is
/// known of them. The names that `Read` was given are kept in the variable `READ()`. If the channel is closing the call ends instead of
/// waiting. All this is a choice of this program.
pub struct WithOutside<T> {
    types: PhantomData<T>,
}

impl<T: AppTable> AppTable for WithOutside<T> {
    ghost use Rattle.dp_wide.specs.Outside.{with_outside, with_outside_touch};
    ghost use Rattle.dp_wide.specs.laws.OutsideLawful.{with_outside_blind, with_outside_lawful};

    ghost rows = { with_outside T.rows };

    ghost touches = { with_outside_touch T.touches };

    ghost lawful = { with_outside_lawful T.touches T.rows T.lawful };

    ghost blind = { with_outside_blind T.touches T.rows T.blind };

    type Functions = T::Functions;

    fn number_of(name: &[u8]) -> Option<AppNumber> {
        if is_outside(name) {
            return Some(AppNumber::first());
        }
        let number = T::number_of(name)?;
        Some(number.after())
    }

    fn dispatch(
        alloc: Global,
        name: &[u8],
        arguments: &[u8],
        cell: &mut Cell,
    ) -> Result<Option<Move>, NoMemory> {
        if let Some(statuses) = outside_statuses(name) {
            let going = wait_outside(alloc, statuses, is_read(name), arguments, cell)?;
            return Ok(Some(going));
        }
        T::dispatch(alloc, name, arguments, cell)
    }
}

impl<T: KnownTable> KnownTable for WithOutside<T> {
    ghost use Rattle.dp_wide.specs.Outside.{with_outside_knowledge};
    ghost use Rattle.dp_wide.specs.laws.OutsideLawful.{with_outside_overlooks};

    ghost knowledge = { with_outside_knowledge T.knowledge };

    ghost overlooks = { with_outside_overlooks T.knowledge T.rows T.overlooks };

    fn looks_at_arguments(name: &[u8]) -> bool {
        if is_outside(name) {
            return is_read(name);
        }
        T::looks_at_arguments(name)
    }

    fn unknown_need<B, C: Counts>(
        alloc: Global,
        scope: &Scope<'_, B, C>,
        name: &[u8],
        arguments: &[u8],
    ) -> Result<Vec<u8>, NoMemory> {
        if is_outside(name) {
            return Ok(Vec::new(alloc));
        }
        T::unknown_need(alloc, scope, name, arguments)
    }
}
