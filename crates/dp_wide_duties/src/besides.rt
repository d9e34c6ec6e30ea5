//! Where a real exchange may lead a call besides what this program's machine does, by the name of the application.
ghost use Rattle.std.specs.Prelude.{◌≡◌, ◌++◌, OnOk};
ghost use Rattle.dp_closed.specs.Shown.{shown_area, shown_duties};
ghost use Rattle.dp_pieces.specs.Shown.{shown_all};
ghost use Rattle.dp_wide_duties.specs.Exchange as spec;
ghost use Rattle.dp_wide_duties.specs.Kinds.{shown_beside};

use crate::calling::{push_dial, push_member, push_originate, push_page, push_queue};
use crate::naming::push_naming;
use crate::places::{push_directory, push_disa, push_mail};
use crate::rows::push_inner;
use dp_closed::{KeptArea, KeptDuty};
use dp_conf::{NoMemory, same_word};
use dp_pieces::Piece;
use std::alloc::Global;

/// A kind of application: one that leads a call nowhere else, or one of those that do.
#[derive(Clone, Copy)]
pub(crate) enum Beside {
    Nothing,
    Naming,
    Dial,
    Queue,
    Page,
    Originate,
    Member,
    Disa,
    Directory,
    Mail,
}

/// The kind of an application that calls no devices.
fn listed_kind(application: &[u8]) -> Beside
    ensures { shown_beside result ≡ spec.listed_besides application.now }
{
    if same_word(application, b"DISA") {
        return Beside::Disa;
    }
    if same_word(application, b"Directory") {
        return Beside::Directory;
    }
    if same_word(application, b"VoiceMail") {
        return Beside::Mail;
    }
    if same_word(application, b"VoiceMailMain") {
        return Beside::Mail;
    }
    if same_word(application, b"VMAuthenticate") {
        return Beside::Mail;
    }
    Beside::Nothing
}

/// The kind of an application, given its name in any ASCII case.
#[tactic(auto, unfolding(crate::specs::Exchange::besides))]
fn kind_of(application: &[u8]) -> Beside
    ensures { shown_beside result ≡ spec.besides application.now }
{
    if same_word(application, b"Set") {
        return Beside::Naming;
    }
    if same_word(application, b"Dial") {
        return Beside::Dial;
    }
    if same_word(application, b"Queue") {
        return Beside::Queue;
    }
    if same_word(application, b"Page") {
        return Beside::Page;
    }
    if same_word(application, b"Originate") {
        return Beside::Originate;
    }
    if same_word(application, b"AddQueueMember") {
        return Beside::Member;
    }
    listed_kind(application)
}

/// Adds where an application of a kind may lead a call besides.
fn push_beside(
    alloc: Global,
    kind: Beside,
    area: &KeptArea,
    pieces: &[Piece],
    duties: &mut Vec<KeptDuty>,
) -> Result<(), NoMemory>
    ensures { OnOk result (shown_duties duties.new.items
        ≡ shown_duties duties.old.items ++ shown_beside kind (shown_area area.now) (shown_all pieces.now)) }
{
    match kind {
        Beside::Nothing => Ok(()),
        Beside::Naming => push_naming(alloc, area, pieces, duties),
        Beside::Dial => push_dial(alloc, area, pieces, duties),
        Beside::Queue => push_queue(alloc, area, pieces, duties),
        Beside::Page => push_page(alloc, area, pieces, duties),
        Beside::Originate => push_originate(alloc, pieces, duties),
        Beside::Member => push_member(alloc, pieces, duties),
        Beside::Disa => push_disa(alloc, pieces, duties),
        Beside::Directory => push_directory(alloc, pieces, duties),
        Beside::Mail => push_mail(alloc, area, duties),
    }
}

/// Adds the duties of an application but `ExecIf`, and where a real exchange may lead a call besides.
pub(crate) fn push_met(
    alloc: Global,
    application: &[u8],
    area: &KeptArea,
    pieces: &[Piece],
    duties: &mut Vec<KeptDuty>,
) -> Result<(), NoMemory>
    ensures { OnOk result (shown_duties duties.new.items
        ≡ shown_duties duties.old.items ++ spec.met_duties application.now (shown_area area.now) (shown_all pieces.now)) }
{
    push_inner(alloc, application, area, pieces, duties)?;
    push_beside(alloc, kind_of(application), area, pieces, duties)
}
