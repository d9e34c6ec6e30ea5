//! The table of the applications' duties, by name.
ghost use Rattle.std.specs.Prelude.{◌≡◌, ◌++◌, IfOk, IsFalse, OnOk, map};
ghost use Rattle.dp_closed.specs.Rows as rows;
ghost use Rattle.dp_closed.specs.Shown.{shown_area, shown_duties, shown_duty};
ghost use Rattle.dp_pieces.specs.Shown.{shown_all};
ghost use Rattle.dp_pieces.specs.Texts.{text_pieces};
ghost use Rattle.dp_reach.specs.Standard.{standard_duties};

use crate::area::KeptArea;
use crate::duty::KeptDuty;
use crate::settings::push_set;
use crate::subroutines::{push_gosub, push_gosub_if};
use crate::targets::{push_goto_if, push_targets};
use crate::waiting::{
    push_add, push_dial, push_digits, push_pause, push_queue, push_remove, push_return,
    push_unpause,
};
use dp_conf::{NoMemory, same_word};
use dp_pieces::{NamedPieces, Piece, read_pieces};
use std::alloc::Global;

/// A row of the table: the application with these duties.
#[derive(Clone, Copy)]
pub(crate) enum Row {
    Nothing,
    Goto,
    Set,
    GotoIf,
    Gosub,
    GosubIf,
    Return,
    Digits,
    Dial,
    Queue,
    Add,
    Remove,
    Pause,
    Unpause,
}

/// The row of an application that changes the members of a queue.
fn member_row(application: &[u8]) -> Row
    ensures { rows.shown_row result ≡ rows.member_duties application.now }
{
    if same_word(application, b"AddQueueMember") {
        return Row::Add;
    }
    if same_word(application, b"RemoveQueueMember") {
        return Row::Remove;
    }
    if same_word(application, b"PauseQueueMember") {
        return Row::Pause;
    }
    if same_word(application, b"UnpauseQueueMember") {
        return Row::Unpause;
    }
    Row::Nothing
}

/// The row of an application that waits, or of one of those above.
fn waiting_row(application: &[u8]) -> Row
    ensures { rows.shown_row result ≡ rows.waiting_duties application.now }
{
    if same_word(application, b"Wait") {
        return Row::Nothing;
    }
    if same_word(application, b"WaitExten") {
        return Row::Digits;
    }
    if same_word(application, b"Background") {
        return Row::Digits;
    }
    if same_word(application, b"Dial") {
        return Row::Dial;
    }
    if same_word(application, b"Queue") {
        return Row::Queue;
    }
    member_row(application)
}

/// The row of an application that answers, ends the call, or plays or prints nothing here, or of one of those above.
fn silent_row(application: &[u8]) -> Row
    ensures { rows.shown_row result ≡ rows.silent_duties application.now }
{
    if same_word(application, b"Answer") {
        return Row::Nothing;
    }
    if same_word(application, b"Hangup") {
        return Row::Nothing;
    }
    if same_word(application, b"Verbose") {
        return Row::Nothing;
    }
    if same_word(application, b"Playback") {
        return Row::Nothing;
    }
    waiting_row(application)
}

/// The row of an application that enters or leaves subroutines, or of one of those above.
fn calling_row(application: &[u8]) -> Row
    ensures { rows.shown_row result ≡ rows.calling_duties application.now }
{
    if same_word(application, b"Gosub") {
        return Row::Gosub;
    }
    if same_word(application, b"GosubIf") {
        return Row::GosubIf;
    }
    if same_word(application, b"Return") {
        return Row::Return;
    }
    if same_word(application, b"StackPop") {
        return Row::Nothing;
    }
    silent_row(application)
}

/// The row of an application, given its name in any ASCII case. A name that the table lacks has no duties.
#[tactic(auto, unfolding(dp_reach::specs::Standard::standard_duties))]
fn row_of(application: &[u8]) -> Row
    ensures { rows.shown_row result ≡ standard_duties application.now }
{
    if same_word(application, b"NoOp") {
        return Row::Nothing;
    }
    if same_word(application, b"Goto") {
        return Row::Goto;
    }
    if same_word(application, b"Set") {
        return Row::Set;
    }
    if same_word(application, b"GotoIf") {
        return Row::GotoIf;
    }
    calling_row(application)
}

/// Adds the duties of a row.
fn push_row(
    alloc: Global,
    row: Row,
    area: &KeptArea,
    pieces: &[Piece],
    duties: &mut Vec<KeptDuty>,
) -> Result<(), NoMemory>
    ensures { OnOk result (shown_duties duties.new.items
        ≡ shown_duties duties.old.items ++ rows.shown_row row (shown_area area.now) (shown_all pieces.now)) }
{
    match row {
        Row::Nothing => Ok(()),
        Row::Goto => push_targets(alloc, area, pieces, duties),
        Row::Set => push_set(alloc, pieces, duties),
        Row::GotoIf => push_goto_if(alloc, area, pieces, duties),
        Row::Gosub => push_gosub(alloc, area, pieces, duties),
        Row::GosubIf => push_gosub_if(alloc, area, pieces, duties),
        Row::Return => push_return(alloc, pieces, duties),
        Row::Digits => push_digits(alloc, area, duties),
        Row::Dial => push_dial(alloc, duties),
        Row::Queue => push_queue(alloc, duties),
        Row::Add => push_add(alloc, duties),
        Row::Remove => push_remove(alloc, duties),
        Row::Pause => push_pause(alloc, duties),
        Row::Unpause => push_unpause(alloc, duties),
    }
}

/// Adds the duties of an application, given its name in any ASCII case and the pieces of its arguments. It fails only if memory runs out.
pub fn push_duties(
    alloc: Global,
    application: &[u8],
    area: &KeptArea,
    pieces: &[Piece],
    duties: &mut Vec<KeptDuty>,
) -> Result<(), NoMemory>
    ensures { OnOk result (shown_duties duties.new.items
        ≡ shown_duties duties.old.items ++ standard_duties application.now (shown_area area.now) (shown_all pieces.now)) }
{
    push_row(alloc, row_of(application), area, pieces, duties)
}

/// The duties of an application in an area, given its name in any ASCII case and the pieces of its arguments. It fails only if memory runs
/// out.
pub fn duties(
    alloc: Global,
    application: &[u8],
    area: &KeptArea,
    pieces: &[Piece],
) -> Result<Vec<KeptDuty>, NoMemory>
    ensures { IfOk result (λ duties. map shown_duty duties.items ≡ standard_duties application.now (shown_area area.now) (shown_all pieces.now)) }
{
    let mut duties = Vec::new(alloc);
    push_duties(alloc, application, area, pieces, &mut duties)?;
    Ok(duties)
}

impl Row {
    /// Whether the duties of the row may depend on the arguments.
    fn asks_arguments(self) -> bool
        ensures { IsFalse result → rows.IsSteady (rows.shown_row self) }
    {
        match self {
            Row::Goto => true,
            Row::Set => true,
            Row::GotoIf => true,
            Row::Gosub => true,
            Row::GosubIf => true,
            Row::Return => true,
            Row::Nothing => false,
            Row::Digits => false,
            Row::Dial => false,
            Row::Queue => false,
            Row::Add => false,
            Row::Remove => false,
            Row::Pause => false,
            Row::Unpause => false,
        }
    }

    /// The pieces of arguments, if the duties of the row may depend on them.
    fn pieces_of<N: NamedPieces>(
        self,
        alloc: Global,
        names: &N,
        arguments: &[u8],
    ) -> Result<Vec<Piece>, NoMemory>
        ensures { IfOk result (λ pieces. rows.IsOwedAlike (rows.shown_row self) (shown_all pieces.items) (text_pieces (N.names names.now) arguments.now)) }
    {
        if self.asks_arguments() {
            return read_pieces(alloc, names, arguments);
        }
        Ok(Vec::new(alloc))
    }
}

/// The duties of an application in an area, given its name in any ASCII case and its arguments as written in the dialplan, which are read
/// only if the duties depend on them. It fails only if memory runs out.
pub fn duties_by_arguments<N: NamedPieces>(
    alloc: Global,
    names: &N,
    area: &KeptArea,
    application: &[u8],
    arguments: &[u8],
) -> Result<Vec<KeptDuty>, NoMemory>
    ensures { IfOk result (λ duties. map shown_duty duties.items
        ≡ standard_duties application.now (shown_area area.now) (text_pieces (N.names names.now) arguments.now)) }
{
    let row = row_of(application);
    let pieces = row.pieces_of(alloc, names, arguments)?;
    let mut duties = Vec::new(alloc);
    push_row(alloc, row, area, &pieces, &mut duties)?;
    Ok(duties)
}
