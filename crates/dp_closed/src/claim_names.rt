//! Whether the names of a claim may have the bytes that the machine gives them.
ghost use Rattle.std.specs.Prelude.{List, IsTrue, map};
ghost use Rattle.std.specs.List.{AllByRecursion};
ghost use Rattle.dp_closed.specs.Claimed.{kept_claim};
ghost use Rattle.dp_closed.specs.Steps.{IsDialNamed, IsQueueNamed, IsSelfNamed};
ghost use Rattle.dp_pieces.specs.Bytes.{Within};
ghost use Rattle.dp_pieces.specs.Shown.{shown_all};
ghost use Rattle.dp_pieces.specs.Tables.{names_in};
ghost use Rattle.dp_queue.specs.declared.settings.Settings.{Settings};
ghost use Rattle.dp_reach.specs.Areas.{area_at};
ghost use Rattle.dp_reach.specs.Closed.{HasMachineNames, IsNamed};

use crate::claim::KeptClaim;
use crate::sets::{bytes_in, set_of};
use dp_machine::DialStatus;
use dp_pieces::{ByteSet, Piece};

impl KeptClaim<'_> {
    /// Whether the names may have the bytes that the machine gives them in an area of these pieces.
    pub(crate) fn is_area_named(self, context: &[Piece], exten: &[Piece]) -> bool
        ensures { IsTrue result → (settings : List Settings) → IsNamed (kept_claim self.entry settings) (area_at (shown_all context.now) (shown_all exten.now)) }
    {
        let dialled = set_of(exten);
        if !dialled.is_part(self.names.all()) {
            return false;
        }
        if !set_of(context).is_part(self.names.all()) {
            return false;
        }
        self.names.has(b"INVALID_EXTEN", &dialled)
    }

    /// Whether the name may have each of these texts.
    fn tells(self, name: &[u8], texts: &[&[u8]]) -> bool
        ensures { IsTrue result → AllByRecursion (Within ((names_in self.entry.names.now).bytes name.now)) (map (λ text. text.now) texts.now) }
    {
        for text in texts {
            if !self.names.has(name, &bytes_in(text)) {
                return false;
            }
        }
        true
    }

    /// Whether `PRIORITY` and `CHANNEL` may have the values that they have in each channel.
    fn is_self_named(self) -> bool
        ensures { IsTrue result → IsSelfNamed (names_in self.entry.names.now) }
    {
        let decimals = ByteSet::digits();
        if !self.names.has(b"PRIORITY", &decimals) {
            return false;
        }
        if !self.names.has(b"CHANNEL", &decimals) {
            return false;
        }
        let texts = [b"Channel/".as_slice()];
        self.tells(b"CHANNEL", &texts)
    }

    /// Whether `QUEUESTATUS` may have the results of a call that waits.
    fn is_queue_named(self) -> bool
        ensures { IsTrue result → IsQueueNamed (names_in self.entry.names.now) }
    {
        let texts = [
            b"TIMEOUT".as_slice(),
            b"LEAVEEMPTY".as_slice(),
            b"CONTINUE".as_slice(),
        ];
        self.tells(b"QUEUESTATUS", &texts)
    }

    /// Whether `DIALSTATUS` may have the results of a call to devices.
    fn is_dial_named(self) -> bool
        ensures { IsTrue result → IsDialNamed (names_in self.entry.names.now) }
    {
        let texts = [
            DialStatus::Answer.name(),
            DialStatus::Busy.name(),
            DialStatus::NoAnswer.name(),
            DialStatus::Congestion.name(),
            DialStatus::ChanUnavail.name(),
            DialStatus::DontCall.name(),
            DialStatus::Torture.name(),
            DialStatus::InvalidArgs.name(),
            b"CANCEL".as_slice(),
        ];
        self.tells(b"DIALSTATUS", &texts)
    }

    /// Whether the names may have the bytes that the machine gives them in every area.
    pub(crate) fn is_named(self) -> bool
        ensures { IsTrue result → (settings : List Settings) → HasMachineNames (kept_claim self.entry settings) }
    {
        self.names.is_whole()
            && self.is_self_named()
            && self.is_queue_named()
            && self.is_dial_named()
    }
}
