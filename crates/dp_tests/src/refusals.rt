//! The refusals that `expect refused CODE` names.
ghost use Rattle.std.specs.Prelude.{◌≡◌};
ghost use Rattle.std.specs.List.{find};
ghost use Rattle.dp_tests.specs.Expectations as spec;

use dp_commands::number_within;
use dp_conf::same_word;
use dp_machine::Refusal;

/// The greatest number of a refusal.
const MOST_CODE: u32 = 53;

/// Whether there is a number, and it is this one.
fn is_numbered(number: Option<u32>, code: u8) -> bool
    ensures { result ≡ spec.is_numbered number code }
{
    match number {
        Some(number) => number == u32::from(code),
        None => false,
    }
}

/// Whether a word is the printed name of the refusal, in any case, or its number.
fn is_called(word: &[u8], refusal: Refusal) -> bool
    ensures { result ≡ spec.is_called word.now refusal }
{
    same_word(word, refusal.name().as_bytes())
        || is_numbered(number_within(MOST_CODE, word), refusal.code())
}

/// The first of these refusals that a word names.
fn first_called(refusals: &[Refusal], word: &[u8]) -> Option<Refusal>
    ensures { result ≡ find (spec.is_called word.now) refusals.now }
{
    for refusal in refusals {
        if is_called(word, *refusal) {
            return Some(*refusal);
        }
    }
    None
}

/// The refusal that a word names, by its number or its printed name.
pub(crate) fn read_refusal(word: &[u8]) -> Option<Refusal>
    ensures { result ≡ spec.refusal_in word.now }
{
    first_called(
        &[
            Refusal::NoChannel,
            Refusal::NotReady,
            Refusal::NotWaiting,
            Refusal::NoTimer,
            Refusal::NoQueue,
            Refusal::NobodyWaiting,
            Refusal::NoMember,
            Refusal::NotRinging,
            Refusal::NotTalking,
            Refusal::Ended,
            Refusal::NumbersSpent,
            Refusal::BadDigit,
            Refusal::BadPlan,
            Refusal::NotDialling,
        ],
        word,
    )
}
