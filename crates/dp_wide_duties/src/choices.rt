//! The duties of `ExecIf`, which runs the application of one of its sides, and of all applications.
ghost use Rattle.std.specs.Prelude.{◌≡◌, ◌++◌, IfOk, None, OnOk, Some, map};
ghost use Rattle.std.specs.Option.{option_map};
ghost use Rattle.dp_closed.specs.Shown.{shown_area, shown_duties, shown_duty};
ghost use Rattle.dp_pieces.specs.Cuts.{cut_last, cut_level, cut_pieces};
ghost use Rattle.dp_pieces.specs.Shown.{shown_all};
ghost use Rattle.dp_reach.specs.Bounds.{Duties};
ghost use Rattle.dp_reach.specs.Choices.{sides_by};
ghost use Rattle.dp_reach.specs.Standard.{with_duties};
ghost use Rattle.dp_wide.specs.Choices.{exec_if_title};
ghost use Rattle.dp_wide_reach.specs.Choices as spec;
ghost use Rattle.dp_wide_duties.specs.Exchange.{exchange_duties, plain_duties};

use crate::besides::push_met;
use crate::held_bytes::{known_front, push_anything};
use dp_closed::{KeptArea, KeptDuty};
use dp_conf::{NoMemory, same_word, trim};
use dp_pieces::{Cutting, Piece, cut_last, cut_level, cut_pieces, known_text, trim_pieces};
use std::alloc::Global;
use std::marker::PhantomData;

/// An `ExecIf`, when so many may still run inside each other.
trait NestedExecIf {
    // Its duties.
    ghost owed: { Duties };

    /// Adds its duties.
    fn push(
        alloc: Global,
        area: &KeptArea,
        pieces: &[Piece],
        duties: &mut Vec<KeptDuty>,
    ) -> Result<(), NoMemory>
        ensures { OnOk result (shown_duties duties.new.items
            ≡ shown_duties duties.old.items ++ owed (shown_area area.now) (shown_all pieces.now)) };
}

/// The pieces of the arguments of an application, given those after its `(`, or None if it is unsure where they end.
fn arguments_of(rest: &[Piece]) -> Option<&[Piece]>
    ensures { option_map (λ inside. shown_all inside.now) result ≡ spec.arguments_by (shown_all rest.now) (cut_last 41 (shown_all rest.now)) }
{
    match cut_last(rest, b')') {
        Cutting::Nowhere => Some(rest),
        Cutting::Unsure => None,
        Cutting::At(inside, _) => Some(inside),
    }
}

/// Adds the duties of an application, where an `ExecIf` has those of `N`.
fn push_named<N: NestedExecIf>(
    alloc: Global,
    application: &[u8],
    area: &KeptArea,
    pieces: &[Piece],
    duties: &mut Vec<KeptDuty>,
) -> Result<(), NoMemory>
    ensures { OnOk result (shown_duties duties.new.items ≡ shown_duties duties.old.items
        ++ with_duties exec_if_title N.owed plain_duties application.now (shown_area area.now) (shown_all pieces.now)) }
{
    if same_word(application, b"ExecIf") {
        return N::push(alloc, area, pieces, duties);
    }
    push_met(alloc, application, area, pieces, duties)
}

/// Adds the duties of a side without the blanks at its ends that has no known name before a `(`.
fn push_whole<N: NestedExecIf>(
    alloc: Global,
    area: &KeptArea,
    side: &[Piece],
    duties: &mut Vec<KeptDuty>,
) -> Result<(), NoMemory>
    ensures { OnOk result (shown_duties duties.new.items ≡ shown_duties duties.old.items
        ++ spec.call_duties_by (with_duties exec_if_title N.owed plain_duties) (shown_area area.now) (spec.known_call_by (shown_all side.now) None)) }
{
    match known_text(alloc, side)? {
        None => push_anything(duties),
        Some(name) => push_named::<N>(alloc, &name, area, &[], duties),
    }
}

/// Adds the duties of an application with a known name, given the pieces after its `(`.
fn push_call<N: NestedExecIf>(
    alloc: Global,
    name: &[u8],
    area: &KeptArea,
    rest: &[Piece],
    duties: &mut Vec<KeptDuty>,
) -> Result<(), NoMemory>
    ensures { OnOk result (shown_duties duties.new.items ≡ shown_duties duties.old.items
        ++ spec.call_duties_by (with_duties exec_if_title N.owed plain_duties) (shown_area area.now)
        (spec.known_call_by (shown_all rest.now) (Some (name.now, shown_all rest.now)))) }
{
    match arguments_of(rest) {
        None => push_anything(duties),
        Some(inside) => push_named::<N>(alloc, trim(name), area, inside, duties),
    }
}

/// Adds the duties of a side. A side of blanks alone runs nothing.
fn push_side<N: NestedExecIf>(
    alloc: Global,
    area: &KeptArea,
    side: &[Piece],
    duties: &mut Vec<KeptDuty>,
) -> Result<(), NoMemory>
    ensures { OnOk result (shown_duties duties.new.items ≡ shown_duties duties.old.items
        ++ spec.side_duties (with_duties exec_if_title N.owed plain_duties) (shown_area area.now) (shown_all side.now)) }
{
    let side = trim_pieces(alloc, side)?;
    if side.is_empty() {
        return Ok(());
    }
    match known_front(alloc, &side, b'(')? {
        None => push_whole::<N>(alloc, area, &side, duties),
        Some((name, rest)) => push_call::<N>(alloc, &name, area, rest, duties),
    }
}

/// Adds the duties of both sides.
fn push_sides<N: NestedExecIf>(
    alloc: Global,
    area: &KeptArea,
    rest: &[Piece],
    duties: &mut Vec<KeptDuty>,
) -> Result<(), NoMemory>
    ensures { OnOk result (shown_duties duties.new.items ≡ shown_duties duties.old.items
        ++ spec.choice_duties (with_duties exec_if_title N.owed plain_duties) (shown_area area.now)
        (sides_by (shown_all rest.now) (cut_level 58 0 (shown_all rest.now)))) }
{
    match cut_level(rest, b':') {
        Cutting::Nowhere => push_side::<N>(alloc, area, rest, duties),
        Cutting::Unsure => push_anything(duties),
        Cutting::At(first, second) => {
            push_side::<N>(alloc, area, first, duties)?;
            push_side::<N>(alloc, area, second, duties)
        }
    }
}

/// Adds the duties of the sides if no comma stands in the condition, which would make the old form.
fn push_chosen<N: NestedExecIf>(
    alloc: Global,
    area: &KeptArea,
    condition: &[Piece],
    rest: &[Piece],
    duties: &mut Vec<KeptDuty>,
) -> Result<(), NoMemory>
    ensures { OnOk result (shown_duties duties.new.items ≡ shown_duties duties.old.items
        ++ spec.chosen_duties (with_duties exec_if_title N.owed plain_duties) (shown_area area.now) (shown_all rest.now)
        (cut_level 44 0 (shown_all condition.now))) }
{
    match cut_level(condition, b',') {
        Cutting::Nowhere => push_sides::<N>(alloc, area, rest, duties),
        Cutting::Unsure => push_anything(duties),
        Cutting::At(_, _) => push_anything(duties),
    }
}

/// Adds the duties of an `ExecIf`, where one inside it has those of `N`.
fn push_exec_if<N: NestedExecIf>(
    alloc: Global,
    area: &KeptArea,
    pieces: &[Piece],
    duties: &mut Vec<KeptDuty>,
) -> Result<(), NoMemory>
    ensures { OnOk result (shown_duties duties.new.items ≡ shown_duties duties.old.items
        ++ spec.exec_if_duties_by (with_duties exec_if_title N.owed plain_duties) (shown_area area.now) (cut_pieces 63 (shown_all pieces.now))) }
{
    match cut_pieces(pieces, b'?') {
        Cutting::Nowhere => push_anything(duties),
        Cutting::Unsure => push_anything(duties),
        Cutting::At(condition, rest) => push_chosen::<N>(alloc, area, condition, rest, duties),
    }
}

/// `ExecIf` inside 8 others, which ends the call.
struct DeepestExecIf;

impl NestedExecIf for DeepestExecIf {
    ghost use Rattle.dp_reach.specs.Bounds.{nothing_owed};

    ghost owed = { nothing_owed };

    fn push(
        _alloc: Global,
        _area: &KeptArea,
        _pieces: &[Piece],
        _duties: &mut Vec<KeptDuty>,
    ) -> Result<(), NoMemory> {
        Ok(())
    }
}

/// An `ExecIf` in which one more may run.
struct Outer<N> {
    inner: PhantomData<N>,
}

impl<N: NestedExecIf> NestedExecIf for Outer<N> {
    ghost use Rattle.dp_pieces.specs.Cuts.{cut_pieces};
    ghost use Rattle.dp_reach.specs.Standard.{with_duties};
    ghost use Rattle.dp_wide.specs.Choices.{exec_if_title};
    ghost use Rattle.dp_wide_reach.specs.Choices.{exec_if_duties_by};
    ghost use Rattle.dp_wide_duties.specs.Exchange.{plain_duties};

    ghost owed = { λ area pieces. exec_if_duties_by (with_duties exec_if_title N.owed plain_duties) area (cut_pieces 63 pieces) };

    fn push(
        alloc: Global,
        area: &KeptArea,
        pieces: &[Piece],
        duties: &mut Vec<KeptDuty>,
    ) -> Result<(), NoMemory> {
        push_exec_if::<N>(alloc, area, pieces, duties)
    }
}

/// Two of them, nested.
type TwoDeep<N> = Outer<Outer<N>>;

/// Four of them, nested.
type FourDeep<N> = TwoDeep<TwoDeep<N>>;

/// The duties of an application of the wide table in an area, and where a real exchange may lead a call besides, given its name in any ASCII
/// case and the pieces of its arguments. It fails only if memory runs out.
#[tactic(auto, unfolding(crate::specs::Exchange::exchange_duties))]
pub fn duties(
    alloc: Global,
    application: &[u8],
    area: &KeptArea,
    pieces: &[Piece],
) -> Result<Vec<KeptDuty>, NoMemory>
    ensures { IfOk result (λ duties. map shown_duty duties.items ≡ exchange_duties application.now (shown_area area.now) (shown_all pieces.now)) }
{
    let mut duties = Vec::new(alloc);
    push_named::<FourDeep<FourDeep<DeepestExecIf>>>(alloc, application, area, pieces, &mut duties)?;
    Ok(duties)
}
