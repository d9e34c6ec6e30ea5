//! A walk over the tokens of a text, which computes its value on the way.

ghost use Rattle.std.specs.Prelude.{◌≡◌, ◌≤◌, ◌∷◌, [], IfOk, MatchOption, None, unwrap_or};
ghost use Rattle.dp_expr.specs.Tokens.{tokens_of};
ghost use Rattle.dp_expr.specs.steps.Texts.{value_seen};
ghost use Rattle.dp_expr.specs.steps.Places.{IsOver};
ghost use Rattle.dp_expr.specs.steps.Seen.{IsNext, token_seen};
ghost use Rattle.dp_expr.specs.Trees.{level_of};
ghost use Rattle.dp_expr.specs.Walk.{Wanting, entry, closing_step, prefix_entry, first_step, next_step, operator_step, reduction, step, whole_of, ending, walk, values};
ghost use Rattle.dp_expr.specs.steps.Exact.{values_by};
ghost use Rattle.dp_expr.specs.steps.Frames.{frame_seen};
ghost use Rattle.dp_expr.specs.steps.Stacks.{stack_seen, state_seen};

use crate::division::Division;
use crate::frame::Frame;
use crate::operand::Operand;
use crate::operator::{Operator, Prefix};
use crate::stack::{MOST_DEPTH, Stack};
use crate::text_value::TextValue;
use crate::token::{Token, next_token};
use crate::walk_place::WalkPlace;
use std::alloc::{AllocError, Global};

/// The next token of the text, if the walk goes on, or None if only blanks are left, and after a fault, whatever comes next.
#[tactic(auto, using(crate::proofs::OverLemmas::over_failed, crate::proofs::OverLemmas::over_empty))]
#[inline(always)]
fn token_after<'a>(place: WalkPlace<'_>, text: &'a [u8]) -> Option<(Token<'a>, &'a [u8])>
    ensures { MatchOption result (IsOver place.entry text.now)
        (λ next. IsNext text.now (token_seen next.0) next.1.now) }
{
    match place {
        WalkPlace::Failed => None,
        WalkPlace::Wanting | WalkPlace::Holding(_) => next_token(text),
    }
}

/// The value of the expression in a text, or None for a fault. It fails only if memory runs out.
pub fn value(
    alloc: Global,
    text: &[u8],
    division: Division,
) -> Result<Option<TextValue<'_>>, AllocError>
    ensures { IfOk result (λ value. value_seen value
        ≡ unwrap_or (walk (values_by division) (Wanting []) (tokens_of text.now)) None) }
{
    let mut stack = Stack::new(alloc);
    let mut place = WalkPlace::Wanting;
    let mut rest = text;
    while let Some((token, after)) = token_after(place, rest) {
        place = step(&mut stack, place, token, division)?;
        rest = after;
    }
    Ok(finish(&mut stack, place, division))
}

#[tactic(auto, unfolding(crate::specs::Walk::step))]
fn step<'a>(
    stack: &mut Stack<'a>,
    place: WalkPlace<'a>,
    token: Token<'a>,
    division: Division,
) -> Result<WalkPlace<'a>, AllocError>
    ensures { IfOk result (λ next. state_seen next stack.new
        ≡ step (values_by division) (state_seen place.entry stack.old) (token_seen token.entry)) }
{
    match place {
        WalkPlace::Wanting => begin(stack, token),
        WalkPlace::Holding(value) => go_on(stack, value, token, division),
        WalkPlace::Failed => Ok(WalkPlace::Failed),
    }
}

/// Takes a token where an operand is needed.
fn begin<'a>(stack: &mut Stack<'a>, token: Token<'a>) -> Result<WalkPlace<'a>, AllocError>
    ensures { IfOk result (λ next. state_seen next stack.new
        ≡ first_step values (stack_seen stack.old) (token_seen token.entry)) }
{
    match token {
        Token::Operand(text) => Ok(WalkPlace::Holding(Some(TextValue::Written(Operand::new(
            text,
        ))))),
        Token::Sign(operator) => front(stack, operator),
        Token::Bang => enter(stack, Frame::Front(Prefix::Not)),
        Token::Opening => enter(stack, Frame::Paren),
        Token::Closing | Token::Stray => Ok(WalkPlace::Failed),
    }
}

/// Takes an operator where an operand is needed: only a minus is allowed there.
fn front<'a>(stack: &mut Stack<'a>, operator: Operator) -> Result<WalkPlace<'a>, AllocError>
    ensures { IfOk result (λ next. state_seen next stack.new
        ≡ prefix_entry operator (stack_seen stack.old)) }
{
    match operator {
        Operator::Minus => enter(stack, Frame::Front(Prefix::Negate)),
        Operator::Or
        | Operator::And
        | Operator::Equal
        | Operator::NotEqual
        | Operator::LessThan
        | Operator::AtMost
        | Operator::MoreThan
        | Operator::AtLeast
        | Operator::Plus
        | Operator::Times
        | Operator::Over
        | Operator::Remainder => Ok(WalkPlace::Failed),
    }
}

/// Opens a frame, unless too many are nested.
fn enter<'a>(stack: &mut Stack<'a>, frame: Frame<'a>) -> Result<WalkPlace<'a>, AllocError>
    ensures { IfOk result (λ next. state_seen next stack.new
        ≡ entry (frame_seen frame.entry) (stack_seen stack.old)) }
{
    if stack.depth < MOST_DEPTH {
        stack.push(frame)?;
        Ok(WalkPlace::Wanting)
    } else {
        Ok(WalkPlace::Failed)
    }
}

/// Takes a token after an operand.
fn go_on<'a>(
    stack: &mut Stack<'a>,
    value: Option<TextValue<'a>>,
    token: Token<'a>,
    division: Division,
) -> Result<WalkPlace<'a>, AllocError>
    ensures { IfOk result (λ next. state_seen next stack.new
        ≡ next_step (values_by division) (stack_seen stack.old) (value_seen value.entry) (token_seen token.entry)) }
{
    match token {
        Token::Sign(operator) => push_left(stack, operator, value, division),
        Token::Closing => Ok(close(stack, value, division)),
        Token::Operand(_) | Token::Bang | Token::Opening | Token::Stray => Ok(WalkPlace::Failed),
    }
}

/// Takes an operator after an operand, which becomes its left side.
fn push_left<'a>(
    stack: &mut Stack<'a>,
    operator: Operator,
    value: Option<TextValue<'a>>,
    division: Division,
) -> Result<WalkPlace<'a>, AllocError>
    ensures { IfOk result (λ next. state_seen next stack.new
        ≡ operator_step operator (reduction (values_by division) (level_of operator) (stack_seen stack.old)
        (value_seen value.entry))) }
{
    let left = stack.reduce(operator.level(), value, division);
    stack.push(Frame::Left(operator, left))?;
    Ok(WalkPlace::Wanting)
}

/// Takes a closing parenthesis after an operand.
fn close<'a>(
    stack: &mut Stack<'a>,
    value: Option<TextValue<'a>>,
    division: Division,
) -> WalkPlace<'a>
    ensures { state_seen result stack.new
        ≡ closing_step (values_by division) (reduction (values_by division) 0 (stack_seen stack.old) (value_seen value.entry)) }
{
    let inner = stack.reduce(0, value, division);
    match stack.pop() {
        Some(Frame::Paren) => WalkPlace::Holding(inner),
        _ => WalkPlace::Failed,
    }
}

/// The value at the end of the tokens, if no parenthesis is open.
#[tactic(auto, unfolding(crate::specs::Walk::ending))]
fn finish<'a>(
    stack: &mut Stack<'a>,
    place: WalkPlace<'a>,
    division: Division,
) -> Option<TextValue<'a>>
    ensures { value_seen result
        ≡ unwrap_or (ending (values_by division) (state_seen place.entry stack.old)) None }
{
    match place {
        WalkPlace::Holding(value) => finish_held(stack, value, division),
        WalkPlace::Wanting | WalkPlace::Failed => None,
    }
}

fn finish_held<'a>(
    stack: &mut Stack<'a>,
    value: Option<TextValue<'a>>,
    division: Division,
) -> Option<TextValue<'a>>
    ensures { value_seen result
        ≡ unwrap_or (whole_of (reduction (values_by division) 0 (stack_seen stack.old) (value_seen value.entry))) None }
{
    let value = stack.reduce(0, value, division);
    match stack.pop() {
        Some(_) => None,
        None => value,
    }
}
