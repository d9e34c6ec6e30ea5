//! Where the channels of a claim may be.
ghost use Rattle.std.specs.Prelude.{◌≡◌, ℕ, List, Some, IfOk, IsTrue};
ghost use Rattle.dp_closed.specs.Reach.{FitsAny, areas_in, shapes_at};
ghost use Rattle.dp_pieces.specs.Pieces.{Fits};
ghost use Rattle.dp_pieces.specs.Shown.{shown_all};
ghost use Rattle.dp_plan.specs.Lookup.{number_of};
ghost use Rattle.dp_reach.specs.Areas.{Includes, area_at};

use dp_conf::{NoMemory, Text};
use dp_pieces::{Piece, is_within, known_text, may_fit};
use dp_plan::Dialplan;
use std::alloc::Global;

/// The shapes of the extensions that channels may have in each context, indexed by the contexts' numbers.
#[derive(Drop)]
pub struct ReachShapes {
    pub shapes: Vec<Vec<Vec<Piece>>>,
}

/// Whether each text of the shape is seen to be one of these shapes.
fn has_shape(shapes: &[Vec<Piece>], exten: &[Piece]) -> bool
    ensures { IsTrue result → (text : List ℕ) → Fits (shown_all exten.now) text → FitsAny shapes.now text }
{
    for shape in shapes {
        if is_within(exten, shape) {
            return true;
        }
    }
    false
}

impl ReachShapes {
    /// The shapes of the extensions that channels may have in the context with a number.
    pub fn shapes_at(&self, number: usize) -> &[Vec<Piece>]
        ensures { result.now ≡ shapes_at self.now.shapes.items number }
    {
        match self.shapes.get(number) {
            Some(shapes) => shapes,
            None => &[],
        }
    }

    /// Whether each extension of the shape is seen to be one of the context with this number.
    pub fn has(&self, number: usize, exten: &[Piece]) -> bool
        ensures { IsTrue result → (text : List ℕ) → Fits (shown_all exten.now) text → FitsAny (shapes_at self.now.shapes.items number) text }
    {
        match self.shapes.get(number) {
            Some(shapes) => has_shape(shapes, exten),
            None => false,
        }
    }

    /// Whether the context with this number and name has each extension of the shape, if it may be one of the contexts.
    fn has_in(&self, number: usize, name: &[u8], context: &[Piece], exten: &[Piece]) -> bool
        ensures { IsTrue result → Fits (shown_all context.now) name.now
            → (text : List ℕ) → Fits (shown_all exten.now) text → FitsAny (shapes_at self.now.shapes.items number) text }
    {
        !may_fit(context, name) || self.has(number, exten)
    }

    /// Whether each place of these shapes is seen to be in the reach, if the context may be any of the dialplan's.
    fn has_all(&self, plan: &Dialplan, context: &[Piece], exten: &[Piece]) -> bool
        ensures { IsTrue result → Includes plan.now (areas_in plan.now.contexts self.now.shapes.items) (area_at (shown_all context.now) (shown_all exten.now)) }
    {
        for (number, own) in plan.contexts().iter().enumerate() {
            if !self.has_in(number, own.name().bytes(), context, exten) {
                return false;
            }
        }
        true
    }

    /// Whether the context with this name has each extension of the shape, if the dialplan has such a context.
    fn has_known(&self, plan: &Dialplan, name: &Text, exten: &[Piece]) -> bool
        ensures { IsTrue result → (number : ℕ) → number_of plan.now name.now ≡ Some number
            → (text : List ℕ) → Fits (shown_all exten.now) text → FitsAny (shapes_at self.now.shapes.items number) text }
    {
        match plan.number_of(name) {
            Some(number) => self.has(number, exten),
            None => true,
        }
    }

    /// Whether each place of these shapes is seen to be in the reach, over the contexts of a dialplan. A place in a context that the
    /// dialplan lacks is in it, because nothing is found there. It fails only if memory runs out.
    pub fn includes(
        &self,
        alloc: Global,
        plan: &Dialplan,
        context: &[Piece],
        exten: &[Piece],
    ) -> Result<bool, NoMemory>
        ensures { IfOk result (λ yes. IsTrue yes
            → Includes plan.now (areas_in plan.now.contexts self.now.shapes.items) (area_at (shown_all context.now) (shown_all exten.now))) }
    {
        let known = known_text(alloc, context)?;
        let Some(bytes) = known else {
            return Ok(self.has_all(plan, context, exten));
        };
        let name = Text::new(bytes);
        Ok(self.has_known(plan, &name, exten))
    }
}
