//! The labels that entries have taken.
ghost use Rattle.std.specs.Prelude.{◌≡◌, IfOk};
ghost use Rattle.dp_plan.specs.steps.Draft as spec;

use crate::shared_text::SharedText;
use dp_conf::NoMemory;

/// A label of the extension with a number. At most one entry has it.
#[derive(PartialEq, Eq, Hash, Drop)]
pub(crate) struct Label {
    extension: u32,
    label: SharedText,
}

/// A label, given the number of its extension.
pub(crate) fn label_of(number: u32, label: &SharedText) -> Result<Label, NoMemory>
    ensures { IfOk result (λ marked. marked ≡ spec.label_in number label.now) }
{
    let label = label.clone()?;
    Ok(Label {
        extension: number,
        label,
    })
}
