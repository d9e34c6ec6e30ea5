//! The place of a channel, after the Asterisk documentation's page on dialplans.
ghost use Rattle.std.specs.Prelude.{◌≡◌, IfOk};

use crate::exten::Exten;
use dp_conf::{NoMemory, Text};

/// The place of a channel: a context, an extension as dialled, and a priority. The priority may be one above the
/// greatest priority of an entry, where no entry can be.
#[derive(Debug, PartialEq, Eq, Drop)]
pub struct Place {
    pub context: Text,
    pub exten: Exten,
    pub priority: u32,
}

impl Clone for Place {
    ghost is_clone = { λ place copy. copy ≡ place };

    fn clone(&self) -> Result<Self, NoMemory> {
        let context = self.context.clone()?;
        let exten = self.exten.clone()?;
        Ok(Place {
            context,
            exten,
            priority: self.priority,
        })
    }
}
