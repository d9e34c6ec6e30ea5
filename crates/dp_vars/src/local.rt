//! The initial locals of a frame.

use crate::local_name::LocalName;
use dp_conf::Text;

/// The name of a local and its value.
#[derive(Drop)]
pub struct Local {
    pub name: LocalName,
    pub value: Text,
}
