//! What the table by another author knows of its applications.
ghost use Rattle.std.specs.Prelude.{◌≡◌};

use crate::own_table::OwnApps;
use dp_app::KnownTable;
use dp_conf::{NoMemory, same_word};
use dp_vars::{Counts, Scope, is_set};
use std::alloc::Global;

impl KnownTable for OwnApps {
    ghost use Rattle.dp_own_table.specs.OwnKnowledge.{own_knowledge, own_overlooks};

    ghost knowledge = { own_knowledge };

    ghost overlooks = { own_overlooks };

    fn looks_at_arguments(name: &[u8]) -> bool {
        same_word(name, b"Ping")
    }

    fn unknown_need<B, C: Counts>(
        alloc: Global,
        scope: &Scope<'_, B, C>,
        name: &[u8],
        arguments: &[u8],
    ) -> Result<Vec<u8>, NoMemory> {
        if same_word(name, b"Ping") && arguments == b"?".as_slice() && !is_set(scope, b"PINGS") {
            return Vec::from_slice(alloc, b"PINGS");
        }
        Ok(Vec::new(alloc))
    }
}
