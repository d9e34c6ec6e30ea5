//! The data with which the entries of a context are examined.
use crate::hidden_entries::Hidings;
use crate::labels::Naming;
use crate::spelling::Spelling;
use crate::unset_variables::SetNames;
use dp_plan::Text;
use indexmap::IndexSet;

/// What may name the labels of a dialplan, what the dialplan sets and what it hides.
#[derive(Clone, Copy)]
pub(crate) struct PlanKnowledge<'a> {
    pub(crate) naming: &'a Naming,
    pub(crate) set: &'a SetNames,
    pub(crate) hidden: &'a Hidings,
}

/// For one context, which of its entries have an entry with a greater or a lower priority in their extension, and the names that have
/// priority 1 in a context in its search order.
#[derive(Clone, Copy)]
pub(crate) struct Scene<'a> {
    pub(crate) greater: &'a [bool],
    pub(crate) lower: &'a [bool],
    pub(crate) firsts: &'a IndexSet<Spelling>,
    /// The context's name.
    pub(crate) context: &'a Text,
    pub(crate) known: PlanKnowledge<'a>,
}
