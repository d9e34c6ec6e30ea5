//! A dialplan as tries.
ghost use Rattle.std.specs.Prelude.{◌≡◌, ◌-◌, ◌^◌, ◌≤◌, min, false, is_some, sum_by, find, IfOk, MatchOption};
ghost use Rattle.std.specs.Option.{option_map};
ghost use Rattle.dp_lookup.specs.FoundEntry.{found_entry, found_label, goes_on_more};
ghost use Rattle.dp_pattern.specs.Dashes.{without_dashes};
ghost use Rattle.dp_plan.specs.Plan.{PlanOf};
ghost use Rattle.dp_trie.specs.Asked.{is_more, wants, is_asked, has_label, hit_of};
ghost use Rattle.dp_trie.specs.Entered.{entered_count, entered_first};
ghost use Rattle.dp_trie.specs.Known.{Keeps, FindsPattern, class_count, kept_at, nodes_at, most_nodes, found_first};
ghost use Rattle.dp_trie.specs.declared.entry_question.EntryQuestion.TheVariants.{Priority};

use crate::context_table::ContextTable;
use crate::digits::Digits;
use crate::entry_question::EntryQuestion;
use crate::walk::Counted;
use dp_lookup::{Dialplan, EntryId, NoMemory, SearchOrder};
use std::alloc::Global;
use std::marker::Model;

/// A dialplan as tries: each of its contexts has its plain names in order, its patterns as a tree, and a table of labels.
///
/// A contract sees it as the data kept of the dialplan from which it was built: for each context its entries, each with the meaning of its
/// name, its priority, its label and its number, in the order in which a look-up tries them; and the number of nodes of its tree.
pub struct Trie {
    tables: Vec<ContextTable>,
}

impl Drop for Trie {
    fn drop(self) {
        let Trie { tables: _ } = self;
    }
}

impl Model for Trie {
    ghost use Rattle.std.specs.Prelude.{List};
    ghost use Rattle.dp_trie.specs.Known.{KeptContext};

    ghost Value = { List KeptContext };

    ghost view = { λ trie. trie.tables.items };
}

/// The first entry of the context with a number that the question asks for; none if there is no such context.
#[inline(always)]
fn find_at(
    tables: &[ContextTable],
    number: usize,
    question: EntryQuestion,
    digits: &Digits<'_>,
) -> Counted
    ensures hit { result.hit ≡ option_map hit_of
        (find (is_asked (is_more question) (wants question) (without_dashes digits.now.text.now)) (kept_at tables.now number)) }
    ensures count { result.count ≡ entered_count (is_more question) (wants question) (without_dashes digits.now.text.now)
        (kept_at tables.now number) }
    ensures most { result.count ≤ nodes_at tables.now number }
    ensures least { MatchOption
        (find (is_asked (is_more question) (wants question) (without_dashes digits.now.text.now)) (kept_at tables.now number))
        (Unit {0}) (λ known. class_count known.name ≤ result.count) }
{
    match tables.get(number) {
        Some(table) => table.find(question, digits),
        None => Counted {
            hit: None,
            count: 0,
        },
    }
}

/// The first entry that the question asks for, in the first of the contexts with these numbers that has such an entry.
#[inline(always)]
fn find_first(
    tables: &[ContextTable],
    order: &[usize],
    question: EntryQuestion,
    digits: &Digits<'_>,
) -> Counted
    ensures hit { result.hit ≡ option_map hit_of
        (found_first tables.now (is_asked (is_more question) (wants question) (without_dashes digits.now.text.now)) order.now) }
    ensures count { result.count ≡ min (entered_first tables.now (is_more question) (wants question)
        (without_dashes digits.now.text.now) order.now) (2 ^ 64 - 1) }
    ensures most { result.count ≤ sum_by (nodes_at tables.now) order.now }
    ensures least { MatchOption
        (found_first tables.now (is_asked (is_more question) (wants question) (without_dashes digits.now.text.now)) order.now)
        (Unit {0}) (λ known. class_count known.name ≤ result.count) }
{
    let mut count: usize = 0;
    for number in order {
        let found = find_at(tables, *number, question, digits);
        count = count.saturating_add(found.count);
        if found.hit.is_some() {
            return Counted {
                hit: found.hit,
                count,
            };
        }
    }
    Counted { hit: None, count }
}

/// The same, given the text.
#[inline(always)]
fn look_up(
    tables: &[ContextTable],
    order: &[usize],
    question: EntryQuestion,
    text: &[u8],
) -> Counted
    ensures hit { result.hit ≡ option_map hit_of
        (found_first tables.now (is_asked (is_more question) (wants question) (without_dashes text.now)) order.now) }
    ensures count { result.count ≡ min (entered_first tables.now (is_more question) (wants question)
        (without_dashes text.now) order.now) (2 ^ 64 - 1) }
    ensures most { result.count ≤ sum_by (nodes_at tables.now) order.now }
    ensures least { MatchOption
        (found_first tables.now (is_asked (is_more question) (wants question) (without_dashes text.now)) order.now)
        (Unit {0}) (λ known. class_count known.name ≤ result.count) }
{
    find_first(tables, order, question, &Digits::of(text))
}

/// The priority of the first entry of the context with a number that matches and has the label; none if there is no such context.
fn label_at(
    tables: &[ContextTable],
    number: usize,
    label: &[u8],
    digits: &Digits<'_>,
) -> Option<u32>
    ensures { result ≡ option_map (λ known. known.priority)
        (find (is_asked false (has_label label.now) (without_dashes digits.now.text.now)) (kept_at tables.now number)) }
{
    match tables.get(number) {
        Some(table) => table.find_label(label, digits),
        None => None,
    }
}

/// The priority of the first entry that matches and has the label, in the first of the contexts with these numbers that has such an entry.
fn first_label(
    tables: &[ContextTable],
    order: &[usize],
    label: &[u8],
    digits: &Digits<'_>,
) -> Option<u32>
    ensures { result ≡ option_map (λ known. known.priority)
        (found_first tables.now (is_asked false (has_label label.now) (without_dashes digits.now.text.now)) order.now) }
{
    for number in order {
        let found = label_at(tables, *number, label, digits);
        if found.is_some() {
            return found;
        }
    }
    None
}

/// The same, given the text.
fn look_up_label(tables: &[ContextTable], order: &[usize], label: &[u8], text: &[u8]) -> Option<u32>
    ensures { result ≡ option_map (λ known. known.priority)
        (found_first tables.now (is_asked false (has_label label.now) (without_dashes text.now)) order.now) }
{
    first_label(tables, order, label, &Digits::of(text))
}

impl Trie {
    /// The tries of a dialplan.
    pub fn build(alloc: Global, plan: &Dialplan) -> Result<Self, NoMemory>
        ensures { IfOk result (λ trie. Keeps plan.now trie) }
    {
        let count = plan.contexts().len();
        let mut tables = Vec::with_capacity(alloc, count)?;
        for number in 0..count {
            let table = ContextTable::build(alloc, plan, number)?;
            tables.push(table)?;
        }
        Ok(Trie { tables })
    }

    /// The number of nodes of the tree of the context with this number; 0 if there is no such context. It is at most 1 plus, for each entry
    /// with a pattern, the number of its classes plus 1.
    pub fn nodes(&self, context: usize) -> usize
        ensures value { result ≡ nodes_at self.now context }
        ensures most { result ≤ most_nodes (kept_at self.now context) }
    {
        match self.tables.get(context) {
            Some(table) => table.nodes(),
            None => 0,
        }
    }

    /// What `find_counted` gives, in the contexts with these numbers.
    #[inline(always)]
    fn counted_in(&self, contexts: &[usize], text: &[u8], priority: u32) -> (Option<EntryId>, usize)
        ensures found { (plan : PlanOf) → Keeps plan self.now
            → result.0 ≡ found_entry plan contexts.now text.now priority }
        ensures count { result.1 ≡ min (entered_first self.now false (wants (Priority priority)) (without_dashes text.now)
            contexts.now) (2 ^ 64 - 1) }
        ensures most { result.1 ≤ sum_by (nodes_at self.now) contexts.now }
        ensures least { (plan : PlanOf) → Keeps plan self.now → FindsPattern plan result.0 result.1 }
    {
        let found = look_up(
            &self.tables,
            contexts,
            EntryQuestion::Priority(priority),
            text,
        );
        (found.hit, found.count)
    }

    /// The entry of the order's contexts that matches the dialled text and has the priority, as `dp_lookup::find` gives it, and the number
    /// of nodes that were entered. Each entry into a node raises that count by one, in each of the contexts up to the one that answers. The
    /// count stops at 18,446,744,073,709,551,615. It never allocates.
    pub fn find_counted(
        &self,
        order: &SearchOrder,
        text: &[u8],
        priority: u32,
    ) -> (Option<EntryId>, usize)
        ensures found { (plan : PlanOf) → Keeps plan self.now
            → result.0 ≡ found_entry plan order.now.contexts text.now priority }
        ensures count { result.1 ≡ min (entered_first self.now false (wants (Priority priority)) (without_dashes text.now)
            order.now.contexts) (2 ^ 64 - 1) }
        ensures most { result.1 ≤ sum_by (nodes_at self.now) order.now.contexts }
        ensures least { (plan : PlanOf) → Keeps plan self.now → FindsPattern plan result.0 result.1 }
    {
        self.counted_in(order.contexts(), text, priority)
    }

    /// The entry of the order's contexts that matches the dialled text and has the priority, as `dp_lookup::find` gives
    /// it. It never allocates.
    pub fn find(&self, order: &SearchOrder, text: &[u8], priority: u32) -> Option<EntryId>
        ensures { (plan : PlanOf) → Keeps plan self.now
            → result ≡ found_entry plan order.now.contexts text.now priority }
    {
        self.find_in(order.contexts(), text, priority)
    }

    /// The same in the contexts with these numbers.
    #[inline(always)]
    pub fn find_in(&self, contexts: &[usize], text: &[u8], priority: u32) -> Option<EntryId>
        ensures { (plan : PlanOf) → Keeps plan self.now → result ≡ found_entry plan contexts.now text.now priority }
    {
        let (found, _count) = self.counted_in(contexts, text, priority);
        found
    }

    /// The priority of the entry of the order's contexts that matches the dialled text and has the label, as
    /// `dp_lookup::find_label` gives it. It never allocates.
    pub fn find_label(&self, order: &SearchOrder, text: &[u8], label: &[u8]) -> Option<u32>
        ensures { (plan : PlanOf) → Keeps plan self.now
            → result ≡ found_label plan order.now.contexts text.now label.now }
    {
        self.find_label_in(order.contexts(), text, label)
    }

    /// The same in the contexts with these numbers.
    pub fn find_label_in(&self, contexts: &[usize], text: &[u8], label: &[u8]) -> Option<u32>
        ensures { (plan : PlanOf) → Keeps plan self.now → result ≡ found_label plan contexts.now text.now label.now }
    {
        look_up_label(&self.tables, contexts, label, text)
    }

    /// Whether some ending of one or more bytes other than `-` makes the dialled text match an entry of priority 1 whose
    /// name does not end with `!`, as `dp_lookup::could_be_more` says. It never allocates.
    pub fn more(&self, order: &SearchOrder, text: &[u8]) -> bool
        ensures { (plan : PlanOf) → Keeps plan self.now → result ≡ goes_on_more plan order.now.contexts text.now }
    {
        self.more_in(order.contexts(), text)
    }

    /// The same in the contexts with these numbers.
    pub fn more_in(&self, contexts: &[usize], text: &[u8]) -> bool
        ensures { (plan : PlanOf) → Keeps plan self.now → result ≡ goes_on_more plan contexts.now text.now }
    {
        let found = look_up(&self.tables, contexts, EntryQuestion::More, text);
        found.hit.is_some()
    }
}
