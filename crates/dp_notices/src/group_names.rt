//! Expands names with groups by the global variables, as Asterisk does when it reads the line of an entry or of an include.
ghost use Rattle.std.specs.Prelude.{◌≡◌, ◌==◌, ◌&&◌, ◌++◌, ◌∷◌, [], None, true, false, not, IfOk, OnOk};
ghost use Rattle.std.specs.FinMap.{empty};
ghost use Rattle.std.specs.List.{list_any};
ghost use Rattle.std.specs.Option.{option_map, option_to_list};
ghost use Rattle.dp_conf.specs.Borrowed.{lines_now};
ghost use Rattle.dp_conf.specs.Cut.{begins_with, cut_once};
ghost use Rattle.dp_conf.specs.Lines.{item_of};
ghost use Rattle.dp_plan.specs.Loaded.{plan_and_notes};
ghost use Rattle.dp_notices.specs.GroupNames as spec;

use crate::line_notices::NoticeAt;
use crate::loading::copy_faultless;
use crate::notice::{Notice, NoticeFault};
use dp_conf::{ConfFault, Line, NoMemory, Text, cut_once, escape, read_line, same_word, trim};
use dp_files::{LineNote, LineText, MadeLine, has_group, text_of};
use dp_machine::expand_by_globals;
use dp_plan::{Dialplan, GlobalVariable, LoadFault, PlanKind, Word};
use dp_vars::{Expanded, Globals};
use dp_wide::WideFunctions;
use std::alloc::Global;

/// What a line becomes.
#[derive(Drop)]
pub(crate) enum GroupNaming {
    /// The line has no name with a group.
    Stands,
    /// The line with the expanded name.
    Renamed(LineText),
    /// The line is left out, with this notice.
    LeftOut(Notice),
}

/// The value of a pair, cut at its first comma.
#[derive(Clone, Copy)]
struct NameCut<'a> {
    name: &'a [u8],
    after: Option<&'a [u8]>,
}

/// Lines, and the notices on the names in them.
#[derive(Drop)]
pub(crate) struct NamedLines {
    pub(crate) lines: Vec<MadeLine>,
    pub(crate) notices: Vec<NoticeAt>,
}

/// The item of a line of a section, given its content. The result is `None` if the line has no item or a fault.
pub(crate) fn read_item(content: &[u8]) -> Result<Option<Line<'_>>, NoMemory>
    ensures { IfOk result (λ item. lines_now item ≡ spec.items_of (item_of true 0 content.now)) }
{
    match read_line(0, true, content) {
        Ok(item) => Ok(item),
        Err(ConfFault::NoMemory) => Err(NoMemory),
        Err(ConfFault::At { .. }) => Ok(None),
    }
}

/// Whether a section with this name is a context.
fn is_context(name: &[u8]) -> bool
    ensures { result ≡ spec.is_context name.now }
{
    !same_word(name, b"general") && !same_word(name, b"globals")
}

/// Whether the lines after an item belong to a context, given whether the item does.
fn within_after(within: bool, item: Option<Line<'_>>) -> bool
    ensures { result ≡ spec.within_after within (lines_now item.entry) }
{
    match item {
        Some(Line::Header { name, .. }) => is_context(name),
        Some(Line::Pair { .. }) => within,
        None => within,
    }
}

/// The name in the value of a pair, and what follows its comma.
fn cut_name(value: &[u8]) -> NameCut<'_>
    ensures name { result.name.now ≡ spec.name_in value.now (cut_once 44 value.now) }
    ensures after { spec.comma_before (option_map (λ after. after.now) result.after) ≡ spec.after_name (cut_once 44 value.now) }
{
    match cut_once(value, b',') {
        None => NameCut {
            name: value,
            after: None,
        },
        Some((name, after)) => NameCut {
            name: trim(name),
            after: Some(after),
        },
    }
}

/// Whether a pair with this key has a name in its value: that of an extension, or that of an included context.
fn has_name(key: &[u8]) -> bool
    ensures { result ≡ spec.has_name key.now }
{
    same_word(key, b"exten") || same_word(key, b"include")
}

/// Whether a pair has a name with a group.
fn is_grouped(key: &[u8], value: &[u8]) -> bool
    ensures { result ≡ spec.is_grouped key.now value.now }
{
    has_name(key) && has_group(cut_name(value).name)
}

/// Whether the line of an item has a name with a group.
fn has_grouped(within: bool, item: Option<Line<'_>>) -> bool
    ensures { result ≡ spec.has_grouped within (lines_now item.entry) }
{
    match item {
        Some(Line::Pair { key, value, .. }) => within && is_grouped(key, value),
        Some(Line::Header { .. }) => false,
        None => false,
    }
}

/// The item of the text, as what a pass over lines needs of it: whether its name has a group, and whether the lines after it belong to a
/// context.
#[derive(Clone, Copy)]
struct Glance {
    is_grouped: bool,
    within: bool,
}

/// Whether a content begins as a header does.
fn begins_header(content: &[u8]) -> bool
    ensures { result ≡ begins_with 91 content.now }
{
    match content.first() {
        Some(byte) => *byte == b'[',
        None => false,
    }
}

/// Whether a content is not that of a header and has no `$`. It says nothing to a pass over lines.
fn is_passed(content: &[u8]) -> bool
    ensures { result ≡ (not (begins_with 91 content.now) && not (list_any (λ b. b == 36) content.now)) }
{
    !begins_header(content) && !content.contains(&b'$')
}

/// What the content of a line says to a pass over lines, given whether the line belongs to a context.
fn glance_in(within: bool, content: &[u8]) -> Result<Glance, NoMemory>
    ensures grouped { IfOk result (λ glance. glance.is_grouped ≡ spec.has_grouped within (spec.items_of (item_of true 0 content.now))) }
    ensures within { IfOk result (λ glance. glance.within ≡ spec.within_after within (spec.items_of (item_of true 0 content.now))) }
{
    // The search for a single byte is faster than reading the item.
    if is_passed(content) {
        return Ok(Glance {
            is_grouped: false,
            within,
        });
    }
    let item = read_item(content)?;
    Ok(Glance {
        is_grouped: has_grouped(within, item),
        within: within_after(within, item),
    })
}

/// What a line says to a pass over lines, given whether it belongs to a context.
fn glance_at(alloc: Global, within: bool, text: &LineText) -> Result<Glance, NoMemory>
    ensures grouped { IfOk result (λ glance. glance.is_grouped ≡ spec.has_grouped within (spec.items_in text.now)) }
    ensures within { IfOk result (λ glance. glance.within ≡ spec.within_after within (spec.items_in text.now)) }
{
    let content = text.content(alloc)?;
    glance_in(within, content.bytes())
}

/// Whether one of the lines has a name with a group.
fn any_grouped(alloc: Global, lines: &[MadeLine]) -> Result<bool, NoMemory>
    ensures { IfOk result (λ any. any ≡ spec.any_grouped false lines.now) }
{
    let mut within = false;
    for line in lines {
        let glance = glance_at(alloc, within, &line.text)?;
        if glance.is_grouped {
            return Ok(true);
        }
        within = glance.within;
    }
    Ok(false)
}

/// Whether a byte ends a name in a line: a comma or a line feed.
fn is_ending(byte: u8) -> bool
    ensures { result ≡ spec.is_ending byte }
{
    byte == b',' || byte == b'\n'
}

/// Whether such a byte is in a name.
fn has_ending(name: &[u8]) -> bool
    ensures { result ≡ spec.has_ending name.now }
{
    name.iter().any(|byte| is_ending(*byte))
}

/// Whether a line can have this name: no comma and no line feed is in it, and no blank is at its ends.
fn is_writable(name: &[u8]) -> bool
    ensures { result ≡ spec.is_writable name.now }
{
    !has_ending(name) && trim(name).len() == name.len()
}

/// A text, expanded by the global variables, if everything in it is known.
#[tactic(auto, unfolding(crate::specs::GroupNames::known_text))]
fn known_text(alloc: Global, globals: &Globals, text: &[u8]) -> Result<Option<Vec<u8>>, NoMemory>
    ensures { IfOk result (λ known. option_map (λ bytes. bytes.items) known ≡ spec.known_text globals.now text.now) }
{
    let expanded = expand_by_globals::<WideFunctions>(alloc, globals, text)?;
    let Expanded { bytes, unknown } = expanded;
    match unknown {
        Some(_) => Ok(None),
        None => Ok(Some(bytes)),
    }
}

/// A name, expanded by the global variables, if everything in these and in it is known.
fn known_name(
    alloc: Global,
    globals: &Option<Globals>,
    name: &[u8],
) -> Result<Option<Vec<u8>>, NoMemory>
    ensures { IfOk result (λ known. option_map (λ bytes. bytes.items) known ≡ spec.known_name globals.now name.now) }
{
    match globals {
        None => Ok(None),
        Some(globals) => known_text(alloc, globals, name),
    }
}

/// Adds what follows the name of a line, from its comma on.
fn push_after(content: &mut Vec<u8>, after: Option<&[u8]>) -> Result<(), NoMemory>
    ensures { OnOk result (content.new.items ≡ content.old.items ++ spec.comma_before (option_map (λ after. after.now) after.entry)) }
{
    match after {
        None => Ok(()),
        Some(after) => {
            content.push(b',')?;
            content.extend_from_slice(after)?;
            Ok(())
        }
    }
}

/// The line with a key, a name and what follows the name.
fn named_text(
    alloc: Global,
    key: &[u8],
    name: &[u8],
    after: Option<&[u8]>,
) -> Result<LineText, NoMemory>
    ensures { IfOk result (λ text. text
        ≡ spec.named_text key.now name.now (spec.comma_before (option_map (λ after. after.now) after.entry))) }
{
    let mut content = Vec::from_slice(alloc, key)?;
    content.extend_from_slice(b" => ")?;
    content.extend_from_slice(name)?;
    push_after(&mut content, after)?;
    let text = escape(alloc, &content)?;
    Ok(LineText::new(Text::new(text)))
}

/// The notice of a line that is left out because of its expanded name, if it is: no line can have the name, or there is a caller's number
/// after it.
fn name_notice(key: &[u8], name: &[u8]) -> Option<Notice>
    ensures { result ≡ spec.name_notice key.now name.now }
{
    if !is_writable(name) {
        return Some(unknown_name());
    }
    if same_word(key, b"exten") && name.contains(&b'/') {
        return Some(Notice::Read(LineNote::CallerId));
    }
    None
}

/// The fault of a name that is not known before a call.
fn unknown_name() -> Notice
    ensures { result ≡ spec.unknown_name }
{
    Notice::Fault(NoticeFault::Plan(PlanKind::LeftOut(Word::Variable)))
}

/// What a pair becomes, given its key, its expanded name and what follows the name.
fn naming_with(
    alloc: Global,
    key: &[u8],
    name: &[u8],
    after: Option<&[u8]>,
) -> Result<GroupNaming, NoMemory>
    ensures { IfOk result (λ naming. naming
        ≡ spec.naming_with key.now name.now (spec.comma_before (option_map (λ after. after.now) after.entry))) }
{
    match name_notice(key, name) {
        Some(notice) => Ok(GroupNaming::LeftOut(notice)),
        None => {
            let text = named_text(alloc, key, name, after)?;
            Ok(GroupNaming::Renamed(text))
        }
    }
}

/// What a pair of a context becomes, given its name and what follows it.
fn naming_of_cut(
    alloc: Global,
    globals: &Option<Globals>,
    key: &[u8],
    cut: NameCut<'_>,
) -> Result<GroupNaming, NoMemory>
    ensures { IfOk result (λ naming. naming ≡ spec.naming_by key.now (spec.known_name globals.now cut.entry.name.now)
        (spec.comma_before (option_map (λ after. after.now) cut.entry.after))) }
{
    match known_name(alloc, globals, cut.name)? {
        None => Ok(GroupNaming::LeftOut(unknown_name())),
        Some(name) => naming_with(alloc, key, &name, cut.after),
    }
}

/// What a line `same` becomes, given the notice with which its extension is left out, if it is.
fn naming_of_same(extension: Option<Notice>) -> GroupNaming
    ensures { result ≡ spec.naming_of_same extension }
{
    match extension {
        None => GroupNaming::Stands,
        Some(notice) => GroupNaming::LeftOut(notice),
    }
}

/// What a pair of a context becomes, given that notice for the last extension before it.
fn naming_of_pair(
    alloc: Global,
    globals: &Option<Globals>,
    extension: Option<Notice>,
    key: &[u8],
    value: &[u8],
) -> Result<GroupNaming, NoMemory>
    ensures { IfOk result (λ naming. naming ≡ spec.naming_of_pair globals.now extension key.now value.now) }
{
    if same_word(key, b"same") {
        return Ok(naming_of_same(extension));
    }
    if is_grouped(key, value) {
        return naming_of_cut(alloc, globals, key, cut_name(value));
    }
    Ok(GroupNaming::Stands)
}

/// What the line of an item becomes, given whether it belongs to a context, and the notice for the last extension before it.
fn naming_of(
    alloc: Global,
    globals: &Option<Globals>,
    within: bool,
    extension: Option<Notice>,
    item: Option<Line<'_>>,
) -> Result<GroupNaming, NoMemory>
    ensures { IfOk result (λ naming. naming ≡ spec.naming_of globals.now within extension (lines_now item.entry)) }
{
    match item {
        Some(Line::Pair { key, value, .. }) if within => {
            naming_of_pair(alloc, globals, extension, key, value)
        }
        _ => Ok(GroupNaming::Stands),
    }
}

/// The notice of a line that is left out.
fn notice_in(naming: &GroupNaming) -> Option<Notice>
    ensures { result ≡ spec.notice_in naming.now }
{
    match naming {
        GroupNaming::Stands => None,
        GroupNaming::Renamed(_) => None,
        GroupNaming::LeftOut(notice) => Some(*notice),
    }
}

/// The notice for the last extension before the lines after an item, given the one before it and what its line becomes.
fn extension_after(
    extension: Option<Notice>,
    naming: &GroupNaming,
    item: Option<Line<'_>>,
) -> Option<Notice>
    ensures { result ≡ spec.extension_after extension naming.now (lines_now item.entry) }
{
    match item {
        Some(Line::Header { .. }) => None,
        Some(Line::Pair { key, .. }) if same_word(key, b"exten") => notice_in(naming),
        Some(Line::Pair { .. }) => extension,
        None => extension,
    }
}

/// What a line becomes, whether the lines after it belong to a context, and the notice for the last extension before them.
#[derive(Drop)]
struct LineNaming {
    naming: GroupNaming,
    within: bool,
    extension: Option<Notice>,
}

/// What a line becomes, given whether it belongs to a context, and the notice for the last extension before it.
fn naming_of_line(
    alloc: Global,
    globals: &Option<Globals>,
    within: bool,
    extension: Option<Notice>,
    text: &LineText,
) -> Result<LineNaming, NoMemory>
    ensures naming { IfOk result (λ line. line.naming ≡ spec.naming_of globals.now within extension (spec.items_in text.now)) }
    ensures within { IfOk result (λ line. line.within ≡ spec.within_after within (spec.items_in text.now)) }
    ensures extension { IfOk result (λ line. line.extension
        ≡ spec.extension_after extension (spec.naming_of globals.now within extension (spec.items_in text.now)) (spec.items_in text.now)) }
{
    let content = text.content(alloc)?;
    let item = read_item(content.bytes())?;
    let naming = naming_of(alloc, globals, within, extension, item)?;
    let extension = extension_after(extension, &naming, item);
    Ok(LineNaming {
        naming,
        within: within_after(within, item),
        extension,
    })
}

/// The notice on a line that becomes this.
fn notice_by(naming: &GroupNaming, source: usize) -> Option<NoticeAt>
    ensures { option_to_list result ≡ spec.notice_by naming.now source }
{
    match naming {
        GroupNaming::Stands => None,
        GroupNaming::Renamed(_) => None,
        GroupNaming::LeftOut(notice) => Some(NoticeAt {
            source,
            notice: *notice,
        }),
    }
}

/// A line after it becomes this.
fn line_by(alloc: Global, naming: GroupNaming, line: MadeLine) -> Result<MadeLine, NoMemory>
    ensures { IfOk result (λ named. named ≡ spec.line_by naming line) }
{
    match naming {
        GroupNaming::Stands => Ok(line),
        GroupNaming::Renamed(text) => Ok(MadeLine {
            source: line.source,
            text,
        }),
        GroupNaming::LeftOut(_) => {
            let text = Text::copy_of(alloc, b"")?;
            Ok(MadeLine {
                source: line.source,
                text: LineText::new(text),
            })
        }
    }
}

/// Adds a notice, if there is one.
fn push_notice(notices: &mut Vec<NoticeAt>, notice: Option<NoticeAt>) -> Result<(), NoMemory>
    ensures { OnOk result (notices.new.items ≡ notices.old.items ++ option_to_list notice) }
{
    match notice {
        None => Ok(()),
        Some(notice) => {
            notices.push(notice)?;
            Ok(())
        }
    }
}

/// Adds a line that becomes this, and the notice on it.
fn push_line(
    alloc: Global,
    named: &mut NamedLines,
    naming: GroupNaming,
    line: MadeLine,
) -> Result<(), NoMemory>
    ensures lines { OnOk result (named.new.lines.items ≡ named.old.lines.items ++ spec.line_by naming line ∷ []) }
    ensures notices { OnOk result (named.new.notices.items ≡ named.old.notices.items ++ spec.notice_by naming line.source) }
{
    let notice = notice_by(&naming, line.source);
    push_notice(&mut named.notices, notice)?;
    let line = line_by(alloc, naming, line)?;
    named.lines.push(line)?;
    Ok(())
}

/// Lines with their names expanded, and the notices on the names.
fn name_lines(
    alloc: Global,
    globals: &Option<Globals>,
    lines: Vec<MadeLine>,
) -> Result<NamedLines, NoMemory>
    ensures lines { IfOk result (λ named. named.lines.items ≡ spec.lines_after globals.now false None lines.items) }
    ensures notices { IfOk result (λ named. named.notices.items ≡ spec.notices_after globals.now false None lines.items) }
{
    let mut named = NamedLines {
        lines: Vec::new(alloc),
        notices: Vec::new(alloc),
    };
    let mut within = false;
    let mut extension = None;
    for line in lines {
        let becomes = naming_of_line(alloc, globals, within, extension, &line.text)?;
        within = becomes.within;
        extension = becomes.extension;
        push_line(alloc, &mut named, becomes.naming, line)?;
    }
    Ok(named)
}

/// Global variables, each expanded with those set before it, if everything in their values is known.
fn known_globals(alloc: Global, variables: &[GlobalVariable]) -> Result<Option<Globals>, NoMemory>
    ensures { IfOk result (λ globals. globals ≡ spec.known_after empty variables.now) }
{
    let mut globals = Globals::new(alloc);
    for variable in variables {
        match known_text(alloc, &globals, variable.value.bytes())? {
            None => return Ok(None),
            Some(value) => globals.put(alloc, variable.name.bytes(), &value)?,
        }
    }
    Ok(Some(globals))
}

/// The global variables of a text, if everything in their values is known. There are none if the text does not load.
fn globals_of_text(alloc: Global, text: &[u8]) -> Result<Option<Globals>, NoMemory>
    ensures { IfOk result (λ globals. globals ≡ spec.globals_in (plan_and_notes text.now)) }
{
    match Dialplan::load(alloc, text) {
        Ok((plan, _)) => known_globals(alloc, plan.globals()),
        Err(LoadFault::NoMemory) => Err(NoMemory),
        Err(_) => Ok(Some(Globals::new(alloc))),
    }
}

/// The same for lines, without those that have a fault.
#[tactic(auto, unfolding(crate::specs::GroupNames::globals_of_lines))]
fn globals_of_lines(alloc: Global, lines: &[MadeLine]) -> Result<Option<Globals>, NoMemory>
    ensures { IfOk result (λ globals. globals ≡ spec.globals_of_lines lines.now) }
{
    let text = text_of(alloc, lines)?;
    let faultless = copy_faultless(alloc, lines, &text)?;
    let text = text_of(alloc, &faultless)?;
    globals_of_text(alloc, &text)
}

/// The lines of a text, with their names expanded by its global variables, and the notices on the names. If no name has a group, the text is
/// not loaded.
#[tactic(auto, using(crate::proofs::PlainLemmas::names_stand, crate::proofs::PlainLemmas::no_name_notices), unfolding(crate::specs::GroupNames::named_lines, crate::specs::GroupNames::name_notices))]
pub(crate) fn expand_names(alloc: Global, lines: Vec<MadeLine>) -> Result<NamedLines, NoMemory>
    ensures lines { IfOk result (λ named. named.lines.items ≡ spec.named_lines lines.items) }
    ensures notices { IfOk result (λ named. named.notices.items ≡ spec.name_notices lines.items) }
{
    if any_grouped(alloc, &lines)? {
        let globals = globals_of_lines(alloc, &lines)?;
        return name_lines(alloc, &globals, lines);
    }
    Ok(NamedLines {
        lines,
        notices: Vec::new(alloc),
    })
}
