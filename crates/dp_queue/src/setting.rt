//! The settings in a queue's section, given its keys, after the Asterisk documentation's page on the file of queues.
ghost use Rattle.std.specs.Prelude.{◌≡◌};
ghost use Rattle.dp_conf.specs.Answers.{Answers};
ghost use Rattle.dp_queue.specs.Faults as faults;
ghost use Rattle.dp_queue.specs.Keys as spec;
ghost use Rattle.dp_queue.specs.steps.Loading.{line_read, line_reason};

use crate::fault::QueueKind;
use crate::settings::{EmptyRule, Settings, Strategy};
use dp_conf::{FaultyLine, TakeFault, Text, read_number, same_word};
use std::alloc::Global;

/// The greatest number in a file of queues.
const MOST_NUMBER: u32 = 2_147_483_647;

/// The setting of a pair in a queue's section.
#[derive(Drop)]
pub(crate) enum Setting {
    /// `strategy`.
    ChoosesBy(Strategy),
    /// `maxlen`.
    HoldsAtMost(u32),
    /// `joinempty`.
    JoinsBy(EmptyRule),
    /// `leavewhenempty`.
    LeavesBy(EmptyRule),
    /// `context`.
    DigitsIn(Text),
    /// Any other key.
    Ignored,
}

/// The fault of a line, at its number.
pub(crate) fn at_line<T: Drop>(
    line: usize,
    read: Result<T, QueueKind>,
) -> Result<T, TakeFault<QueueKind>>
    ensures { result ≡ line_read line read }
{
    match read {
        Ok(value) => Ok(value),
        Err(kind) => Err(TakeFault::Line(FaultyLine { line, kind })),
    }
}

/// The number, from 0 to 2,147,483,647, that a text writes.
pub(crate) fn read_limited(text: &[u8]) -> Result<u32, QueueKind>
    ensures { result ≡ spec.number_in text.now }
{
    match read_number(text) {
        None => Err(QueueKind::BadNumber),
        Some(number) => {
            if number > u64::from(MOST_NUMBER) {
                return Err(QueueKind::BadNumber);
            }
            Ok(number as u32)
        }
    }
}

/// Whether a strategy is one that this program does not support.
fn is_left_out(value: &[u8]) -> bool
    ensures { result ≡ spec.is_left_out value.now }
{
    same_word(value, b"random") || same_word(value, b"wrandom") || same_word(value, b"rrordered")
}

/// The strategy with a name, in any ASCII case.
fn read_strategy(value: &[u8]) -> Result<Strategy, QueueKind>
    ensures { result ≡ spec.strategy_of value.now }
{
    if same_word(value, b"ringall") {
        return Ok(Strategy::RingAll);
    }
    if same_word(value, b"linear") {
        return Ok(Strategy::Linear);
    }
    if same_word(value, b"leastrecent") {
        return Ok(Strategy::LeastRecent);
    }
    if same_word(value, b"fewestcalls") {
        return Ok(Strategy::FewestCalls);
    }
    if same_word(value, b"rrmemory") {
        return Ok(Strategy::RrMemory);
    }
    if is_left_out(value) {
        return Err(QueueKind::LeftOut);
    }
    Err(QueueKind::BadStrategy)
}

/// The rule that says when a queue is too empty, given a word in any ASCII case.
fn read_rule(value: &[u8]) -> Result<EmptyRule, QueueKind>
    ensures { result ≡ spec.rule_of value.now }
{
    if same_word(value, b"yes") {
        return Ok(EmptyRule::Yes);
    }
    if same_word(value, b"no") {
        return Ok(EmptyRule::No);
    }
    if same_word(value, b"strict") {
        return Ok(EmptyRule::Strict);
    }
    if same_word(value, b"loose") {
        return Ok(EmptyRule::Loose);
    }
    Err(QueueKind::LeftOut)
}

/// The setting of a pair in a queue's section. It allocates only for `context`.
#[tactic(auto, unfolding(crate::specs::Keys::setting_of))]
pub(crate) fn read_setting(
    alloc: Global,
    line: usize,
    key: &[u8],
    value: &[u8],
) -> Result<Setting, TakeFault<QueueKind>>
    ensures { Answers (λ setting. setting) line_reason result
        (faults.at_line line (spec.setting_of key.now value.now)) }
{
    if same_word(key, b"strategy") {
        let strategy = at_line(line, read_strategy(value))?;
        return Ok(Setting::ChoosesBy(strategy));
    }
    if same_word(key, b"maxlen") {
        let number = at_line(line, read_limited(value))?;
        return Ok(Setting::HoldsAtMost(number));
    }
    if same_word(key, b"joinempty") {
        let rule = at_line(line, read_rule(value))?;
        return Ok(Setting::JoinsBy(rule));
    }
    if same_word(key, b"leavewhenempty") {
        let rule = at_line(line, read_rule(value))?;
        return Ok(Setting::LeavesBy(rule));
    }
    if same_word(key, b"context") {
        let context = Text::copy_of(alloc, value)?;
        return Ok(Setting::DigitsIn(context));
    }
    Ok(Setting::Ignored)
}

/// The default settings of a queue.
pub(crate) fn usual_settings(alloc: Global) -> Settings
    ensures { result ≡ spec.usual }
{
    Settings {
        strategy: Strategy::RingAll,
        maxlen: 0,
        joinempty: EmptyRule::Yes,
        leavewhenempty: EmptyRule::No,
        context: Text::new(Vec::new(alloc)),
    }
}

/// Changes one of the settings.
pub(crate) fn put_setting(settings: &mut Settings, setting: Setting)
    ensures { settings.new ≡ spec.with_setting setting settings.old }
{
    match setting {
        Setting::ChoosesBy(strategy) => settings.strategy = strategy,
        Setting::HoldsAtMost(number) => settings.maxlen = number,
        Setting::JoinsBy(rule) => settings.joinempty = rule,
        Setting::LeavesBy(rule) => settings.leavewhenempty = rule,
        Setting::DigitsIn(context) => settings.context = context,
        Setting::Ignored => {}
    }
}
