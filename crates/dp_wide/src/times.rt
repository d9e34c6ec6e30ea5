//! Moments, and ranges of times, after the Asterisk documentation's pages on time conditions.
ghost use Rattle.std.specs.Prelude.{◌≡◌, ◌≤◌, ◌<◌, ◌==◌, IfSome, length, position};
ghost use Rattle.std.specs.List.{list_any, slice_split};
ghost use Rattle.dp_conf.specs.Blanks.{trim};
ghost use Rattle.dp_conf.specs.Cut.{cut_once};
ghost use Rattle.dp_conf.specs.Words.{same_word};
ghost use Rattle.dp_wide.specs.Times as spec;
ghost use Rattle.dp_wide.specs.declared.times.Measure.TheVariants as measures;

use dp_conf::{cut_once, read_number, same_word, trim};

/// A minute of a day, with the weekday that is given for it. The fields of a moment are a choice of this program.
#[derive(Clone, Copy)]
pub struct Moment {
    /// 0 to 6, where 0 is Sunday.
    pub weekday: u8,
    pub year: u16,
    /// 1 to 12.
    pub month: u8,
    pub day: u8,
    pub hour: u8,
    pub minute: u8,
}

/// A time of the day.
#[derive(Clone, Copy)]
struct Clock {
    hour: u8,
    minute: u8,
}

/// A day of a year.
#[derive(Clone, Copy)]
struct Date {
    year: u16,
    month: u8,
    day: u8,
}

/// The measures of ranges.
#[derive(Clone, Copy)]
enum Measure {
    Time,
    Weekday,
    Day,
    Month,
}

/// A range of values, which wraps around if the last is before the first.
#[derive(Clone, Copy)]
struct RoundRange {
    first: u16,
    last: u16,
}

/// The names of the weekdays, in the order of a week.
const WEEKDAYS: [&[u8]; 7] = [b"sun", b"mon", b"tue", b"wed", b"thu", b"fri", b"sat"];

/// The names of the months, in the order of a year.
const MONTHS: [&[u8]; 12] = [
    b"jan", b"feb", b"mar", b"apr", b"may", b"jun", b"jul", b"aug", b"sep", b"oct", b"nov", b"dec",
];

/// The place of a text in a list of names, in any case.
fn place_of(names: &[&[u8]], text: &[u8]) -> Option<usize>
    ensures place { result ≡ position (λ name. same_word name.now text.now) names.now }
    ensures within { IfSome result (λ place. place < length names.now) }
{
    names.iter().position(|name| same_word(name, text))
}

/// The weekday that a text names, in any case.
#[tactic(auto, unfolding(crate::specs::Times::weekday_named))]
fn weekday_named(text: &[u8]) -> Option<u8>
    ensures { result ≡ spec.weekday_named text.now }
{
    match place_of(&WEEKDAYS, text) {
        None => None,
        Some(place) => Some(place as u8),
    }
}

/// The month that a text names, in any case; the first month is 1.
#[tactic(auto, unfolding(crate::specs::Times::month_named))]
fn month_named(text: &[u8]) -> Option<u8>
    ensures { result ≡ spec.month_named text.now }
{
    match place_of(&MONTHS, text) {
        None => None,
        Some(place) => Some(place as u8 + 1),
    }
}

/// The number that a text writes, if it is between two others.
fn number_between(least: u16, most: u16, text: &[u8]) -> Option<u16>
    ensures number { result ≡ spec.number_between least most text.now }
    ensures within { IfSome result (λ number. number ≤ most) }
{
    let number = read_number(text)?;
    if number < u64::from(least) || number > u64::from(most) {
        return None;
    }
    Some(number as u16)
}

/// Like `number_between`, for numbers below 256.
fn small_number(least: u8, most: u8, text: &[u8]) -> Option<u8>
    ensures { result ≡ spec.number_between least most text.now }
{
    match number_between(u16::from(least), u16::from(most), text) {
        None => None,
        Some(number) => Some(number as u8),
    }
}

/// Like `small_number`, for two digits.
fn two_digits(least: u8, most: u8, text: &[u8]) -> Option<u8>
    ensures { result ≡ spec.fixed_number 2 least most text.now }
{
    if text.len() != 2 {
        return None;
    }
    small_number(least, most, text)
}

/// The year that four digits write.
fn read_year(text: &[u8]) -> Option<u16>
    ensures { result ≡ spec.fixed_number 4 0 9999 text.now }
{
    if text.len() != 4 {
        return None;
    }
    number_between(0, 9999, text)
}

/// The hour that one or two digits write.
fn read_hour(text: &[u8]) -> Option<u8>
    ensures { result ≡ spec.hour_of text.now }
{
    if text.len() > 2 {
        return None;
    }
    small_number(0, 23, text)
}

/// The time with an hour and a minute, if both are valid.
fn clock_from(hour: Option<u8>, minute: Option<u8>) -> Option<Clock>
    ensures { result ≡ spec.clock_from hour minute }
{
    match (hour, minute) {
        (Some(hour), Some(minute)) => Some(Clock { hour, minute }),
        _ => None,
    }
}

/// The time that `HH:MM` or `H:MM` writes.
fn read_clock(text: &[u8]) -> Option<Clock>
    ensures { result ≡ spec.clock_of text.now }
{
    match cut_once(text, b':') {
        None => None,
        Some((hour, minute)) => clock_from(read_hour(hour), two_digits(0, 59, minute)),
    }
}

/// The time that `HH:MM` writes; no other form counts.
fn read_full_clock(text: &[u8]) -> Option<Clock>
    ensures { result ≡ spec.full_clock_of text.now }
{
    if text.len() != 5 {
        return None;
    }
    read_clock(text)
}

/// The date with a year, a month and a day, if all are valid.
fn date_from(year: Option<u16>, month: Option<u8>, day: Option<u8>) -> Option<Date>
    ensures { result ≡ spec.date_from year month day }
{
    match (year, month, day) {
        (Some(year), Some(month), Some(day)) => Some(Date { year, month, day }),
        _ => None,
    }
}

/// A date, given its year, and its month and day.
fn read_date_of(year: &[u8], rest: &[u8]) -> Option<Date>
    ensures { result ≡ spec.date_of_year year.now (cut_once 45 rest.now) }
{
    match cut_once(rest, b'-') {
        None => None,
        Some((month, day)) => date_from(
            read_year(year),
            two_digits(1, 12, month),
            two_digits(1, 31, day),
        ),
    }
}

/// The date that `YYYY-MM-DD` writes.
fn read_date(text: &[u8]) -> Option<Date>
    ensures { result ≡ spec.date_of text.now }
{
    match cut_once(text, b'-') {
        None => None,
        Some((year, rest)) => read_date_of(year, rest),
    }
}

/// The moment with a weekday, a date and a time, if all are valid.
fn moment_from(weekday: Option<u8>, date: Option<Date>, clock: Option<Clock>) -> Option<Moment>
    ensures { result ≡ spec.moment_from weekday date clock }
{
    match (weekday, date, clock) {
        (Some(weekday), Some(date), Some(clock)) => Some(Moment {
            weekday,
            year: date.year,
            month: date.month,
            day: date.day,
            hour: clock.hour,
            minute: clock.minute,
        }),
        _ => None,
    }
}

/// A moment, given its weekday, and its date and time.
fn read_moment_of(weekday: &[u8], rest: &[u8]) -> Option<Moment>
    ensures { result ≡ spec.moment_of_weekday weekday.now (cut_once 32 rest.now) }
{
    match cut_once(rest, b' ') {
        None => None,
        Some((date, clock)) => {
            moment_from(
                weekday_named(weekday),
                read_date(date),
                read_full_clock(clock),
            )
        }
    }
}

/// The moment that `WEEKDAY YYYY-MM-DD HH:MM` writes; the weekday has three letters in any case.
///
/// This form is a choice of this program. So is that the weekday is used as given and not computed, and that each month may have 31 days.
#[tactic(auto, unfolding(crate::specs::Times::moment_of))]
pub fn read_moment(text: &[u8]) -> Option<Moment>
    ensures { result ≡ spec.moment_of text.now }
{
    match cut_once(text, b' ') {
        None => None,
        Some((weekday, rest)) => read_moment_of(weekday, rest),
    }
}

/// The number of minutes from the start of the day to a minute of an hour.
fn minutes_at(hour: u8, minute: u8) -> u16
    ensures { result ≡ spec.minutes_at hour minute }
{
    u16::from(hour) * 60 + u16::from(minute)
}

/// The time of the day that a text writes, as the number of minutes from the start of the day.
fn read_minutes(text: &[u8]) -> Option<u16>
    ensures { result ≡ spec.value_of measures.Time text.now }
{
    match read_clock(text) {
        None => None,
        Some(clock) => Some(minutes_at(clock.hour, clock.minute)),
    }
}

/// The weekday with a number; Sunday is 0 and 7.
fn weekday_numbered(text: &[u8]) -> Option<u8>
    ensures { result ≡ spec.weekday_numbered text.now }
{
    match small_number(0, 7, text) {
        Some(7) => Some(0),
        other => other,
    }
}

/// The weekday with a name or a number.
fn read_weekday(text: &[u8]) -> Option<u8>
    ensures { result ≡ spec.value_of measures.Weekday text.now }
{
    match weekday_named(text) {
        None => weekday_numbered(text),
        named => named,
    }
}

/// The month with a name or a number.
fn read_month(text: &[u8]) -> Option<u8>
    ensures { result ≡ spec.value_of measures.Month text.now }
{
    match month_named(text) {
        None => small_number(1, 12, text),
        named => named,
    }
}

/// An optional number, as one of 16 bits.
fn widen(number: Option<u8>) -> Option<u16>
    ensures { result ≡ number }
{
    match number {
        None => None,
        Some(number) => Some(u16::from(number)),
    }
}

/// The number for a time, a weekday, a day or a month that a text writes.
fn read_value(measure: Measure, text: &[u8]) -> Option<u16>
    ensures { result ≡ spec.value_of measure text.now }
{
    match measure {
        Measure::Time => read_minutes(text),
        Measure::Weekday => widen(read_weekday(text)),
        Measure::Day => widen(small_number(1, 31, text)),
        Measure::Month => widen(read_month(text)),
    }
}

/// The range from a first value to a last one, if both are valid.
fn range_from(first: Option<u16>, last: Option<u16>) -> Option<RoundRange>
    ensures { result ≡ spec.range_from first last }
{
    match (first, last) {
        (Some(first), Some(last)) => Some(RoundRange { first, last }),
        _ => None,
    }
}

/// The range from the value of one text to that of another.
fn read_between(measure: Measure, first: &[u8], last: &[u8]) -> Option<RoundRange>
    ensures { result ≡ spec.range_from (spec.value_of measure (trim first.now)) (spec.value_of measure (trim last.now)) }
{
    range_from(
        read_value(measure, trim(first)),
        read_value(measure, trim(last)),
    )
}

/// The range that a text writes: one value, or two with `-` between them.
#[tactic(auto, unfolding(crate::specs::Times::range_of))]
fn read_range(measure: Measure, text: &[u8]) -> Option<RoundRange>
    ensures { result ≡ spec.range_of measure text.now }
{
    match cut_once(text, b'-') {
        None => read_between(measure, text, text),
        Some((first, last)) => read_between(measure, first, last),
    }
}

/// Whether a range has a value: it includes both ends, and wraps around if the last is before the first.
fn has_value(range: RoundRange, value: u16) -> bool
    ensures { result ≡ spec.has_value value range }
{
    if range.first <= range.last {
        range.first <= value && value <= range.last
    } else {
        range.first <= value || value <= range.last
    }
}

/// Whether a text names a range that has the value.
fn writes_value(measure: Measure, value: u16, text: &[u8]) -> bool
    ensures { result ≡ spec.writes_value measure value text.now }
{
    match read_range(measure, text) {
        None => false,
        Some(range) => has_value(range, value),
    }
}

/// Whether one of the ranges between `&` has the value.
fn is_in_some(measure: Measure, text: &[u8], value: u16) -> bool
    ensures { result ≡ list_any (spec.writes_value measure value) (slice_split (λ byte. byte == 38) text.now) }
{
    text.split(|byte| *byte == b'&')
        .any(|range| writes_value(measure, value, range))
}

/// Whether a text means all values: it is empty or `*`.
fn says_all(text: &[u8]) -> bool
    ensures { result ≡ spec.says_all text.now }
{
    text.is_empty() || text == b"*".as_slice()
}

/// Whether a value is in a text.
fn lies_in_ranges(measure: Measure, text: &[u8], value: u16) -> bool
    ensures { result ≡ spec.lies_in_ranges measure text.now value }
{
    says_all(trim(text)) || is_in_some(measure, text, value)
}

/// Whether a moment is in four kinds of ranges at once, after the Asterisk documentation's page on the application `GotoIfTime`.
///
/// Each text is empty or `*`, which means all, or ranges separated by `&`. A range is one value, or two with `-` between them. It includes
/// both ends, and wraps around: `22:00-06:00`, `fri-mon`, `nov-feb`, `28-3`. Times are `HH:MM` or `H:MM`, weekdays and months are three
/// letters in any case or numbers (0 and 7 are Sunday), and days are numbers. The minute at which a range of times ends belongs to it, and
/// anything that is no range is skipped (choices of this program).
pub fn lies_in(moment: Moment, times: &[u8], weekdays: &[u8], days: &[u8], months: &[u8]) -> bool
    ensures { result ≡ spec.lies_in moment times.now weekdays.now days.now months.now }
{
    lies_in_ranges(Measure::Time, times, minutes_at(moment.hour, moment.minute))
        && lies_in_ranges(Measure::Weekday, weekdays, u16::from(moment.weekday))
        && lies_in_ranges(Measure::Day, days, u16::from(moment.day))
        && lies_in_ranges(Measure::Month, months, u16::from(moment.month))
}
