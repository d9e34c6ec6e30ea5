//! Ranges in which moments lie, worked out by hand from the rules.
use dp_case_tables::{Question, text_of};
use dp_wide::{lies_in, read_moment};
use std::alloc::Global;
use std::test::Fail;

/// Whether the moment lies in the four that follow it: the times, the weekdays, the days and the months.
pub(super) struct Lies;

impl Question for Lies {
    fn answer(alloc: Global, asked: &str) -> Result<String, Fail> {
        let (moment, rest) = asked.split_once('|').ok_or("no times")?;
        let (times, rest) = rest.split_once('|').ok_or("no weekdays")?;
        let (weekdays, rest) = rest.split_once('|').ok_or("no days")?;
        let (days, months) = rest.split_once('|').ok_or("no months")?;
        let moment = read_moment(moment.as_bytes()).ok_or("no moment")?;
        let lies = lies_in(
            moment,
            times.as_bytes(),
            weekdays.as_bytes(),
            days.as_bytes(),
            months.as_bytes(),
        );
        text_of(alloc, if lies { "yes" } else { "no" })
    }
}

/// Times of the day.
pub(super) const TIMES: &str = r"
# One minute.
Sat 2026-11-28 09:00|09:00|||→yes
Sat 2026-11-28 09:00|9:00|||→yes
Sat 2026-11-28 09:01|9:00|||→no
Sat 2026-11-28 08:59|9:00|||→no
Sat 2026-11-28 00:00|0:00|||→yes
Sat 2026-11-28 23:59|23:59|||→yes
# Two ends, both of which belong to the range.
Sat 2026-11-28 08:59|9:00-17:00|||→no
Sat 2026-11-28 09:00|9:00-17:00|||→yes
Sat 2026-11-28 12:30|9:00-17:00|||→yes
Sat 2026-11-28 17:00|9:00-17:00|||→yes
Sat 2026-11-28 17:01|9:00-17:00|||→no
Sat 2026-11-28 09:00|9:00-9:00|||→yes
Sat 2026-11-28 09:01|9:00-9:00|||→no
Sat 2026-11-28 00:00|0:00-23:59|||→yes
Sat 2026-11-28 23:59|0:00-23:59|||→yes
# Around midnight.
Sat 2026-11-28 21:59|22:00-06:00|||→no
Sat 2026-11-28 22:00|22:00-06:00|||→yes
Sat 2026-11-28 23:59|22:00-06:00|||→yes
Sat 2026-11-28 00:00|22:00-06:00|||→yes
Sat 2026-11-28 06:00|22:00-06:00|||→yes
Sat 2026-11-28 06:01|22:00-06:00|||→no
Sat 2026-11-28 23:59|23:59-0:00|||→yes
Sat 2026-11-28 00:00|23:59-0:00|||→yes
Sat 2026-11-28 00:01|23:59-0:00|||→no
Sat 2026-11-28 08:59|9:00-8:59|||→yes
# Some of several.
Sat 2026-11-28 10:00|9:00&10:00&11:00|||→yes
Sat 2026-11-28 10:30|9:00&10:00&11:00|||→no
Sat 2026-11-28 13:00|8:00-12:00&13:00-17:00|||→yes
Sat 2026-11-28 12:30|8:00-12:00&13:00-17:00|||→no
# Blanks.
Sat 2026-11-28 13:00| 8:00 - 12:00 & 13:00 - 17:00 |||→yes
Sat 2026-11-28 09:00| 9:00 |||→yes
Sat 2026-11-28 09:00|9: 00|||→no
# All.
Sat 2026-11-28 09:00||||→yes
Sat 2026-11-28 09:00|*|||→yes
Sat 2026-11-28 09:00| * |||→yes
Sat 2026-11-28 09:00|  |||→yes
Sat 2026-11-28 09:00|**|||→no
Sat 2026-11-28 09:00|*&10:00|||→no
# Anything that is not a range is skipped.
Sat 2026-11-28 09:00|9|||→no
Sat 2026-11-28 09:00|9:0|||→no
Sat 2026-11-28 09:00|009:00|||→no
Sat 2026-11-28 09:00|:00|||→no
Sat 2026-11-28 00:00|24:00|||→no
Sat 2026-11-28 10:00|9:60|||→no
Sat 2026-11-28 09:00|9:00-|||→no
Sat 2026-11-28 09:00|-9:00|||→no
Sat 2026-11-28 09:00|8:00-24:00|||→no
Sat 2026-11-28 09:00|8:00-9:00-10:00|||→no
Sat 2026-11-28 09:00|8:00,9:00|||→no
Sat 2026-11-28 09:00|&|||→no
Sat 2026-11-28 09:00|x&9:00|||→yes
Sat 2026-11-28 09:00|9:00&|||→yes
";

/// Weekdays, by their names and by their numbers.
pub(super) const WEEKDAYS: &str = r"
# Names in any case.
Sat 2026-11-28 09:00||sat||→yes
Sat 2026-11-28 09:00||SAT||→yes
Sat 2026-11-28 09:00||sun||→no
Sun 2026-11-28 09:00||sUn||→yes
Wed 2026-11-28 09:00||mon-fri||→yes
Sat 2026-11-28 09:00||Mon-Fri||→no
Mon 2026-11-28 09:00||mon-fri||→yes
Fri 2026-11-28 09:00||mon-fri||→yes
# Around the end of a week.
Thu 2026-11-28 09:00||fri-mon||→no
Fri 2026-11-28 09:00||fri-mon||→yes
Sat 2026-11-28 09:00||fri-mon||→yes
Sun 2026-11-28 09:00||fri-mon||→yes
Mon 2026-11-28 09:00||fri-mon||→yes
Tue 2026-11-28 09:00||fri-mon||→no
Sat 2026-11-28 09:00||sat-sun||→yes
Sun 2026-11-28 09:00||sat-sun||→yes
# Numbers, of which 0 and 7 are Sunday.
Sun 2026-11-28 09:00||0||→yes
Sun 2026-11-28 09:00||7||→yes
Mon 2026-11-28 09:00||1||→yes
Sat 2026-11-28 09:00||6||→yes
Sat 2026-11-28 09:00||8||→no
Sun 2026-11-28 09:00||5-7||→yes
Thu 2026-11-28 09:00||5-7||→no
Sun 2026-11-28 09:00||1-7||→yes
Wed 2026-11-28 09:00||1-7||→yes
Sun 2026-11-28 09:00||0-7||→yes
Mon 2026-11-28 09:00||0-7||→no
Wed 2026-11-28 09:00||1-fri||→yes
# Some of several, and some that are not ranges.
Wed 2026-11-28 09:00||mon & wed & fri||→yes
Tue 2026-11-28 09:00||mon & wed & fri||→no
Sat 2026-11-28 09:00||saturday||→no
Sat 2026-11-28 09:00||sa||→no
Sat 2026-11-28 09:00||x-sat||→no
Sat 2026-11-28 09:00||nov&sat||→yes
Sat 2026-11-28 09:00||*||→yes
";

/// Days of a month.
pub(super) const DAYS: &str = r"
Sat 2026-11-28 09:00|||28|→yes
Sat 2026-11-28 09:00|||27|→no
Sat 2026-11-01 09:00|||1|→yes
Sat 2026-11-01 09:00|||01|→yes
Sat 2026-10-31 09:00|||31|→yes
Sat 2026-11-15 09:00|||1-15|→yes
Sat 2026-11-16 09:00|||1-15|→no
# Around the end of a month.
Sat 2026-11-27 09:00|||28-3|→no
Sat 2026-11-28 09:00|||28-3|→yes
Sat 2026-10-31 09:00|||28-3|→yes
Sat 2026-11-01 09:00|||28-3|→yes
Sat 2026-11-03 09:00|||28-3|→yes
Sat 2026-11-04 09:00|||28-3|→no
# Some of several, and some that are not ranges.
Sat 2026-11-28 09:00|||1& 28 |→yes
Sat 2026-11-28 09:00|||0|→no
Sat 2026-11-28 09:00|||32|→no
Sat 2026-11-28 09:00|||0-31|→no
Sat 2026-11-28 09:00|||1-32|→no
Sat 2026-11-28 09:00|||1-32&20-30|→yes
Sat 2026-11-28 09:00|||18446744073709551644|→no
Sat 2026-11-28 09:00|||*|→yes
";

/// Months, by their names and by their numbers.
pub(super) const MONTHS: &str = r"
Sat 2026-11-28 09:00||||nov→yes
Sat 2026-11-28 09:00||||NoV→yes
Sat 2026-11-28 09:00||||dec→no
Sat 2026-11-28 09:00||||11→yes
Sat 2026-01-28 09:00||||jan→yes
Sat 2026-01-28 09:00||||1→yes
Sat 2026-01-28 09:00||||01→yes
Sat 2026-12-28 09:00||||12→yes
Sat 2026-06-28 09:00||||apr-sep→yes
Sat 2026-10-28 09:00||||apr-sep→no
Sat 2026-08-28 09:00||||7-aug→yes
# Around the end of a year.
Sat 2026-10-28 09:00||||nov-feb→no
Sat 2026-11-28 09:00||||nov-feb→yes
Sat 2026-12-28 09:00||||nov-feb→yes
Sat 2026-01-28 09:00||||nov-feb→yes
Sat 2026-02-28 09:00||||nov-feb→yes
Sat 2026-03-28 09:00||||nov-feb→no
# Some of several, and some that are not ranges.
Sat 2026-05-28 09:00||||mar&may & jul→yes
Sat 2026-04-28 09:00||||mar&may & jul→no
Sat 2026-11-28 09:00||||0→no
Sat 2026-11-28 09:00||||13→no
Sat 2026-11-28 09:00||||november→no
Sat 2026-11-28 09:00||||sat→no
Sat 2026-11-28 09:00||||sat&nov→yes
Sat 2026-11-28 09:00||||*→yes
";

/// All four at once.
pub(super) const TOGETHER: &str = r"
Sat 2026-11-28 09:00||||→yes
Sat 2026-11-28 09:00|*|*|*|*→yes
Sat 2026-11-28 09:00|8:00-17:00|fri-mon|20-3|nov-feb→yes
Sat 2026-11-28 07:59|8:00-17:00|fri-mon|20-3|nov-feb→no
Thu 2026-11-28 09:00|8:00-17:00|fri-mon|20-3|nov-feb→no
Sat 2026-11-19 09:00|8:00-17:00|fri-mon|20-3|nov-feb→no
Sat 2026-10-28 09:00|8:00-17:00|fri-mon|20-3|nov-feb→no
Sat 2026-11-28 09:00|x|*|*|*→no
Sat 2026-11-28 09:00|*|x|*|*→no
Sat 2026-11-28 09:00|*|*|x|*→no
Sat 2026-11-28 09:00|*|*|*|x→no
Sat 2026-12-25 09:00|*|*|25|dec→yes
";
