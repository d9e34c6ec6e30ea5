//! Moments that are read, worked out by hand from the rules.
use dp_case_tables::Question;
use dp_wide::{Moment, NoMemory, read_moment};
use std::alloc::Global;
use std::test::Fail;

fn push_moment(out: &mut String, moment: Moment) -> Result<(), NoMemory> {
    let Moment {
        weekday,
        year,
        month,
        day,
        hour,
        minute,
    } = moment;
    write!(out, "{weekday} {year} {month} {day} {hour} {minute}")
}

/// The moment that a text writes.
pub(super) struct WrittenMoment;

impl Question for WrittenMoment {
    fn answer(alloc: Global, asked: &str) -> Result<String, Fail> {
        let mut out = String::new(alloc);
        match read_moment(asked.as_bytes()) {
            Some(moment) => push_moment(&mut out, moment)?,
            None => out.push_str("none")?,
        }
        Ok(out)
    }
}

/// The weekday, the year, the month, the day, the hour and the minute.
pub(super) const MOMENTS: &str = r"
Sat 2026-11-28 12:44→6 2026 11 28 12 44
sun 2026-11-29 00:00→0 2026 11 29 0 0
MON 1999-12-31 23:59→1 1999 12 31 23 59
tUe 0000-01-01 00:01→2 0 1 1 0 1
Wed 9999-02-31 09:08→3 9999 2 31 9 8
Thu 2026-09-08 07:06→4 2026 9 8 7 6
FrI 2026-10-10 20:20→5 2026 10 10 20 20
# The weekday is not computed.
Mon 2026-11-28 12:44→1 2026 11 28 12 44
# Numbers that are too small or too large.
Sat 2026-00-28 12:44→none
Sat 2026-13-28 12:44→none
Sat 2026-11-00 12:44→none
Sat 2026-11-32 12:44→none
Sat 2026-11-28 24:00→none
Sat 2026-11-28 12:60→none
# Numbers of other lengths.
Sat 26-11-28 12:44→none
Sat 02026-11-28 12:44→none
Sat 2026-1-28 12:44→none
Sat 2026-11-8 12:44→none
Sat 2026-011-28 12:44→none
Sat 2026-11-28 2:44→none
Sat 2026-11-28 12:4→none
Sat 2026-11-28 012:44→none
Sat 2026-11-28 1:044→none
# Other words and signs.
→none
Sat→none
6 2026-11-28 12:44→none
Sam 2026-11-28 12:44→none
Saturday 2026-11-28 12:44→none
2026-11-28 12:44→none
Sat 2026-11-28→none
Sat 12:44→none
Sat 2026/11/28 12:44→none
Sat 2026-11-28 12.44→none
Sat 2026-11-28 12:44:00→none
Sat 2026-11-28-01 12:44→none
Sat 2026-Nov-28 12:44→none
Sat +026-11-28 12:44→none
 Sat 2026-11-28 12:44→none
Sat 2026-11-28 12:44 →none
Sat  2026-11-28 12:44→none
Sat 2026-11-28  12:44→none
";
