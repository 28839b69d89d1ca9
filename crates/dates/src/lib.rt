// Dates of the Gregorian calendar: document 02, §10. `is_origin` says what may be given for minute 0, and `shown` what a
// minute after it shows; specs/Gregorian states both. Open functions ask nothing of a caller; the inner ones ask for
// years and days that a sheet can reach, so that no sum wraps.

#![tactic(auto)]

ghost use Rattle.std.specs.Prelude.{◌≡◌, ◌+◌, ◌<◌, ◌≤◌};
ghost use Rattle.dates.specs.Gregorian.{is_origin, shown, leap, days_in};
ghost use Rattle.dates.specs.Counting.{days_of, before, farthest, Falls};

// The years of which minute 0 may be.
pub const FIRST_YEAR: u32 = 1970;

pub const LAST_YEAR: u32 = 2099;

// The minutes of a day.
const DAY: u32 = 1440;

// A date, hour and minute; January is month 1 and the first of a month day 1.
#[derive(Clone, Copy)]
pub struct Stamp {
    pub year: u32,
    pub month: u32,
    pub day: u32,
    pub hour: u32,
    pub minute: u32,
}

// Where a day falls: in which year, or month of a year, and how many days of it are before.
#[derive(Clone, Copy)]
struct Place {
    part: u32,
    left: u32,
}

#[tactic(auto, unfolding(crate::specs::Gregorian::leap))]
fn is_leap(year: u32) -> bool
    ensures { result ≡ leap year }
{
    ((year % 4 == 0) & (year % 100 != 0)) | (year % 400 == 0)
}

// The days of a month; none where it is no month.
#[tactic(auto, unfolding(crate::specs::Gregorian::days_in))]
fn days_in(year: u32, month: u32) -> u32
    ensures { result ≡ days_in year month }
{
    match month {
        2 => if is_leap(year) { 29 } else { 28 },
        4 | 6 | 9 | 11 => 30,
        1..=12 => 31,
        _ => 0,
    }
}

#[tactic(auto, unfolding(crate::specs::Counting::days_of))]
fn days_of(year: u32) -> u32
    ensures { result ≡ days_of year }
{
    if is_leap(year) { 366 } else { 365 }
}

// May it be given for minute 0?
#[tactic(auto, unfolding(crate::specs::Gregorian::is_origin, crate::specs::Gregorian::is_date))]
pub fn is_origin(s: Stamp) -> bool
    ensures { result ≡ is_origin s }
{
    let is_date = (1 <= s.day) & (s.day <= days_in(s.year, s.month));
    ((FIRST_YEAR <= s.year) & (s.year <= LAST_YEAR)) & (is_date & ((s.hour < 24) & (s.minute < 60)))
}

// The days of a year before one of its months.
fn days_before(year: u32, month: u32) -> u32
    requires { month ≤ 12 }
    ensures { result ≡ before (days_in year) month }
{
    let mut n = 0;
    for k in 0..month {
        n += days_in(year, k);
    }
    n
}

// The year in which the day falls that is so many days after the first of January of `from`.
fn year_of(from: u32, days: u32) -> Place
    requires { from + days < farthest }
    ensures { Falls days_of (before days_of from + days) result.part result.left }
{
    let mut year = from;
    let mut left = days;
    let mut year_days = days_of(year);
    // Days are taken away: no index is counted.
    while year_days <= left {
        left -= year_days;
        year += 1;
        year_days = days_of(year);
    }
    Place { part: year, left }
}

// The month in which the day falls that is so many days after the first of January of its year.
fn month_of(year: u32, days: u32) -> Place
    requires { days < days_of year }
    ensures { Falls (days_in year) days result.part result.left }
{
    let mut month = 1;
    let mut left = days;
    let mut month_days = days_in(year, month);
    // Days are taken away: no index is counted.
    while month_days <= left {
        left -= month_days;
        month += 1;
        month_days = days_in(year, month);
    }
    Place { part: month, left }
}

// The date, hour and minute that minute m shows where minute 0 is the origin. An origin that is none is given back as it is.
pub fn shown(origin: Stamp, m: u32) -> Stamp
    ensures { result ≡ shown origin m }
{
    if is_origin(origin) {
        let minute = origin.hour * 60 + origin.minute + m % DAY;
        let days = days_before(origin.year, origin.month)
            + (origin.day - 1)
            + (m / DAY + minute / DAY);
        let in_year = year_of(origin.year, days);
        let in_month = month_of(in_year.part, in_year.left);
        let rest = minute % DAY;
        Stamp {
            year: in_year.part,
            month: in_month.part,
            day: in_month.left + 1,
            hour: rest / 60,
            minute: rest % 60,
        }
    } else {
        origin
    }
}
