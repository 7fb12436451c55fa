// The date of a day, by the Gregorian calendar from 1 January 1970 on.
#![tactic(auto)]

ghost use Rattle.std.specs.Prelude.{◌≡◌, ◌≤◌, ◌<◌};
ghost use Rattle.dates.specs.Dates.{is_leap, has_thirty, days_in, month_after, date_of};

// A date: months and days count from 1.
#[derive(Clone, Copy)]
pub struct Date {
    pub year: u64,
    pub month: u64,
    pub day: u64,
}

// Whether a year has a 29 February.
//
// Ruled out: 2100 as a leap year; 2000 as none.
fn is_leap(year: u64) -> bool
    ensures { result ≡ is_leap year }
{
    if year % 100 == 0 {
        return year % 400 == 0;
    }
    year % 4 == 0
}

// Whether a month has thirty days.
#[tactic(auto, unfolding(crate::specs::Dates::has_thirty))]
fn has_thirty(month: u64) -> bool
    ensures { result ≡ has_thirty month }
{
    matches!(month, 4 | 6 | 9 | 11)
}

// How many days a month has.
//
// Ruled out: 30 days for July; 28 for February of a leap year.
fn days_in(year: u64, month: u64) -> u64
    ensures { result ≡ days_in year month }
{
    if month == 2 {
        if is_leap(year) {
            return 29;
        }
        return 28;
    }
    if has_thirty(month) {
        return 30;
    }
    31
}

// The first day of the month after a date's.
fn month_after(date: Date) -> Date
    requires { (date.year < 0x7fff_ffff_ffff_ffff) × (date.month ≤ 12) }
    ensures { result ≡ month_after date }
{
    if date.month == 12 {
        return Date {
            year: date.year + 1,
            month: 1,
            day: 1,
        };
    }
    Date {
        year: date.year,
        month: date.month + 1,
        day: 1,
    }
}

// The date of a day, where 1 January 1970 is day 0: month after month, as long as a whole one is left.
//
// Ruled out: the date of the day before; a date in 30 February.
pub fn date_of(day: u64) -> Date
    ensures { result ≡ date_of day }
{
    let mut first = Date {
        year: 1970,
        month: 1,
        day: 1,
    };
    let mut left = day;
    loop {
        let days = days_in(first.year, first.month);
        if left < days {
            return Date {
                year: first.year,
                month: first.month,
                day: left + 1,
            };
        }
        first = month_after(first);
        left -= days;
    }
}
