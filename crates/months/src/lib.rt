// Days by month: how many days each month has, and which days a flexible date can name.
#![tactic(auto)]

ghost use Rattle.std.specs.Prelude.{◌≡◌};
ghost use Rattle.text.specs.Decides.{Decides};
ghost use Rattle.calendar.specs.Calendar.{LawfulDate};
ghost use Rattle.months.specs.Months.{days_in, LawfulDay, days_before};
ghost use Rattle.months.specs.Ordinal.{ToOrdinal, FromOrdinal};
ghost use Rattle.months.specs.Laws.Ordinal.{IsDay};

use calendar::Date;

// A calendar day.
#[repr(C)]
#[derive(Clone, Copy)]
pub struct Day {
    pub year: u16,
    pub month: u8,
    pub day: u8,
}

// The days of each month of a common year; no month has the number 0.
const LENGTHS: [u8; 13] = [0, 31, 28, 31, 30, 31, 30, 31, 31, 30, 31, 30, 31];

// How many days a month of a year has, 0 where it is no month.
pub fn days_in(year: u16, month: u8) -> u8
    ensures { result ≡ days_in year month }
{
    if 12 < month {
        return 0;
    }
    let days = LENGTHS[month as usize];
    if month == 2 {
        days + calendar::leap_day(year)
    } else {
        days
    }
}

// Whether a calendar day is one that a label can hold.
pub fn is_lawful_day(day: Day) -> bool
    ensures { Decides result (LawfulDay day) }
{
    Date::has_year(day.year) & ((1 <= day.day) & (day.day <= days_in(day.year, day.month)))
}

// The days of the months before one.
fn days_before(year: u16, month: u8) -> u16
    ensures { result ≡ days_before year month }
{
    let mut days = 0;
    for earlier in 1..month {
        days += days_in(year, earlier) as u16;
    }
    days
}

// The date that a calendar day is, if it is one.
pub fn to_ordinal(day: Day) -> Option<Date>
    ensures { ToOrdinal day result }
{
    if is_lawful_day(day) {
        Some(Date {
            year: day.year,
            day: days_before(day.year, day.month) + day.day as u16,
        })
    } else {
        None
    }
}

// The calendar day of a lawful date: each month takes its days off until no more are left than a month has.
fn day_on(date: Date) -> Day
    requires { LawfulDate date }
    ensures { IsDay date result }
{
    let mut left = date.day;
    for month in 1..13 {
        let days = days_in(date.year, month) as u16;
        if left <= days {
            return Day {
                year: date.year,
                month,
                day: left as u8,
            };
        }
        left -= days;
    }
    unreachable!()
}

// The calendar day that a date is, if it is one.
pub fn from_ordinal(date: Date) -> Option<Day>
    ensures { FromOrdinal date result }
{
    if calendar::is_lawful_date(date) {
        Some(day_on(date))
    } else {
        None
    }
}
