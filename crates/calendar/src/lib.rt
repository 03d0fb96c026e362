// Dates and times of a label: their values, and which digit may stand next.
#![tactic(auto)]

ghost use Rattle.std.specs.Prelude.{◌≡◌, true, ◌&&◌, cond, eqb, leb, [], ◌+◌, ◌≤◌, ◌<◌, length, get_or, take};
ghost use Rattle.demand.specs.Numbered.{judged};
ghost use Rattle.demand.specs.Laws.Content.{Fits, Judges, nowhere};
ghost use Rattle.text.specs.Buffer.{laid_at};
ghost use Rattle.text.specs.Bytes.{digit};
ghost use Rattle.text.specs.Decimal.{DigitsAt};
ghost use Rattle.text.specs.Decides.{Decides};
ghost use Rattle.text.specs.Laws.Decimal.{within};
ghost use Rattle.calendar.specs.Calendar.{FIRST_YEAR, LAST_YEAR, year_named, century_of, leap_day, LawfulDate, LawfulTime, date_text, time_text, date_of};
ghost use Rattle.calendar.specs.Calendar.{time_of};
ghost use Rattle.calendar.specs.Expiry.{untimed, timed, date_in, time_in};
ghost use Rattle.calendar.specs.Laws.Date.{date_positions};
ghost use Rattle.calendar.specs.Laws.Time.{time_positions};
ghost use Rattle.calendar.specs.Laws.Stamp.{stamp_positions};

use demand::Refusal;

// A day by its full year and its number in the year.
#[repr(C)]
#[derive(Clone, Copy)]
pub struct Date {
    pub year: u16,
    pub day: u16,
}

// A time of day.
#[repr(C)]
#[derive(Clone, Copy)]
pub struct Time {
    pub hour: u8,
    pub minute: u8,
}

// A date with or without a time, as the shelf list, the minutes left and C have it: timed 0 says that there is no time.
// pad is C's padding byte: 0 in what is made here, and not looked at.
#[repr(C)]
#[derive(Clone, Copy)]
pub struct Expiry {
    pub year: u16,
    pub day: u16,
    pub timed: u8,
    pub hour: u8,
    pub minute: u8,
    pub pad: u8,
}

impl Expiry {
    // A date without a time.
    pub fn untimed(date: Date) -> Expiry
        ensures { result ≡ untimed 0 date }
    {
        Expiry {
            year: date.year,
            day: date.day,
            timed: 0,
            hour: 0,
            minute: 0,
            pad: 0,
        }
    }

    // A date with a time.
    pub fn timed(date: Date, time: Time) -> Expiry
        ensures { result ≡ timed 0 date time }
    {
        Expiry {
            year: date.year,
            day: date.day,
            timed: 1,
            hour: time.hour,
            minute: time.minute,
            pad: 0,
        }
    }

    pub fn date(self) -> Date
        ensures { result ≡ date_in self }
    {
        Date {
            year: self.year,
            day: self.day,
        }
    }

    pub fn time(self) -> Time
        ensures { result ≡ time_in self }
    {
        Time {
            hour: self.hour,
            minute: self.minute,
        }
    }
}

impl Date {
    pub const FIRST_YEAR: u16 = 1900;

    pub const LAST_YEAR: u16 = 2899;

    // Whether a label can name the year.
    pub fn has_year(year: u16) -> bool
        ensures { result ≡ (leb FIRST_YEAR year && leb year LAST_YEAR) }
    {
        (Date::FIRST_YEAR <= year) & (year <= Date::LAST_YEAR)
    }

    // The date that cyyjjj stands for.
    pub fn from_digits(cyyjjj: &[u8]) -> Date
        requires { DigitsAt cyyjjj.now 0 6 }
        ensures { result ≡ date_of cyyjjj.now }
    {
        Date {
            year: year_of(cyyjjj),
            day: text::read_digits(cyyjjj, 3, 3) as u16,
        }
    }
}

// The year that cyy names.
fn year_of(cyy: &[u8]) -> u16
    requires { DigitsAt cyy.now 0 3 }
    ensures { result ≡ year_named cyy.now }
{
    let century = text::read_digits(cyy, 0, 1) as u16;
    let yy = text::read_digits(cyy, 1, 2) as u16;
    if century == 9 {
        Date::FIRST_YEAR + yy
    } else {
        2000 + 100 * century + yy
    }
}

// 1 in a Gregorian leap year, else 0.
pub fn leap_day(year: u16) -> u8
    ensures { result ≡ leap_day year }
{
    if year % 4 != 0 {
        return 0;
    }
    if year % 100 != 0 {
        return 1;
    }
    if year % 400 == 0 { 1 } else { 0 }
}

// Whether cyyjjj stands for a lawful date: cyy names a lawful year, so that the year is asked on day 366 alone.
pub fn is_date(cyyjjj: &[u8]) -> bool
    requires { DigitsAt cyyjjj.now 0 6 }
    ensures { Decides result (LawfulDate (date_of cyyjjj.now)) }
{
    let day = text::read_digits(cyyjjj, 3, 3) as u16;
    ((1 <= day) & (day <= 365)) || ((day == 366) && (leap_day(year_of(cyyjjj)) == 1))
}

// Whether a date is one that a label can hold.
pub fn is_lawful_date(date: Date) -> bool
    ensures { Decides result (LawfulDate date) }
{
    let days = 365 + leap_day(date.year) as u16;
    Date::has_year(date.year) & ((1 <= date.day) & (date.day <= days))
}

pub fn is_lawful_time(time: Time) -> bool
    ensures { Decides result (LawfulTime time) }
{
    (time.hour <= 23) & (time.minute <= 59)
}

impl Time {
    // The time that hhmm stands for.
    pub fn from_digits(hhmm: &[u8]) -> Time
        requires { DigitsAt hhmm.now 0 4 }
        ensures { result ≡ time_of hhmm.now }
    {
        Time {
            hour: text::read_digits(hhmm, 0, 2) as u8,
            minute: text::read_digits(hhmm, 2, 2) as u8,
        }
    }
}

// Whether a digit may stand second in a day after a: after 3 at most 6.
fn day_second(a: u8, b: u8) -> bool
    requires { digit b ≡ true }
    ensures { result ≡ within 48 (cond (eqb a 51) 54 57) b }
{
    match a {
        b'3' => text::is_between(b'0', b'6', b),
        _ => true,
    }
}

// Whether a digit may stand third in a day after two that are one number: after 00 from 1, after 36 to 5 and a leap day.
fn day_third(year: u16, tens: u8, b: u8) -> bool
    requires { digit b ≡ true }
    ensures { result ≡ within (cond (eqb tens 0) 49 48) (cond (eqb tens 36) (53 + leap_day year) 57) b }
{
    match tens {
        0 => text::is_between(b'1', b'9', b),
        36 => match leap_day(year) {
            0 => text::is_between(b'0', b'5', b),
            _ => text::is_between(b'0', b'6', b),
        },
        _ => true,
    }
}

// Whether the digit b may stand at i after the digits before it.
fn date_goes(c: &[u8], i: usize, b: u8) -> bool
    requires { (i ≤ length c.now) × (i < 6) × DigitsAt c.now 0 i × (digit b ≡ true) }
    ensures { result ≡ (get_or date_positions i nowhere).rule (take i c.now) b }
{
    match i {
        3 => text::is_between(b'0', b'3', b),
        4 => day_second(c[3], b),
        5 => day_third(year_of(c), text::read_digits(c, 3, 2) as u8, b),
        _ => true,
    }
}

// Whether the byte at i of a date fits after the bytes before it, which fit.
pub fn judge_date(c: &[u8], i: usize) -> Result<(), Refusal>
    requires { (i < length c.now) × (i < 6) × Fits (take i date_positions) [] (take i c.now) }
    ensures { Judges date_positions c.now i (judged result) }
{
    let b = c[i];
    if text::is_digit(b) {
        let refusal = demand::refusal_by(i, 3, Refusal::Value, Refusal::Day);
        demand::verdict(true, date_goes(c, i, b), refusal)
    } else {
        Err(Refusal::Character)
    }
}

// Whether a digit may stand second in an hour after a: after 2 at most 3.
fn hour_second(a: u8, b: u8) -> bool
    requires { digit b ≡ true }
    ensures { result ≡ within 48 (cond (eqb a 50) 51 57) b }
{
    match a {
        b'2' => text::is_between(b'0', b'3', b),
        _ => true,
    }
}

// Whether the digit b may stand at i after the digits before it.
fn time_goes(c: &[u8], i: usize, b: u8) -> bool
    requires { (i ≤ length c.now) × (i < 4) × (digit b ≡ true) }
    ensures { result ≡ (get_or time_positions i nowhere).rule (take i c.now) b }
{
    match i {
        0 => text::is_between(b'0', b'2', b),
        1 => hour_second(c[0], b),
        2 => text::is_between(b'0', b'5', b),
        _ => true,
    }
}

// The same of a time.
pub fn judge_time(c: &[u8], i: usize) -> Result<(), Refusal>
    requires { (i < length c.now) × (i < 4) }
    ensures { Judges time_positions c.now i (judged result) }
{
    let b = c[i];
    if text::is_digit(b) {
        demand::verdict(true, time_goes(c, i, b), Refusal::Time)
    } else {
        Err(Refusal::Character)
    }
}

// The same of a date and then a time.
pub fn judge_stamp(c: &[u8], i: usize) -> Result<(), Refusal>
    requires { (i < length c.now) × (i < 10) × Fits (take i stamp_positions) [] (take i c.now) }
    ensures { Judges stamp_positions c.now i (judged result) }
{
    if i < 6 {
        judge_date(c, i)
    } else {
        judge_time(&c[6..], i - 6)
    }
}

// The c that names a year.
fn century_of(year: u16) -> u16
    ensures { result ≡ century_of year }
{
    if year < 2000 { 9 } else { (year - 2000) / 100 }
}

// Writes a date as cyyjjj.
pub fn write_date(buffer: &mut [u8], at: usize, date: Date)
    requires { at + 6 ≤ length buffer.old }
    ensures { buffer.new ≡ laid_at at (date_text date) buffer.old }
{
    text::write_digits(buffer, at, 1, century_of(date.year) as u64);
    text::write_digits(buffer, at + 1, 2, (date.year % 100) as u64);
    text::write_digits(buffer, at + 3, 3, date.day as u64);
}

// Writes a time as hhmm.
pub fn write_time(buffer: &mut [u8], at: usize, time: Time)
    requires { at + 4 ≤ length buffer.old }
    ensures { buffer.new ≡ laid_at at (time_text time) buffer.old }
{
    text::write_digits(buffer, at, 2, time.hour as u64);
    text::write_digits(buffer, at + 2, 2, time.minute as u64);
}
