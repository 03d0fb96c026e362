// 031, the flexible date and time: its values, which digit may stand next, and how its day is written.
#![tactic(auto)]

ghost use Rattle.std.specs.Prelude.{◌≡◌, cond, List, [], ℕ, ◌+◌, ◌/◌, ◌%◌, ◌≤◌, ◌<◌, eqb, length, get_or, take};
ghost use Rattle.demand.specs.Numbered.{judged};
ghost use Rattle.demand.specs.Laws.Content.{Fits, Judges, nowhere};
ghost use Rattle.text.specs.Buffer.{laid_at};
ghost use Rattle.text.specs.Decimal.{DigitsAt};
ghost use Rattle.text.specs.Decides.{Decides};
ghost use Rattle.text.specs.Laws.Decimal.{within};
ghost use Rattle.flexible.specs.Flexible.{LawfulFlexible, day_text};
ghost use Rattle.flexible.specs.Laws.DateType.{type_of, type_positions};
ghost use Rattle.flexible.specs.Laws.Day.{day_of, day_positions, last_at, MonthAt};
ghost use Rattle.flexible.specs.Laws.Flexible.{moment_positions, flexible_positions};

use demand::Refusal;
use months::Day;

// The first character as printed, and the type; the second character is always 0 and is not held.
#[derive(Clone, Copy)]
pub struct Flexible {
    pub first: u8,
    pub timetype: u8,
}

// Whether first character and type are ones that a label can hold.
pub fn is_lawful_flexible(flexible: Flexible) -> bool
    ensures { Decides result (LawfulFlexible flexible) }
{
    let first = (b'1' <= flexible.first) & (flexible.first <= b'2');
    first & ((1 <= flexible.timetype) & (flexible.timetype <= 5))
}

// First character and type that the first four characters stand for.
pub fn type_of(c: &[u8]) -> Flexible
    requires { DigitsAt c.now 0 4 }
    ensures { result ≡ type_of c.now }
{
    Flexible {
        first: c[0],
        timetype: text::read_digits(c, 2, 2) as u8,
    }
}

// The day that yyyymmdd stands for.
pub fn day_of(c: &[u8]) -> Day
    requires { DigitsAt c.now 0 8 }
    ensures { result ≡ day_of c.now }
{
    Day {
        year: text::read_digits(c, 0, 4) as u16,
        month: text::read_digits(c, 4, 2) as u8,
        day: text::read_digits(c, 6, 2) as u8,
    }
}

// Whether a digit may stand at i of the first four, whatever stands before it.
fn type_goes(i: usize, b: u8) -> bool
    requires { i < 4 }
    ensures { (p : List ℕ) → result ≡ (get_or type_positions i nowhere).rule p b }
{
    match i {
        0 => text::is_between(b'1', b'2', b),
        1 => b == b'0',
        2 => b == b'0',
        _ => text::is_between(b'1', b'5', b),
    }
}

// Whether the byte at i of the first four fits after the bytes before it.
fn judge_type(c: &[u8], i: usize) -> Result<(), Refusal>
    requires { (i < length c.now) × (i < 4) }
    ensures { Judges type_positions c.now i (judged result) }
{
    let b = c[i];
    if text::is_digit(b) {
        demand::verdict(true, type_goes(i, b), Refusal::Value)
    } else {
        Err(Refusal::Character)
    }
}

// Whether a digit may stand second in a year after a: after 1 only 9, after 2 at most 8.
fn year_second(a: u8, b: u8) -> bool
    ensures { result ≡ within (cond (eqb a 49) 57 48) (cond (eqb a 49) 57 56) b }
{
    match a {
        b'1' => b == b'9',
        _ => text::is_between(b'0', b'8', b),
    }
}

// Whether a digit may stand second in a month after a: after 0 from 1, after 1 at most 2.
fn month_second(a: u8, b: u8) -> bool
    ensures { result ≡ within (cond (eqb a 48) 49 48) (cond (eqb a 48) 57 50) b }
{
    match a {
        b'0' => text::is_between(b'1', b'9', b),
        _ => text::is_between(b'0', b'2', b),
    }
}

// The highest second digit of a day after a, in a month with so many days.
fn day_high(last: u8, a: u8) -> u8
    requires { last ≤ 31 }
    ensures { result ≡ cond (eqb a (48 + last / 10)) (48 + last % 10) 57 }
{
    if a == b'0' + last / 10 {
        b'0' + last % 10
    } else {
        b'9'
    }
}

// Whether a digit may stand second in a day of such a month after a: after 0 from 1.
fn day_second(last: u8, a: u8, b: u8) -> bool
    requires { last ≤ 31 }
    ensures { result ≡ within (cond (eqb a 48) 49 48) (cond (eqb a (48 + last / 10)) (48 + last % 10) 57) b }
{
    let high = day_high(last, a);
    match a {
        b'0' => text::is_between(b'1', high, b),
        _ => text::is_between(b'0', high, b),
    }
}

// The last day of the month that yyyymm names.
fn last_day(c: &[u8]) -> u8
    requires { DigitsAt c.now 0 6 × MonthAt c.now }
    ensures { (result ≡ last_at c.now) × (result ≤ 31) }
{
    months::days_in(
        text::read_digits(c, 0, 4) as u16,
        text::read_digits(c, 4, 2) as u8,
    )
}

// Whether the digit b may stand at i of a year after the digits before it.
fn year_goes(c: &[u8], i: usize, b: u8) -> bool
    requires { (i ≤ length c.now) × (i < 4) }
    ensures { result ≡ (get_or day_positions i nowhere).rule (take i c.now) b }
{
    match i {
        0 => text::is_between(b'1', b'2', b),
        1 => year_second(c[0], b),
        _ => true,
    }
}

// Whether b may stand at i of the month and day behind a year.
fn month_goes(c: &[u8], i: usize, b: u8) -> bool
    requires { (i ≤ length c.now) × (4 ≤ i) × (i < 8) × Fits (take i day_positions) [] (take i c.now) }
    ensures { result ≡ (get_or day_positions i nowhere).rule (take i c.now) b }
{
    match i {
        4 => text::is_between(b'0', b'1', b),
        5 => month_second(c[4], b),
        6 => text::is_between(b'0', b'0' + last_day(c) / 10, b),
        _ => day_second(last_day(c), c[6], b),
    }
}

// Whether b may stand at i of yyyymmdd.
fn day_goes(c: &[u8], i: usize, b: u8) -> bool
    requires { (i ≤ length c.now) × (i < 8) × Fits (take i day_positions) [] (take i c.now) }
    ensures { result ≡ (get_or day_positions i nowhere).rule (take i c.now) b }
{
    if i < 4 {
        year_goes(c, i, b)
    } else {
        month_goes(c, i, b)
    }
}

// Whether the byte at i of yyyymmdd fits after the bytes before it, which fit.
fn judge_day(c: &[u8], i: usize) -> Result<(), Refusal>
    requires { (i < length c.now) × (i < 8) × Fits (take i day_positions) [] (take i c.now) }
    ensures { Judges day_positions c.now i (judged result) }
{
    let b = c[i];
    if text::is_digit(b) {
        let refusal = demand::refusal_by(i, 4, Refusal::Value, Refusal::Day);
        demand::verdict(true, day_goes(c, i, b), refusal)
    } else {
        Err(Refusal::Character)
    }
}

// The same of a day and then a time.
fn judge_moment(c: &[u8], i: usize) -> Result<(), Refusal>
    requires { (i < length c.now) × (i < 12) × Fits (take i moment_positions) [] (take i c.now) }
    ensures { Judges moment_positions c.now i (judged result) }
{
    if i < 8 {
        judge_day(c, i)
    } else {
        calendar::judge_time(&c[8..], i - 8)
    }
}

// Whether the byte at i of an 031's content fits after the bytes before it, which fit.
pub fn judge_flexible(c: &[u8], i: usize) -> Result<(), Refusal>
    requires { (i < length c.now) × (i < 16) × Fits (take i flexible_positions) [] (take i c.now) }
    ensures { Judges flexible_positions c.now i (judged result) }
{
    if i < 4 {
        judge_type(c, i)
    } else {
        judge_moment(&c[4..], i - 4)
    }
}

// Writes a day as yyyymmdd.
pub fn write_day(buffer: &mut [u8], at: usize, day: Day)
    requires { at + 8 ≤ length buffer.old }
    ensures { buffer.new ≡ laid_at at (day_text day) buffer.old }
{
    text::write_digits(buffer, at, 4, day.year as u64);
    text::write_digits(buffer, at + 4, 2, day.month as u64);
    text::write_digits(buffer, at + 6, 2, day.day as u64);
}
