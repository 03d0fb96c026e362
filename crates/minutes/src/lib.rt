// The minutes that a unit has left: from now to its expiry.
#![tactic(auto)]

ghost use Rattle.std.specs.Prelude.{◌≡◌, ◌≤◌, ◌<◌};
ghost use Rattle.demand.specs.Numbered.{number_of, judged};
ghost use Rattle.text.specs.Decides.{Decides};
ghost use Rattle.minutes.specs.Minutes.{moment_of, LawfulYear, LawfulMoment, days_before, minute_count, minutes_from, refused, MinutesLeft};
ghost use Rattle.minutes.specs.Laws.Answer.{Judged};

use calendar::{Date, Expiry, Time};
use demand::Refusal;

// A minute: a date and a time of day.
#[repr(C)]
#[derive(Clone, Copy)]
pub struct Moment {
    pub date: Date,
    pub time: Time,
}

// The minutes left; or a refusal by its number, and its place: 0 for now, 1 for the expiry. A struct of C.
#[repr(C)]
#[derive(Clone, Copy)]
pub struct Left {
    pub minutes: i32,
    pub place: u8,
    pub refusal: u8,
}

// The minute that an expiry means: the last of its day where it has no time.
fn moment_of(expiry: Expiry) -> Moment
    ensures { result ≡ moment_of expiry }
{
    let date = expiry.date();
    if expiry.timed == 0 {
        let time = Time {
            hour: 23,
            minute: 59,
        };
        return Moment { date, time };
    }
    let time = expiry.time();
    Moment { date, time }
}

fn is_lawful_year(year: u16) -> bool
    ensures { Decides result (LawfulYear year) }
{
    Date::has_year(year)
}

// Whether a moment is lawful, or why not.
fn judge(moment: Moment) -> Result<(), Refusal>
    ensures { Judged moment (judged result) }
{
    let date = moment.date;
    if !is_lawful_year(date.year) {
        return Err(Refusal::Value);
    }
    if !calendar::is_lawful_date(date) {
        return Err(Refusal::Day);
    }
    if !calendar::is_lawful_time(moment.time) {
        return Err(Refusal::Time);
    }
    Ok(())
}

// The days from 1900 to the beginning of a year: 365 for each, and one for each leap year, of which 460 came before 1900.
fn days_before(year: u16) -> u32
    requires { LawfulYear year }
    ensures { (result ≡ days_before year) × (result ≤ 365000) }
{
    let last = year as u32 - 1;
    365 * (last - 1899) + (last / 4 - last / 100 + last / 400 - 460)
}

fn minute_count(moment: Moment) -> u32
    requires { LawfulMoment moment }
    ensures { (result ≡ minute_count moment) × (result < 530000000) }
{
    let date = moment.date;
    let time = moment.time;
    let days = days_before(date.year) + date.day as u32 - 1;
    (days * 24 + time.hour as u32) * 60 + time.minute as u32
}

fn minutes_from(now: Moment, expiry: Moment) -> i32
    requires { LawfulMoment now × LawfulMoment expiry }
    ensures { result ≡ minutes_from now expiry }
{
    minute_count(expiry) as i32 - minute_count(now) as i32
}

fn refused(place: u8, refusal: Refusal) -> Left
    ensures { result ≡ refused place (number_of refusal) }
{
    Left {
        minutes: 0,
        place,
        refusal: refusal.number(),
    }
}

// The minutes from now to an expiry, below zero once it has passed.
pub fn minutes_left(now: Moment, expiry: Expiry) -> Left
    ensures { MinutesLeft now expiry result }
{
    let end = moment_of(expiry);
    if let Err(refusal) = judge(now) {
        return refused(0, refusal);
    }
    if let Err(refusal) = judge(end) {
        return refused(1, refusal);
    }
    Left {
        minutes: minutes_from(now, end),
        place: 0,
        refusal: demand::ACCEPTED,
    }
}
