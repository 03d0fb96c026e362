// What a terminal shows and takes beside a scan's values, as C functions: typed numbers, blood groups, days, minutes, extracts.
#![tactic(auto)]

ghost use Rattle.std.specs.Prelude.{◌≡◌};
ghost use Rattle.bloodgroup.specs.Groups.{code_at};
ghost use Rattle.extract_line.specs.Extracts.{Extracts};
ghost use Rattle.keyboard.specs.Entry.{Enters};
ghost use Rattle.minutes.specs.Minutes.{MinutesLeft};
ghost use Rattle.terminal_desk.specs.Desk.{GroupOf, code_byte, DayOfYear, CalendarDayOf};

use calendar::{Date, Expiry};
use keyboard::Entered;
use message::Written;
use minutes::{Left, Moment};
use months::Day;

// What a gg means: known 1 with its row and column, or zeros.
#[repr(C)]
#[derive(Clone, Copy)]
pub struct CGroup {
    pub known: u8,
    pub row: u8,
    pub column: u8,
}

// Reads what was typed.
#[unsafe(no_mangle)]
pub extern "C" fn appleounce_keyboard(entry: &[u8]) -> Entered
    ensures { Enters entry.now result }
{
    keyboard::enter(entry)
}

// What a gg means.
#[unsafe(no_mangle)]
pub extern "C" fn appleounce_group_of(gg0: u8, gg1: u8) -> CGroup
    ensures { GroupOf gg0 gg1 result }
{
    match bloodgroup::group_of(gg0, gg1) {
        Some((row, column)) => CGroup {
            known: 1,
            row: row as u8,
            column: column as u8,
        },
        None => CGroup {
            known: 0,
            row: 0,
            column: 0,
        },
    }
}

// The code at a row and a column, and 255 where there is none.
#[unsafe(no_mangle)]
pub extern "C" fn appleounce_code_at(row: usize, column: usize) -> u8
    ensures { result ≡ code_byte (code_at row column) }
{
    match bloodgroup::code_at(row, column) {
        Some(number) => number,
        None => 255,
    }
}

// The minutes from now to an expiry.
#[unsafe(no_mangle)]
pub extern "C" fn appleounce_minutes_left(now: Moment, expiry: Expiry) -> Left
    ensures { MinutesLeft now expiry result }
{
    minutes::minutes_left(now, expiry)
}

// The number in its year of a calendar day, and 0 for what is no day.
#[unsafe(no_mangle)]
pub extern "C" fn appleounce_day_of_year(day: Day) -> u16
    ensures { DayOfYear day result }
{
    match months::to_ordinal(day) {
        Some(date) => date.day,
        None => 0,
    }
}

// The calendar day of a year that has this number, and month and day 0 where there is none.
#[unsafe(no_mangle)]
pub extern "C" fn appleounce_calendar_day(year: u16, ordinal: u16) -> Day
    ensures { CalendarDayOf year ordinal result }
{
    let date = Date {
        year: year,
        day: ordinal,
    };
    match months::from_ordinal(date) {
        Some(day) => day,
        None => Day {
            year: year,
            month: 0,
            day: 0,
        },
    }
}

// Extracts a scan's line.
#[unsafe(no_mangle)]
pub extern "C" fn appleounce_extract(scan: &[u8], buffer: &mut [u8]) -> Written
    ensures { Extracts scan.now buffer.old buffer.new result }
{
    extract_line::extract(scan, buffer)
}
