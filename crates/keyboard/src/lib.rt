// Keyboard entry of a donation number with its check character.
#![tactic(auto)]

ghost use Rattle.demand.specs.Numbered.{number_of};
ghost use Rattle.keyboard.specs.Entry.{Enters};
ghost use Rattle.keyboard.specs.Laws.Positions.{later_positions, refuses};
ghost use Rattle.keyboard.specs.Laws.Answers.{Refusal as Refused};
ghost use Rattle.keyboard.specs.Laws.Reader.{Begun, Complete};

use content_scan::Content;
use demand::{Refusal, Stop};
use label::Donation;

// The donation number, zeros where the entry is refused, with the place and the refusal number: C reads it, so it is no Result.
#[repr(C)]
#[derive(Clone, Copy)]
pub struct Entered {
    pub donation: Donation,
    pub place: usize,
    pub refusal: u8,
}

// What follows the first character: twelve digits and the check.
struct Later;

impl Content for Later {
    ghost positions = { later_positions };

    fn size() -> usize {
        13
    }

    fn judge(entry: &[u8], i: usize) -> Result<(), Refusal> {
        let b = entry[i + 1];
        match i {
            12 => demand::verdict(
                check37::is_check_character(b),
                b == check37::check_of(&entry[..13]),
                Refusal::Check,
            ),
            _ => demand::verdict(text::is_digit(b), true, Refusal::Value),
        }
    }

    ghost tells = { refuses };
}

// A refused entry.
fn refusal(refusal: Refusal, place: usize) -> Entered
    ensures { Refused (number_of refusal) place result }
{
    Entered {
        donation: Donation::zeros(),
        place: place,
        refusal: refusal.number(),
    }
}

// A complete entry; bytes behind it are refused.
fn ended(entry: &[u8]) -> Entered
    requires { Complete entry.now }
    ensures { Enters entry.now result }
{
    if 14 < entry.len() {
        return refusal(Refusal::Trailing, 14);
    }
    Entered {
        donation: structure_reader::value::donation(entry),
        place: 14,
        refusal: demand::ACCEPTED,
    }
}

// An entry whose first character is one.
fn begun(entry: &[u8]) -> Entered
    requires { Begun entry.now }
    ensures { Enters entry.now result }
{
    match content_scan::scan::<Later>(entry) {
        Ok(()) => ended(entry),
        Err(Stop::Short) => refusal(Refusal::Short, entry.len()),
        Err(Stop::Refused(reason, i)) => refusal(reason, i + 1),
    }
}

// Reads what was typed: any bytes at all.
pub fn enter(entry: &[u8]) -> Entered
    ensures { Enters entry.now result }
{
    if entry.len() == 0 {
        return refusal(Refusal::Short, 0);
    }
    if text::is_first_character(entry[0]) {
        begun(entry)
    } else {
        refusal(Refusal::Character, 0)
    }
}
