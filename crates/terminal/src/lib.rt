// What the terminal's firmware asks about a scan, as C functions over a pointer and a length: one verdict, and the three answers.
#![tactic(auto)]

ghost use Rattle.terminal.specs.Terminal.{Judges, ScanRefusal, ScanPlace, CheckCharacter};

use label::Edition;

// What is kept of a reading. A struct of C.
#[repr(C)]
#[derive(Clone, Copy)]
pub struct Verdict {
    pub place: usize,
    pub count: usize,
    pub refusal: u8,
}

// Refusal number, place and number of structures of a scan, from one reading. It is the one caller of read, so that the message is
// optimised away; the whole scan as a part has pointer and length passed on in registers.
#[unsafe(no_mangle)]
pub extern "C" fn appleounce_judge(scan: &[u8]) -> Verdict
    ensures { Judges scan.now result }
{
    let reading = message_reader::read(Edition::Current, &scan[..]);
    Verdict {
        place: reading.place,
        count: reading.message.count,
        refusal: reading.refusal,
    }
}

// The refusal number of a scan: 0 where it is accepted.
#[unsafe(no_mangle)]
pub extern "C" fn appleounce_refusal(scan: &[u8]) -> u8
    ensures { ScanRefusal scan.now result }
{
    appleounce_judge(scan).refusal
}

// The place of a scan: its length where it is accepted.
#[unsafe(no_mangle)]
pub extern "C" fn appleounce_place(scan: &[u8]) -> usize
    ensures { ScanPlace scan.now result }
{
    appleounce_judge(scan).place
}

// The check character of a donation number, and 0 for any other bytes.
#[unsafe(no_mangle)]
pub extern "C" fn appleounce_check(number: &[u8]) -> u8
    ensures { CheckCharacter number.now result }
{
    match check37::check_character(number) {
        Some(character) => character,
        None => 0,
    }
}
