// Check characters, keyboard entries and blood group codes. What it prints is held to the file stdout.
#![tactic(auto)]

use std::io;
use std::io::Stdout;

// The bytes, and their check character if they are a donation number.
fn check(out: Stdout, number: &[u8]) -> io::Result<()> {
    out.write_all(number)?;
    match check37::check_character(number) {
        Some(character) => {
            let told = [b' ', character, b'\n'];
            out.write_all(&told)
        }
        None => println!(out; " no donation number"),
    }
}

// The entry's number and place, and the donation number's parts.
fn enter(out: Stdout, entry: &[u8]) -> io::Result<()> {
    let entered = keyboard::enter(entry);
    let refusal = entered.refusal;
    let place = entered.place;
    print!(out; "{refusal} {place} ")?;
    let first = entered.donation.first;
    let facility = entered.donation.facility;
    let year = entered.donation.year;
    let sequence = entered.donation.sequence;
    print!(out; "{first} {facility} {year} {sequence} ")?;
    out.write_all(entry)?;
    println!(out)
}

// Paper 01's; the printed ones are read from their file, in tests/published.
fn donations(out: Stdout) -> io::Result<()> {
    check(out, b"W000021123456")?;
    check(out, b"A999921123456")?;
    check(out, b"A999912123456")?;
    check(out, b"A999921123458")?;
    Ok(())
}

// No letter O, no digit 0 first, no letter within, not twelve bytes nor fourteen, not none.
fn no_donations(out: Stdout) -> io::Result<()> {
    check(out, b"O000021123456")?;
    check(out, b"0000021123456")?;
    check(out, b"W00002112345A")?;
    check(out, b"W00002112345")?;
    check(out, b"W000021123456A")?;
    check(out, b"")?;
    Ok(())
}

// An entry of each number, and the ones beside it.
fn entries(out: Stdout) -> io::Result<()> {
    enter(out, b"W000021123456A")?;
    enter(out, b"A999921123458*")?;
    enter(out, b"A9999211234563")?;
    enter(out, b"")?;
    enter(out, b"W0000211234")?;
    enter(out, b"W000021123456")?;
    enter(out, b"O000021123456A")?;
    enter(out, b"0000021123456A")?;
    enter(out, b"W00002112345A6")?;
    enter(out, b"W000021123456a")?;
    enter(out, b"W000021123456B")?;
    enter(out, b"W000021123456BA")?;
    enter(out, b"W000021123456AB")?;
    Ok(())
}

// A code's row and column, and the code that stands there.
fn group(out: Stdout, gg0: u8, gg1: u8) -> io::Result<()> {
    let gg = [gg0, gg1, b' '];
    out.write_all(&gg)?;
    match bloodgroup::group_of(gg0, gg1) {
        Some((row, column)) => {
            print!(out; "{row} {column} ")?;
            code(out, row, column)
        }
        None => println!(out; "uninterpreted"),
    }
}

fn code(out: Stdout, row: usize, column: usize) -> io::Result<()> {
    match bloodgroup::code_at(row, column) {
        Some(number) => println!(out; "{number}"),
        None => println!(out; "no code"),
    }
}

fn groups(out: Stdout) -> io::Result<()> {
    group(out, b'9', b'5')?;
    group(out, b'9', b'8')?;
    group(out, b'5', b'1')?;
    group(out, b'0', b'6')?;
    group(out, b'0', b'9')?;
    group(out, b'6', b'4')?;
    group(out, b'6', b'5')?;
    group(out, b'1', b'7')?;
    group(out, b'6', b'9')?;
    group(out, b'3', b'1')?;
    group(out, b'8', b'7')?;
    group(out, b'0', b'0')?;
    group(out, b'5', b'5')?;
    group(out, b'a', b'0')?;
    group(out, b'5', b'Z')?;
    code(out, 7, 0)?;
    code(out, 8, 0)?;
    code(out, 0, 8)?;
    code(out, 18446744073709551615, 18446744073709551615)?;
    Ok(())
}

fn main(rt: HostRuntime) -> io::Result<()> {
    let out = rt.stdout();
    donations(out)?;
    no_donations(out)?;
    entries(out)?;
    groups(out)
}
