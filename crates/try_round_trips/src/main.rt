// Messages of every kind and form, read, written and read back, in both editions; then messages and buffers that the writer refuses. What it
// prints is held to the file stdout: the writer's number and place, the number of structures read back, and the buffer's first bytes.
#![tactic(auto)]

use label::{Antigens2001, Edition, Entry, Form, Groups, Message, Structure};
use std::io;
use std::io::Stdout;

// How many structures the bytes that were written are read back as.
fn read_back(out: Stdout, edition: Edition, buffer: &[u8], place: usize) -> io::Result<()> {
    if place <= buffer.len() {
        let again = message_reader::read(edition, &buffer[..place]);
        let count = again.message.count;
        print!(out; "{count} ")?;
    }
    Ok(())
}

// The buffer's first bytes, with up to four past those that were written.
fn first_bytes(out: Stdout, buffer: &[u8], place: usize) -> io::Result<()> {
    if 4 <= buffer.len() {
        if place <= buffer.len() - 4 {
            let end = place + 4;
            return out.write_all(&buffer[..end]);
        }
    }
    out.write_all(buffer)
}

fn write_back(
    out: Stdout,
    edition: Edition,
    message: Message,
    buffer: &mut [u8],
) -> io::Result<()> {
    let written = message_writer::write(edition, message, buffer);
    let refusal = written.refusal;
    let place = written.place;
    print!(out; "{refusal} {place} ")?;
    if refusal == 0 {
        read_back(out, edition, buffer, place)?;
    }
    first_bytes(out, buffer, place)?;
    println!(out)
}

// Writes a message into a buffer of points with room for it.
fn show_in(out: Stdout, edition: Edition, message: Message) -> io::Result<()> {
    let mut buffer = [b'.'; 330];
    write_back(out, edition, message, &mut buffer)
}

fn show(out: Stdout, message: Message) -> io::Result<()> {
    show_in(out, Edition::Current, message)
}

// Reads a label in an edition and writes it in another or the same.
fn copy_in(out: Stdout, read: Edition, label: &[u8], written: Edition) -> io::Result<()> {
    let reading = message_reader::read(read, label);
    let message = reading.message;
    show_in(out, written, message)
}

fn copy(out: Stdout, label: &[u8]) -> io::Result<()> {
    copy_in(out, Edition::Current, label, Edition::Current)
}

fn older(out: Stdout, label: &[u8]) -> io::Result<()> {
    copy_in(out, Edition::Of2001, label, Edition::Of2001)
}

// Labels of 2001, alone and in pairs.
fn editions(out: Stdout) -> io::Result<()> {
    older(out, b"={0000000000000000001")?;
    older(out, b"={9999999999999999990")?;
    older(out, b"={000000000000000001*")?;
    older(out, b"&}0000010000")?;
    older(out, b"=W99999999999993=%5100")?;
    older(out, b"=<T1234001&>0203661330")?;
    copy_in(out, Edition::Of2001, b"=%51a0", Edition::Current)?;
    copy_in(out, Edition::Current, b"=%51a0", Edition::Of2001)?;
    Ok(())
}

// SHAPE: a kind of the other edition, and a compound in that of 2001.
fn other_kinds(out: Stdout) -> io::Result<()> {
    copy_in(
        out,
        Edition::Of2001,
        b"={0000000000000000001",
        Edition::Current,
    )?;
    copy_in(
        out,
        Edition::Current,
        b"=\\000000000000000001",
        Edition::Of2001,
    )?;
    copy_in(out, Edition::Current, b"&)aZ09bY18cX", Edition::Of2001)?;
    copy_in(
        out,
        Edition::Current,
        b"=(1003202504300000",
        Edition::Of2001,
    )?;
    copy_in(out, Edition::Current, b"=+01000=%5100", Edition::Of2001)?;
    Ok(())
}

fn antigens(results: u64, ii: u8) -> Message {
    let antigens = Antigens2001 {
        results: results,
        ii: ii,
    };
    Message {
        entries: [label::entry_of(Structure::Antigens2001(antigens), 0, 0); 16],
        count: 1,
        bbb: 0,
        form: Form::Single,
    }
}

// Values that the structure of 2001 has, and has not: then SHAPE comes before FIELD in the current edition.
fn antigen_values(out: Stdout) -> io::Result<()> {
    show_in(out, Edition::Of2001, antigens(4862861395589999, 99))?;
    show_in(out, Edition::Of2001, antigens(9999999999999999, 100))?;
    show_in(out, Edition::Of2001, antigens(10000000000000000, 0))?;
    show(out, antigens(10000000000000000, 0))?;
    Ok(())
}

// Each of the twelve kinds alone, with its least or its greatest values.
fn singles(out: Stdout) -> io::Result<()> {
    copy(out, b"=W00002112345600")?;
    copy(out, b"=%51a0")?;
    copy(out, b"=<E0178VBb")?;
    copy(out, b"=>900001")?;
    copy(out, b"&>8993652359")?;
    copy(out, b"=*020366")?;
    copy(out, b"=*000366")?;
    copy(out, b"&*0203661330")?;
    copy(out, b"=}000001")?;
    copy(out, b"&}0000010000")?;
    copy(out, b"&(N0009")?;
    copy(out, b"=\\000000000000000001")?;
    copy(out, b"=\\999999999999999999")?;
    copy(out, b"&)aZ09bY18cX")?;
    Ok(())
}

// Pairs, and compounds of one, of five and of sixteen.
fn others(out: Stdout) -> io::Result<()> {
    copy(out, b"=900009999999972=%a0Z0")?;
    copy(out, b"=W99999999999993=%5100")?;
    copy(out, b"=<T1234001&>0203661330")?;
    copy(out, b"=+01000=%5100")?;
    copy(
        out,
        b"=+05999=W00002112345600=%5100=<E0178V00&>0203661330=\\012345678901234567",
    )?;
    copy(
        out,
        b"=+16016=>000001=>000002=>000003=>000004=>000005=>000006=>000007=>000008=>000009=>000010=>000011=>000012=>000013=>000014=>000015=>000016",
    )?;
    Ok(())
}

fn empty() -> Message {
    Message {
        entries: [label::entry_of(Structure::Empty, 0, 0); 16],
        count: 0,
        bbb: 0,
        form: Form::Single,
    }
}

// A blood group label's entry; place and length are no label's, and the writer looks at neither.
fn groups(gg1: u8) -> Entry {
    let groups = Groups {
        gg0: b'5',
        gg1: gg1,
        r: b'0',
    };
    label::entry_of(Structure::Groups(groups), 999, 0)
}

// A message of blood group labels in every entry: what stands past the count is not written.
fn filled(form: Form, count: usize, bbb: u16) -> Message {
    Message {
        entries: [groups(b'1'); 16],
        count: count,
        bbb: bbb,
        form: form,
    }
}

// SHAPE: no structure, two in a single, two groups as a pair, none or seventeen in a compound, a bbb over 999 or where none may be.
fn shapes(out: Stdout) -> io::Result<()> {
    show(out, empty())?;
    show(out, filled(Form::Single, 2, 0))?;
    show(out, filled(Form::Pair, 2, 0))?;
    show(out, filled(Form::Compound, 0, 0))?;
    show(out, filled(Form::Compound, 17, 0))?;
    show(out, filled(Form::Compound, 18446744073709551615, 0))?;
    show(out, filled(Form::Compound, 2, 1000))?;
    show(out, filled(Form::Single, 1, 1))?;
    show(out, filled(Form::Single, 1, 0))?;
    show(out, filled(Form::Compound, 3, 999))?;
    Ok(())
}

// FIELD: the first entry within the number that is empty or has a value that no label has.
fn fields(out: Stdout) -> io::Result<()> {
    let mut first = filled(Form::Compound, 3, 0);
    first.entries[2] = label::entry_of(Structure::Empty, 0, 0);
    show(out, first)?;
    first.entries[1] = groups(b'-');
    show(out, first)?;
    first.count = 1;
    show(out, first)?;
    let mut lone = empty();
    lone.count = 1;
    show(out, lone)?;
    Ok(())
}

// ROOM: a buffer a byte too short, and none at all; then one that is just enough, and a byte over.
fn rooms(out: Stdout) -> io::Result<()> {
    let message = filled(Form::Single, 1, 0);
    let mut five = [b'.'; 5];
    write_back(out, Edition::Current, message, &mut five)?;
    let mut none = [b'.'; 0];
    write_back(out, Edition::Current, message, &mut none)?;
    let mut six = [b'.'; 6];
    write_back(out, Edition::Current, message, &mut six)?;
    let mut seven = [b'.'; 7];
    write_back(out, Edition::Current, message, &mut seven)?;
    Ok(())
}

fn main(rt: HostRuntime) -> io::Result<()> {
    let out = rt.stdout();
    singles(out)?;
    others(out)?;
    shapes(out)?;
    fields(out)?;
    rooms(out)?;
    editions(out)?;
    other_kinds(out)?;
    antigen_values(out)
}
