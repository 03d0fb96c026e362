// The research extract: the line of an accepted scan, without its donor's sequence number and flags.
#![tactic(auto)]

ghost use Rattle.std.specs.Prelude.{◌≡◌, List, ℕ, ◌+◌, ◌≤◌, length};
ghost use Rattle.text.specs.Buffer.{laid, laid_at};
ghost use Rattle.structure.specs.Structures.{number_in};
ghost use Rattle.message.specs.Grammar.{Produces};
ghost use Rattle.message.specs.Writing.{structures_of};
ghost use Rattle.extract_line.specs.Extract.{shown, letter, field, fields, line_of};
ghost use Rattle.lines.specs.Buffer.{Lays};
ghost use Rattle.extract_line.specs.Extracts.{Extracts};
ghost use Rattle.extract_line.specs.Lines.{LineExtract, extract_room};
ghost use Rattle.extract_line.specs.Laws.Copied.{Measured, Stands, before_shown, shown_of};

use demand::Refusal;
use label::{Edition, Entry, Form, Message, Structure};
use message::Written;

// The form's letter.
fn letter_of(form: Form) -> u8
    ensures { result ≡ letter form }
{
    match form {
        Form::Single => b'S',
        Form::Pair => b'P',
        Form::Compound => b'C',
    }
}

// How many of a structure's bytes stand before what is shown of it: the = of an 001, the identifier of any other.
fn skipped(structure: Structure) -> usize
    ensures { result ≡ before_shown (number_in structure) }
{
    if structure::is_donation(structure) {
        1
    } else {
        2
    }
}

// How many bytes are shown of a structure of so many.
fn shown_length(structure: Structure, length: usize) -> usize
    requires { 2 ≤ length }
    ensures { result ≡ shown_of (number_in structure) length }
{
    if structure::is_donation(structure) {
        7
    } else {
        length - 2
    }
}

// How many bytes an entry takes in the line: two blanks, three digits, and what is shown of it.
fn field_length(entry: Entry) -> usize
    requires { Measured entry }
    ensures { (result ≡ length (field entry.structure)) × (result ≤ 24) }
{
    5 + shown_length(entry.structure, entry.length)
}

// Copies what is shown of an entry from the scan to the part's front.
fn lay_shown(scan: &[u8], entry: Entry, part: &mut [u8])
    requires stands { Stands scan.now entry }
    requires room { length (shown entry.structure) ≤ length part.old }
    ensures { part.new ≡ laid (shown entry.structure) part.old }
{
    let size = shown_length(entry.structure, entry.length);
    let start = entry.place + skipped(entry.structure);
    text::lay(part, &scan[start..start + size]);
}

// Lays out an entry's field from the part's first byte on.
fn lay_field(scan: &[u8], entry: Entry, part: &mut [u8])
    requires stands { Stands scan.now entry }
    requires room { length (field entry.structure) ≤ length part.old }
    ensures { part.new ≡ laid (field entry.structure) part.old }
{
    let structure = entry.structure;
    part[0] = b' ';
    text::write_digits(part, 1, 3, structure::number_of(structure) as u64);
    part[4] = b' ';
    lay_shown(scan, entry, &mut part[5..]);
}

// How many bytes the entries within the count take.
fn fields_length(message: Message) -> usize
    requires { (s : List ℕ) × Produces Edition.Current message s }
    ensures { (result ≡ length (fields (structures_of message))) × (result ≤ 384) }
{
    // By index: over a slice of the message's entries extract takes 26 % more instructions, as the message is then stored.
    let entries = message.entries;
    let mut long = 0;
    for i in 0..message.count {
        long += field_length(entries[i]);
    }
    long
}

// Lays out the entries within the count behind form and bbb, and tells where they end.
fn lay_fields(scan: &[u8], message: Message, buffer: &mut [u8]) -> usize
    requires produces { Produces Edition.Current message scan.now }
    requires room { 4 + length (fields (structures_of message)) ≤ length buffer.old }
    ensures end { result ≡ 4 + length (fields (structures_of message)) }
    ensures laid_out { buffer.new ≡ laid_at 4 (fields (structures_of message)) buffer.old }
{
    // By index, as in fields_length.
    let entries = message.entries;
    let mut at = 4;
    for i in 0..message.count {
        let entry = entries[i];
        lay_field(scan, entry, &mut buffer[at..]);
        at += field_length(entry);
    }
    at
}

// Lays out the line of a message.
fn lay_line(scan: &[u8], message: Message, buffer: &mut [u8])
    requires produces { Produces Edition.Current message scan.now }
    requires room { length (line_of message) ≤ length buffer.old }
    ensures { buffer.new ≡ laid (line_of message) buffer.old }
{
    let form = message.form;
    buffer[0] = letter_of(form);
    text::write_digits(buffer, 1, 3, message.bbb as u64);
    let end = lay_fields(scan, message, buffer);
    buffer[end] = b'\n';
}

// Extracts a scan's line from the buffer's first byte on: any scan, any buffer. A refusal leaves every byte as it was.
pub fn extract(scan: &[u8], buffer: &mut [u8]) -> Written
    ensures { Extracts scan.now buffer.old buffer.new result }
{
    let reading = message_reader::read(Edition::Current, scan);
    if reading.refusal != demand::ACCEPTED {
        return Written {
            place: reading.place,
            refusal: reading.refusal,
        };
    }
    let message = reading.message;
    let needed = 5 + fields_length(message);
    if buffer.len() < needed {
        return Written {
            place: needed,
            refusal: Refusal::Room.number(),
        };
    }
    lay_line(scan, message, buffer);
    Written {
        place: needed,
        refusal: demand::ACCEPTED,
    }
}

// Lays out the extract of a line, nothing for a refused one, and tells where it ends.
pub fn lay_extract(line: &[u8], out: &mut [u8], at: usize) -> usize
    requires { at + extract_room (length line.now) ≤ length out.old }
    ensures { Lays (LineExtract line.now) at out.old out.new result }
{
    let end = lines::judged_length(line.len());
    let extracted = extract(&line[..end], &mut out[at..]);
    if extracted.refusal == demand::ACCEPTED {
        return at + extracted.place;
    }
    at
}
