// Storing a message's record for the hospital host in a lent buffer: it asks as the writer does, and only then stores a byte.
#![tactic(auto)]

ghost use Rattle.std.specs.Prelude.{◌≡◌, [], ◌∷◌, ◌/◌, ◌%◌, ◌≤◌, ◌<◌, length};
ghost use Rattle.text.specs.Buffer.{laid};
ghost use Rattle.structure.specs.Structures.{Lawful, body};
ghost use Rattle.message_writer.specs.Laws.Stores.{Asks};
ghost use Rattle.host_record.specs.Record.{field_of, head_field, starts, Records};
ghost use Rattle.host_record.specs.Host.{Exports};
ghost use Rattle.host_record.specs.Laws.Lengths.{ahead};
ghost use Rattle.host_export.specs.Laws.Export.{FieldRoom};

use label::{Edition, Form, Message, Structure};
use message::{Refused, Written};
use message_writer::layout;
use message_writer::layout::Layout;

// How far behind its tag's place a structure is written so that its data falls into place.
fn written_at(structure: Structure) -> usize
    ensures { (result ≡ ahead structure) × (result ≤ 2) }
{
    if structure::is_donation(structure) {
        2
    } else {
        1
    }
}

// How many bytes of data a structure's field has.
fn data_length(structure: Structure) -> usize
    requires { Lawful structure }
    ensures { (result ≡ length (body structure)) × (result ≤ 20) }
{
    structure_writer::write::written_length(structure) + written_at(structure) - 3
}

// How many bytes the field has: the tag, the two of the length, and the data.
fn field_length(structure: Structure) -> usize
    requires { Lawful structure }
    ensures { (result ≡ length (field_of structure)) × (result ≤ 23) }
{
    data_length(structure) + 3
}

// Stores a field's tag and its data's length, high byte first.
fn lay_front(part: &mut [u8], tag: u8, long: usize)
    requires { (3 ≤ length part.old) × (long < 65536) }
    ensures { part.new ≡ laid (tag ∷ long / 256 ∷ long % 256 ∷ []) part.old }
{
    part[0] = tag;
    part[1] = (long / 256) as u8;
    part[2] = (long % 256) as u8;
}

// Stores a structure's field: the structure is written so that its data falls into place, and the front laid over what stands before that.
fn lay_field(part: &mut [u8], structure: Structure)
    requires { FieldRoom structure part.old }
    ensures { part.new ≡ laid (field_of structure) part.old }
{
    let at = written_at(structure);
    structure_writer::write::write_structure(&mut part[at..], structure);
    let tag = structure::number_of(structure);
    lay_front(part, tag, data_length(structure));
}

// Stores a compound's first field, in the same way from an 023.
fn lay_head(part: &mut [u8], count: usize, bbb: u16)
    requires { 8 ≤ length part.old }
    ensures { part.new ≡ laid (head_field count bbb) part.old }
{
    message_writer::write_head(&mut part[1..], count, bbb);
    lay_front(part, host_record::HEAD, host_record::HEAD_DATA);
}

// A record's fields: as many bytes as a label's structures have, behind tags and lengths.
pub struct Field;

impl Layout for Field {
    ghost bytes = { field_of };

    ghost may = { Lawful };

    ghost front = { starts };

    fn front_size(form: Form) -> usize {
        match form {
            Form::Compound => 8,
            _ => 0,
        }
    }

    fn lay_front(message: &Message, buffer: &mut [u8]) {
        match message.form {
            Form::Compound => lay_head(buffer, message.count, message.bbb),
            _ => {}
        }
    }

    fn size(structure: Structure) -> usize {
        field_length(structure)
    }

    fn lay(part: &mut [u8], structure: Structure) {
        lay_field(part, structure);
    }
}

// How many bytes a message's record takes, before any byte is stored: ROOM goes by that length.
fn ask(message: Message, room: usize) -> Result<usize, Refused>
    ensures { Asks Records Edition.Current message room result }
{
    message_writer::ask_message(Edition::Current, &message)?;
    message_writer::in_room(layout::message_size::<Field>(message), room)
}

// Stores a message's record from the buffer's first byte on: any message, any buffer. A refusal leaves every byte as it was.
pub fn export(message: Message, buffer: &mut [u8]) -> Written
    ensures { Exports message buffer.old buffer.new result }
{
    let asked = ask(message, buffer.len());
    if asked.is_ok() {
        layout::lay_message::<Field>(&message, buffer);
    }
    Written::from(asked)
}
