// Structures laid one behind the other: each in its form on a label, or as a field of a record.
ghost use Rattle.std.specs.Prelude.{◌≡◌, List, ℕ, ◌≤◌, ◌<◌, length};
ghost use Rattle.text.specs.Buffer.{laid, laid_at};
ghost use Rattle.label.specs.declared.Form.{Form};
ghost use Rattle.label.specs.declared.Structure.{Structure};
ghost use Rattle.structure.specs.Structures.{written};
ghost use Rattle.message.specs.Grammar.{in_turn};
ghost use Rattle.message.specs.Writing.{structures_of};
ghost use Rattle.message.specs.Laws.Write.{front};
ghost use Rattle.message_writer.specs.Laws.Writer.{any_structure, EachWithin, WriteRoom, MessageRoom, bytes_by};

use label::{Form, Message, Structure};

// How a structure is laid into a buffer.
pub trait Layout {
    ghost bytes: { Structure → List ℕ };

    ghost may: { Structure → Type 0 };

    ghost front: { Form → ℕ → ℕ → List ℕ };

    // How many bytes stand before the structures.
    fn front_size(form: Form) -> usize
        ensures { (count bbb : ℕ) → (result ≡ length (front form count bbb)) × (result ≤ 8) };

    // Lays them.
    fn lay_front(message: &Message, buffer: &mut [u8])
        requires { length (front message.now.form message.now.count message.now.bbb) ≤ length buffer.old }
        ensures { buffer.new ≡ laid (front message.now.form message.now.count message.now.bbb) buffer.old };

    // How many bytes a structure takes.
    fn size(structure: Structure) -> usize
        requires { may structure }
        ensures { (result ≡ length (bytes structure)) × (result ≤ 23) };

    // Lays it from the part's first byte on.
    fn lay(part: &mut [u8], structure: Structure)
        requires { may structure × (length (bytes structure) ≤ length part.old) }
        ensures { part.new ≡ laid (bytes structure) part.old };
}

// The form on a label.
pub struct Label;

impl Layout for Label {
    ghost bytes = { written };

    ghost may = { any_structure };

    ghost front = { front };

    fn front_size(form: Form) -> usize {
        match form {
            Form::Compound => 7,
            _ => 0,
        }
    }

    fn lay_front(message: &Message, buffer: &mut [u8]) {
        match message.form {
            Form::Compound => crate::write_head(buffer, message.count, message.bbb),
            _ => {}
        }
    }

    fn size(structure: Structure) -> usize {
        structure_writer::write::written_length(structure)
    }

    fn lay(part: &mut [u8], structure: Structure) {
        structure_writer::write::write_structure(part, structure);
    }
}

// How many bytes the entries within the count take.
pub fn length_within<L: Layout>(message: &Message) -> usize
    requires { EachWithin L.may message.now }
    ensures { (result ≡ length (in_turn L.bytes (structures_of message.now))) × (result ≤ 368) }
{
    let mut long = 0;
    for entry in &message.entries[..message.count] {
        long += L::size(entry.structure);
    }
    long
}

// Lays the entries within the count, each into the part of the buffer from the cursor on.
pub fn lay_within<L: Layout>(message: &Message, buffer: &mut [u8], start: usize)
    requires { EachWithin L.may message.now × WriteRoom L.bytes start message.now.entries message.now.count buffer.old }
    ensures { buffer.new ≡ laid_at start (in_turn L.bytes (structures_of message.now)) buffer.old }
{
    let mut at = start;
    for entry in &message.entries[..message.count] {
        L::lay(&mut buffer[at..], entry.structure);
        at += L::size(entry.structure);
    }
}

// Lays a message whose values a layout may lay, and which has its room.
pub fn lay_message<L: Layout>(message: &Message, buffer: &mut [u8])
    requires { EachWithin L.may message.now × MessageRoom L.front L.bytes message.now buffer.old }
    ensures { buffer.new ≡ laid (bytes_by L.front L.bytes message.now) buffer.old }
{
    L::lay_front(message, buffer);
    lay_within::<L>(message, buffer, L::front_size(message.form));
}

// How many bytes it takes. By value, as the type of the entries tells that they are sixteen only of a value that is at hand.
pub fn message_size<L: Layout>(message: Message) -> usize
    requires { EachWithin L.may message }
    ensures { result ≡ length (bytes_by L.front L.bytes message) }
{
    L::front_size(message.form) + length_within::<L>(&message)
}
