// Writing a message into a lent buffer: it asks for SHAPE, then FIELD, then ROOM, and only then stores a byte.
#![tactic(auto)]

ghost use Rattle.std.specs.Prelude.{◌≡◌, ◌≤◌, ◌<◌, length};
ghost use Rattle.text.specs.Buffer.{laid, laid_at};
ghost use Rattle.text.specs.Decides.{Decides};
ghost use Rattle.structure.specs.Structures.{written};
ghost use Rattle.message.specs.Grammar.{start_of, header, donations, written_all};
ghost use Rattle.message.specs.Grammar.{Produces};
ghost use Rattle.message.specs.Writing.{structures_of, Shapely, Stores};
ghost use Rattle.message.specs.Laws.Write.{front, text_of};
ghost use Rattle.message_writer.specs.Laws.Shape.{MayPair, FewOf, ShapedMessage, SeatsIn};
ghost use Rattle.message_writer.specs.Laws.Writer.{FirstUnlawful, WriteRoom, MessageRoom};
ghost use Rattle.message_writer.specs.Laws.Stores.{Asked, Asks, InRoom};

use demand::Refusal;
use label::{Edition, Form, Message, Structure};
use layout::Label;
use message::{Refused, Written};

pub mod layout;

// Whether the first two entries may be a pair, an empty one being free: 001 and 002, or 003 and 005. By number, as `pair_tells` has it.
fn may_pair(first: Structure, second: Structure) -> bool
    ensures { Decides result (MayPair first second) }
{
    let a = structure::number_of(first);
    let b = structure::number_of(second);
    (((a == 0) | (a == 1)) & ((b == 0) | (b == 2)))
        | (((a == 0) | (a == 3)) & ((b == 0) | (b == 5)))
}

// Whether the entries within the count hold at most one donation number.
fn one_donation(message: &Message) -> bool
    requires { message.now.count ≤ 16 }
    ensures { Decides result (donations (structures_of message.now) ≤ 1) }
{
    let mut held: usize = 0;
    for entry in &message.entries[..message.count] {
        if structure::is_donation(entry.structure) {
            held += 1;
        }
    }
    held <= 1
}

// Whether the entries within the count are of the edition's kinds, an empty one being free.
fn are_of_edition(edition: Edition, message: &Message) -> bool
    requires { message.now.count ≤ 16 }
    ensures { Decides result (SeatsIn edition message.now.entries message.now.count) }
{
    for entry in &message.entries[..message.count] {
        if !structure::of_edition(edition, structure::number_of(entry.structure)) {
            return false;
        }
    }
    true
}

// Whether a compound may have these entries.
fn are_few(message: &Message) -> bool
    requires { message.now.count ≤ 16 }
    ensures { Decides result (FewOf Edition.Current message.now.entries message.now.count) }
{
    one_donation(message) & are_of_edition(Edition::Current, message)
}

// Whether a compound of the grammar has this count, bbb and kinds.
fn is_compound(message: &Message) -> bool
    ensures { Decides result (ShapedMessage Edition.Current Form.Compound message.now) }
{
    let count = message.count;
    (((1 <= count) & (count <= 16)) & (message.bbb <= 999)) && are_few(message)
}

// Whether a message of the edition's grammar has this form, count, bbb and kinds.
fn is_shapely(edition: Edition, message: &Message) -> bool
    ensures { Decides result (Shapely edition message.now) }
{
    let count = message.count;
    let first = message.entries[0].structure;
    match message.form {
        Form::Single => {
            let here = structure::of_edition(edition, structure::number_of(first));
            ((count == 1) & here) & (message.bbb == 0)
        }
        Form::Pair => {
            let paired = may_pair(first, message.entries[1].structure);
            ((count == 2) & paired) & (message.bbb == 0)
        }
        Form::Compound => match edition {
            Edition::Current => is_compound(message),
            Edition::Of2001 => false,
        },
    }
}

// The index of the first entry within the count that reading can't give.
fn first_unlawful(message: &Message) -> Option<usize>
    requires { message.now.count ≤ 16 }
    ensures { FirstUnlawful message.now.entries message.now.count result }
{
    for (i, entry) in message.entries[..message.count].iter().enumerate() {
        if !structure_writer::lawful::is_lawful(entry.structure) {
            return Some(i);
        }
    }
    None
}

// Writes an 023.
pub fn write_head(buffer: &mut [u8], count: usize, bbb: u16)
    requires { 7 ≤ length buffer.old }
    ensures { buffer.new ≡ laid (header count bbb) buffer.old }
{
    structure_writer::write::name(buffer, b'=', b'+');
    text::write_digits(buffer, 2, 2, count as u64);
    text::write_digits(buffer, 4, 3, bbb as u64);
}

// How many bytes a message takes, if there is room for them.
pub fn in_room(needed: usize, room: usize) -> Result<usize, Refused>
    ensures { InRoom needed room result }
{
    if room < needed {
        return Err(Refused {
            refusal: Refusal::Room,
            place: needed,
        });
    }
    Ok(needed)
}

// Whether SHAPE, and then FIELD, the rows that ask for the message alone, let it pass.
pub fn ask_message(edition: Edition, message: &Message) -> Result<(), Refused>
    ensures { Asked edition message.now result }
{
    if !is_shapely(edition, message) {
        return Err(Refused {
            refusal: Refusal::Shape,
            place: 0,
        });
    }
    match first_unlawful(message) {
        Some(place) => Err(Refused {
            refusal: Refusal::Field,
            place,
        }),
        None => Ok(()),
    }
}

// How many bytes a message is written in, before any byte is stored: ROOM comes last.
fn ask(edition: Edition, message: Message, room: usize) -> Result<usize, Refused>
    ensures { Asks (Produces edition) edition message room result }
{
    ask_message(edition, &message)?;
    in_room(layout::message_size::<Label>(message), room)
}

// Writes a message of an edition from the buffer's first byte on: any message, any buffer. A refusal leaves every byte as it was.
pub fn write(edition: Edition, message: Message, buffer: &mut [u8]) -> Written
    ensures { Stores edition message buffer.old buffer.new result }
{
    let asked = ask(edition, message, buffer.len());
    if asked.is_ok() {
        layout::lay_message::<Label>(&message, buffer);
    }
    Written::from(asked)
}
