// The rules of a message stand in specs/. Here are the answers of reading and of writing that they speak of.
#![tactic(auto)]

ghost use Rattle.std.specs.Prelude.{◌≡◌};
ghost use Rattle.message.specs.Grammar.{empty_message};
ghost use Rattle.message.specs.Told.{told};

use demand::Refusal;
use label::{Form, Message, Structure};

// What reading gives. A refused reading holds the empty message. A number and a place, as `later_refused` and `written_read` have them.
#[derive(Clone, Copy)]
pub struct Reading {
    pub message: Message,
    pub place: usize,
    pub refusal: u8,
}

// What writing gives: refusal number 0 and the message's length, or a refusal and its place. A struct of C.
#[repr(C)]
#[derive(Clone, Copy)]
pub struct Written {
    pub place: usize,
    pub refusal: u8,
}

// No structure, in the form of a single: what a refused reading holds.
pub fn empty_message() -> Message
    ensures { result ≡ empty_message }
{
    Message {
        entries: [label::entry_of(Structure::Empty, 0, 0); 16],
        count: 0,
        bbb: 0,
        form: Form::Single,
    }
}

// Why a message isn't written, and where.
#[derive(Clone, Copy, Debug, PartialEq, Eq)]
pub struct Refused {
    pub refusal: Refusal,
    pub place: usize,
}

// What is told of so many bytes written, or of a refusal.
impl From<Result<usize, Refused>> for Written {
    ghost from_gives = { λ r w. w ≡ told r };

    fn from(answer: Result<usize, Refused>) -> Written {
        match answer {
            Ok(needed) => Written {
                place: needed,
                refusal: demand::ACCEPTED,
            },
            Err(refused) => Written {
                place: refused.place,
                refusal: refused.refusal.number(),
            },
        }
    }
}
