// Reading a scan: its answer is a message with number 0 and the length, or a refusal's number and place.
#![tactic(auto)]

ghost use Rattle.std.specs.Prelude.{◌≡◌, true, ◌∷◌, ◌<◌, length, Ok};
ghost use Rattle.message.specs.Reading.{Answers};
ghost use Rattle.message.specs.Laws.Answers.{Refusal as Refused};
ghost use Rattle.structure.specs.Laws.Spot.{is_head};
ghost use Rattle.message_reader.specs.Laws.Hope.{second_of, is_first, moved, next_of};
ghost use Rattle.message_reader.specs.Laws.Loop.{form_of, Trees, Dues, Takes, Ended, Gives, stopped, begun, Starts};
ghost use Rattle.message_reader.specs.Laws.Reader.{labels, label_dues};
ghost use Rattle.message_reader.specs.Laws.Start.{plain_beginning, HeadBody, Opens};

use demand::{Reason, Refusal, Stop};
use label::{Edition, Form, Message, Structure};
use message::Reading;
use structure::Spot;

// Where the first structure is due, in the bytes and on the label, how many are to come, and the bbb of an 023 before them.
#[derive(Clone, Copy)]
pub struct Beginning {
    pub at: usize,
    pub place: usize,
    pub structures: usize,
    pub bbb: u16,
    pub spot: Spot,
}

// A single or a pair begins with its first byte.
pub fn plain(spot: Spot) -> Beginning
    ensures { result ≡ plain_beginning spot }
{
    Beginning {
        at: 0,
        place: 0,
        structures: 1,
        bbb: 0,
        spot: spot,
    }
}

// A structure that was read: its length on the label, and how many bytes it has where it was read.
#[derive(Clone, Copy)]
pub struct Taken {
    pub structure: Structure,
    pub long: usize,
    pub past: usize,
}

// A language of messages, which is read structure by structure.
pub trait Language {
    ghost trees: { Trees };

    ghost dues: { Dues trees };

    // Reads one structure from the part of the bytes that begins with it.
    fn take(spot: Spot, part: &[u8]) -> Result<Taken, Stop>
        ensures { Takes (dues.due spot) part.now result };
}

// Scans, whose bytes are the label's.
struct Scans;

impl Language for Scans {
    ghost trees = { labels };

    ghost dues = { label_dues };

    fn take(spot: Spot, part: &[u8]) -> Result<Taken, Stop> {
        let found = structure_reader::read_structure(spot, part)?;
        Ok(Taken {
            structure: found.structure,
            long: found.long,
            past: found.long,
        })
    }
}

// Where the reader goes on, and how many structures are to come.
#[derive(Clone, Copy)]
pub struct Next {
    pub left: usize,
    pub spot: Spot,
}

// The second structure that may be hoped for after a first.
fn second_of(structure: Structure) -> Option<Spot>
    ensures { result ≡ second_of structure }
{
    match structure {
        Structure::Donation(..) => Some(Spot::AfterDonation),
        Structure::Product(..) => Some(Spot::AfterProduct),
        _ => None,
    }
}

// Whether a first structure is due there.
fn is_first(spot: Spot) -> bool
    ensures { result ≡ is_first spot }
{
    matches!(spot, Spot::First | Spot::First2001)
}

// The spot within a compound after this structure, where no donation number stood before it.
fn holding(structure: Structure) -> Spot
    ensures { result ≡ moved Spot.Within structure }
{
    if structure::is_donation(structure) {
        Spot::Holding
    } else {
        Spot::Within
    }
}

// The spot after a structure of the same message.
fn moved(spot: Spot, structure: Structure) -> Spot
    ensures { result ≡ moved spot structure }
{
    match spot {
        Spot::Within => holding(structure),
        _ => spot,
    }
}

// Where the reader goes on after a structure. Which one it is comes first, since it is known where each kind is read.
pub fn onward(spot: Spot, structure: Structure, more: bool, left: usize) -> Next
    requires { (0 < left) × (is_first spot ≡ true → left ≡ 1) }
    ensures { result ≡ next_of spot structure more left }
{
    match second_of(structure) {
        Some(second) => {
            // One structure is to come at a first spot: that 0 are left is known without a subtraction, and so that the loop ends.
            if is_first(spot) {
                if more {
                    Next {
                        left: 1,
                        spot: second,
                    }
                } else {
                    Next {
                        left: 0,
                        spot: spot,
                    }
                }
            } else {
                Next {
                    left: left - 1,
                    spot: moved(spot, structure),
                }
            }
        }
        None => Next {
            left: left - 1,
            spot: spot,
        },
    }
}

// The form of a message whose last structure stood there.
pub fn form_of(spot: Spot) -> Form
    ensures { result ≡ form_of spot }
{
    match spot {
        Spot::First | Spot::First2001 => Form::Single,
        Spot::Within | Spot::Holding => Form::Compound,
        Spot::AfterDonation | Spot::AfterProduct => Form::Pair,
    }
}

// A refused reading.
pub fn refusal<R: Reason>(refusal: R, place: usize) -> Reading
    ensures { Refused (R.numbered refusal) place result }
{
    Reading {
        message: message::empty_message(),
        place: place,
        refusal: refusal.to_number(),
    }
}

// The reading of so many bytes that stop before they are whole.
pub fn stopped(stop: Stop, end: usize) -> Reading
    ensures { Gives (stopped stop end) result }
{
    match stop {
        Stop::Short => refusal(Refusal::Short, end),
        Stop::Refused(reason, place) => refusal(reason, place),
    }
}

// How a scan opens that begins with = and +; body begins with the +.
fn open_head(body: &[u8]) -> Result<Beginning, Stop>
    requires { HeadBody body.now }
    ensures { Opens Edition.Current (61 ∷ body.now) result }
{
    if let Err(stop) = content_scan::walk_head(body) {
        return Err(stop.behind(2));
    }
    Ok(Beginning {
        at: 7,
        place: 7,
        structures: text::read_digits(body, 1, 2) as usize,
        bbb: text::read_digits(body, 3, 3) as u16,
        spot: Spot::Within,
    })
}

// Whether two bytes begin an 023: compared as one number, since they stand side by side and come with one load.
fn is_head(a: u8, b: u8) -> bool
    ensures { result ≡ is_head a b }
{
    (b as u16) * 256 + (a as u16) == 0x2b3d
}

// How a scan of the current edition opens.
fn open_current(scan: &[u8]) -> Result<Beginning, Stop>
    ensures { Opens Edition.Current scan.now result }
{
    if scan.len() < 2 {
        return Ok(plain(Spot::First));
    }
    if is_head(scan[0], scan[1]) {
        open_head(&scan[1..])
    } else {
        Ok(plain(Spot::First))
    }
}

// How a scan opens: that of 2001 has no compounds.
fn open(edition: Edition, scan: &[u8]) -> Result<Beginning, Stop>
    ensures { Opens edition scan.now result }
{
    match edition {
        Edition::Current => open_current(scan),
        Edition::Of2001 => Ok(plain(Spot::First2001)),
    }
}

// A whole message that ends at a place; bytes behind it are refused.
pub fn ended(message: Message, at: usize, end: usize) -> Reading
    ensures { Ended message at end result }
{
    if at < end {
        return refusal(Refusal::Trailing, at);
    }
    Reading {
        message: message,
        place: at,
        refusal: demand::ACCEPTED,
    }
}

// Reads the structures that are to come, each from the part of the bytes that begins with it; places are the label's.
pub fn read_from<L: Language>(bytes: &[u8], first: Beginning) -> Reading
    requires { Starts L.trees (begun L.trees first bytes.now) first bytes.now }
    ensures { Gives (begun L.trees first bytes.now) result }
{
    let mut entries = [label::entry_of(Structure::Empty, 0, 0); 16];
    let mut at = first.at;
    let mut place = first.place;
    let mut count = 0;
    let mut left = first.structures;
    let mut spot = first.spot;
    // No `for`: whether a second structure is to come shows only after the first, and both cursors move by what was read.
    while 0 < left {
        match L::take(spot, &bytes[at..]) {
            Ok(taken) => {
                entries[count] = label::entry_of(taken.structure, place, taken.long);
                at += taken.past;
                place += taken.long;
                count += 1;
                let then = onward(spot, taken.structure, at < bytes.len(), left);
                left = then.left;
                spot = then.spot;
            }
            Err(stop) => return stopped(stop.behind(at), bytes.len()),
        }
    }
    let message = Message {
        entries: entries,
        count: count,
        bbb: first.bbb,
        form: form_of(spot),
    };
    ended(message, at, bytes.len())
}

// Reads a scan in an edition: any bytes at all.
pub fn read(edition: Edition, scan: &[u8]) -> Reading
    ensures { Answers edition scan.now result }
{
    match open(edition, scan) {
        Ok(first) => read_from::<Scans>(scan, first),
        Err(stop) => stopped(stop, scan.len()),
    }
}
