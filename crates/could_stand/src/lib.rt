// What could stand at the place of a scan: the end of the message, and which bytes.
#![tactic(auto)]

ghost use Rattle.std.specs.Prelude.{◌≡◌, ◌≤◌, length};
ghost use Rattle.could_stand.specs.Could.{CouldStand};
ghost use Rattle.could_stand.specs.Laws.Placed.{Places};
ghost use Rattle.could_stand.specs.Laws.Front.{FrontOf};
ghost use Rattle.could_stand.specs.Laws.Each.{StandEach};

use label::Edition;

// The place, whether the message may end there, and for each byte whether it may stand there.
#[repr(C)]
#[derive(Clone, Copy)]
pub struct Could {
    pub place: usize,
    pub end: bool,
    pub byte: [bool; 256],
}

// What is asked of a reading: the place is there in both cases.
#[derive(Clone, Copy)]
struct Placed {
    place: usize,
    whole: bool,
}

// The one caller of read, so that the compiler drops the message.
fn place_of(edition: Edition, scan: &[u8]) -> Placed
    ensures { Places edition scan.now result }
{
    let reading = message_reader::read(edition, scan);
    Placed {
        place: reading.place,
        whole: reading.refusal == demand::ACCEPTED,
    }
}

// The beginning of a scan up to a place, in an array that has room for the longest message and a byte more.
fn front_of(scan: &[u8], place: usize) -> [u8; 328]
    requires { (place ≤ length scan.now) × (place ≤ 327) }
    ensures { FrontOf scan.now place result }
{
    let mut front = [0; 328];
    front[..place].copy_from_slice(&scan[..place]);
    front
}

// For each byte, whether a reading of the beginning and that byte comes past both.
fn stand_each(edition: Edition, front: [u8; 328], place: usize) -> [bool; 256]
    requires { (length front ≡ 328) × (place ≤ 327) }
    ensures { StandEach edition front place 256 result }
{
    let mut bytes = front;
    let mut stands = [false; 256];
    let size = place + 1;
    for b in 0..256 {
        bytes[place] = b as u8;
        stands[b] = place_of(edition, &bytes[..size]).place == size;
    }
    stands
}

// What could stand at the place of a scan, for any edition and any bytes.
pub fn could_stand(edition: Edition, scan: &[u8]) -> Could
    ensures { CouldStand edition scan.now result }
{
    let place = place_of(edition, scan).place;
    let end = place_of(edition, &scan[..place]).whole;
    let byte = stand_each(edition, front_of(scan, place), place);
    Could {
        place: place,
        end: end,
        byte: byte,
    }
}
