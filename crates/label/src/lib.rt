// The values that a reading is made of. None of them refers to the scan.
#![tactic(auto)]

ghost use Rattle.std.specs.Prelude.{◌≡◌};
ghost use Rattle.label.specs.Zeros.{no_donation, no_product};

use calendar::{Date, Time};
use flexible::Flexible;
use months::Day;

// A donation number without its flags: the thirteen characters that a keyboard entry has too.
#[repr(C)]
#[derive(Clone, Copy, PartialEq, Eq)]
pub struct Donation {
    pub sequence: u32,
    pub facility: u16,
    pub first: u8,
    pub year: u8,
}

// The flags ff behind a donation number, as a number.
#[derive(Clone, Copy)]
pub struct Flags {
    pub number: u8,
}

// The two bytes gg and the byte r of a blood group label.
#[derive(Clone, Copy)]
pub struct Groups {
    pub gg0: u8,
    pub gg1: u8,
    pub r: u8,
}

// A product code's eight bytes by part: the letter, oooo, t, d and s.
#[repr(C)]
#[derive(Clone, Copy, PartialEq, Eq)]
pub struct Product {
    pub letter: u8,
    pub o0: u8,
    pub o1: u8,
    pub o2: u8,
    pub o3: u8,
    pub t: u8,
    pub d: u8,
    pub s: u8,
}

// The five characters of special testing.
#[derive(Clone, Copy)]
pub struct Testing {
    pub c0: u8,
    pub c1: u8,
    pub c2: u8,
    pub c3: u8,
    pub c4: u8,
}

// The eighteen digits of the red cell antigens as one number.
#[derive(Clone, Copy)]
pub struct Antigens {
    pub number: u64,
}

// The antigen structure of 2001: its sixteen digits as one number and ii as another. Its check is worked out and not held.
#[derive(Clone, Copy)]
pub struct Antigens2001 {
    pub results: u64,
    pub ii: u8,
}

// The ten characters of a container's lot.
#[derive(Clone, Copy)]
pub struct Lot {
    pub c0: u8,
    pub c1: u8,
    pub c2: u8,
    pub c3: u8,
    pub c4: u8,
    pub c5: u8,
    pub c6: u8,
    pub c7: u8,
    pub c8: u8,
    pub c9: u8,
}

impl Donation {
    // No donation number: all parts zero.
    pub fn zeros() -> Donation
        ensures { result ≡ no_donation }
    {
        Donation {
            sequence: 0,
            facility: 0,
            first: 0,
            year: 0,
        }
    }
}

impl Product {
    // No product code: all parts zero.
    pub fn zeros() -> Product
        ensures { result ≡ no_product }
    {
        Product {
            letter: 0,
            o0: 0,
            o1: 0,
            o2: 0,
            o3: 0,
            t: 0,
            d: 0,
            s: 0,
        }
    }
}

// A structure of each of the fourteen kinds, and the empty one for unused room.
#[derive(Clone, Copy)]
pub enum Structure {
    Empty,
    Donation(Donation, Flags),
    Groups(Groups),
    Product(Product),
    Expiry(Date),
    ExpiryTime(Date, Time),
    Collection(Date),
    CollectionTime(Date, Time),
    Production(Date),
    ProductionTime(Date, Time),
    Testing(Testing),
    Antigens(Antigens),
    Lot(Lot),
    Flexible(Flexible, Day, Time),
    Antigens2001(Antigens2001),
}

// The fourteen kinds: 001 to 010, 012, 018 and 031, and the antigen structure of 2001.
#[derive(Clone, Copy)]
pub enum Kind {
    Donation,
    Groups,
    Product,
    Expiry,
    ExpiryTime,
    Collection,
    CollectionTime,
    Production,
    ProductionTime,
    Testing,
    Antigens,
    Lot,
    Flexible,
    Antigens2001,
}

// The editions of the papers that labels are made to: the current one, and that of 2001.
#[derive(Clone, Copy)]
pub enum Edition {
    Current,
    Of2001,
}

// The three forms of a message.
#[derive(Clone, Copy)]
pub enum Form {
    Single,
    Pair,
    Compound,
}

// One of a message's sixteen places: a structure, the place of its first byte in the scan, and its total length.
#[derive(Clone, Copy)]
pub struct Entry {
    pub structure: Structure,
    pub place: usize,
    pub length: usize,
}

// Every entry is made here.
pub fn entry_of(structure: Structure, place: usize, length: usize) -> Entry
    ensures { result ≡ record { structure = structure; place = place; length = length } }
{
    Entry {
        structure: structure,
        place: place,
        length: length,
    }
}

// A message's structures in their places, how many they are, its bbb, which is 0 but in a compound, and its form.
#[derive(Clone, Copy)]
pub struct Message {
    pub entries: [Entry; 16],
    pub count: usize,
    pub bbb: u16,
    pub form: Form,
}
