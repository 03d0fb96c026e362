// A label's values as C has them, flat structs of numbers, and back. Padding bytes are fields, 0 in what is given and not looked at in
// what comes: so zeros are one memset.
#![tactic(auto)]

ghost use Rattle.std.specs.Prelude.{◌≡◌, map};
ghost use Rattle.c_values.specs.Values.{blank, with_donation, with_groups, with_product, with_date, with_characters, with_antigens, with_flexible};
ghost use Rattle.c_values.specs.Values.{testing_in_c, lot_in_c, entry_in_c, form_in_c, message_in_c, reading_in_c};
ghost use Rattle.c_values.specs.Values.{testing_of, lot_of, of_kind, structure_meant, entry_meant, message_with, stands_for};
ghost use Rattle.calendar.specs.Expiry.{untimed, timed};
ghost use Rattle.structure.specs.Structures.{number_in};
ghost use Rattle.label.specs.declared.Kind.{Kind};
ghost use Rattle.c_values.specs.Laws.Values.{Trimmed};

use calendar::{Date, Expiry, Time};
use flexible::Flexible;
use label::{
    Antigens, Antigens2001, Donation, Entry, Flags, Form, Groups, Lot, Message, Product, Structure,
    Testing,
};
use message::Reading;
use months::Day;

// A structure: kind is its number, and a field that the kind has not is 0.
#[repr(C)]
#[derive(Clone, Copy)]
pub struct CStructure {
    pub place: usize,
    pub length: usize,
    pub antigens: u64,
    pub donation: Donation,
    pub product: Product,
    pub date: Expiry,
    pub kind: u8,
    pub flags: u8,
    pub gg0: u8,
    pub gg1: u8,
    pub r: u8,
    pub characters: [u8; 10],
    pub first: u8,
    pub timetype: u8,
    pub month: u8,
    pub day: u8,
    pub ii: u8,
    pub pad: u32,
}

// A message: form 0 is a single, 1 a pair, 2 a compound.
#[repr(C)]
#[derive(Clone, Copy)]
pub struct CMessage {
    pub structures: [CStructure; 16],
    pub count: usize,
    pub bbb: u16,
    pub form: u8,
    pub pad: u8,
    pub pads: u32,
}

// A reading: its message, place and refusal number.
#[repr(C)]
#[derive(Clone, Copy)]
pub struct CReading {
    pub message: CMessage,
    pub place: usize,
    pub refusal: u8,
    pub pad: u8,
    pub pads: u16,
    pub padding: u32,
}

// All zeros but for the place, the length and the kind of an entry.
fn blank(entry: Entry) -> CStructure
    ensures { result ≡ blank entry.place entry.length (number_in entry.structure) }
{
    let donation = Donation::zeros();
    let product = Product::zeros();
    let date = Expiry::untimed(Date { year: 0, day: 0 });
    let characters = [0; 10];
    CStructure {
        place: entry.place,
        length: entry.length,
        antigens: 0,
        donation,
        product,
        date,
        kind: structure::number_of(entry.structure),
        flags: 0,
        gg0: 0,
        gg1: 0,
        r: 0,
        characters,
        first: 0,
        timetype: 0,
        month: 0,
        day: 0,
        ii: 0,
        pad: 0,
    }
}

fn testing_in_c(x: Testing) -> [u8; 10]
    ensures { result ≡ testing_in_c x }
{
    [x.c0, x.c1, x.c2, x.c3, x.c4, 0, 0, 0, 0, 0]
}

fn lot_in_c(x: Lot) -> [u8; 10]
    ensures { result ≡ lot_in_c x }
{
    [x.c0, x.c1, x.c2, x.c3, x.c4, x.c5, x.c6, x.c7, x.c8, x.c9]
}

// The fields that a kind has, set in a blank one.
fn with_donation(entry: Entry, donation: Donation, flags: Flags) -> CStructure
    ensures { result ≡ with_donation entry.place entry.length (number_in entry.structure) donation flags }
{
    let mut c = blank(entry);
    c.donation = donation;
    c.flags = flags.number;
    c
}

fn with_groups(entry: Entry, groups: Groups) -> CStructure
    ensures { result ≡ with_groups entry.place entry.length (number_in entry.structure) groups }
{
    let mut c = blank(entry);
    c.gg0 = groups.gg0;
    c.gg1 = groups.gg1;
    c.r = groups.r;
    c
}

fn with_product(entry: Entry, product: Product) -> CStructure
    ensures { result ≡ with_product entry.place entry.length (number_in entry.structure) product }
{
    let mut c = blank(entry);
    c.product = product;
    c
}

fn with_date(entry: Entry, date: Expiry) -> CStructure
    ensures { result ≡ with_date entry.place entry.length (number_in entry.structure) date }
{
    let mut c = blank(entry);
    c.date = date;
    c
}

fn with_characters(entry: Entry, characters: [u8; 10]) -> CStructure
    ensures { result ≡ with_characters entry.place entry.length (number_in entry.structure) characters }
{
    let mut c = blank(entry);
    c.characters = characters;
    c
}

fn with_antigens(entry: Entry, antigens: u64, ii: u8) -> CStructure
    ensures { result ≡ with_antigens entry.place entry.length (number_in entry.structure) antigens ii }
{
    let mut c = blank(entry);
    c.antigens = antigens;
    c.ii = ii;
    c
}

fn with_flexible(entry: Entry, flexible: Flexible, day: Day, time: Time) -> CStructure
    ensures { result ≡ with_flexible entry.place entry.length (number_in entry.structure) flexible day time }
{
    let mut c = blank(entry);
    let year = Date {
        year: day.year,
        day: 0,
    };
    c.date = Expiry::timed(year, time);
    c.first = flexible.first;
    c.timetype = flexible.timetype;
    c.month = day.month;
    c.day = day.day;
    c
}

// An entry as C has it.
pub fn in_c(entry: Entry) -> CStructure
    ensures { result ≡ entry_in_c entry }
{
    match entry.structure {
        Structure::Empty => blank(entry),
        Structure::Donation(donation, flags) => with_donation(entry, donation, flags),
        Structure::Groups(groups) => with_groups(entry, groups),
        Structure::Product(product) => with_product(entry, product),
        Structure::Expiry(d) => with_date(entry, Expiry::untimed(d)),
        Structure::ExpiryTime(d, t) => with_date(entry, Expiry::timed(d, t)),
        Structure::Collection(d) => with_date(entry, Expiry::untimed(d)),
        Structure::CollectionTime(d, t) => with_date(entry, Expiry::timed(d, t)),
        Structure::Production(d) => with_date(entry, Expiry::untimed(d)),
        Structure::ProductionTime(d, t) => with_date(entry, Expiry::timed(d, t)),
        Structure::Testing(x) => with_characters(entry, testing_in_c(x)),
        Structure::Antigens(antigens) => with_antigens(entry, antigens.number, 0),
        Structure::Lot(x) => with_characters(entry, lot_in_c(x)),
        Structure::Flexible(flexible, day, time) => with_flexible(entry, flexible, day, time),
        Structure::Antigens2001(antigens) => with_antigens(entry, antigens.results, antigens.ii),
    }
}

// Each entry as C has it; those past the count are empty. The array is taken out first: a loop over the message itself has the whole message
// copied once more, which each refused import would pay for.
fn in_c_all(message: Message) -> [CStructure; 16]
    requires { Trimmed message.entries message.count }
    ensures { result ≡ map entry_in_c message.entries }
{
    let mut all = [blank(label::entry_of(Structure::Empty, 0, 0)); 16];
    let entries = message.entries;
    for (i, entry) in entries[..message.count].iter().enumerate() {
        all[i] = in_c(*entry);
    }
    all
}

fn form_in_c(form: Form) -> u8
    ensures { result ≡ form_in_c form }
{
    match form {
        Form::Single => 0,
        Form::Pair => 1,
        Form::Compound => 2,
    }
}

// A message as C has it.
pub fn message_in_c(message: Message) -> CMessage
    requires { Trimmed message.entries message.count }
    ensures { result ≡ message_in_c message }
{
    CMessage {
        structures: in_c_all(message),
        count: message.count,
        bbb: message.bbb,
        form: form_in_c(message.form),
        pad: 0,
        pads: 0,
    }
}

// A reading as C has it.
pub fn reading_in_c(reading: Reading) -> CReading
    requires { Trimmed reading.message.entries reading.message.count }
    ensures { result ≡ reading_in_c reading }
{
    CReading {
        message: message_in_c(reading.message),
        place: reading.place,
        refusal: reading.refusal,
        pad: 0,
        pads: 0,
        padding: 0,
    }
}

fn testing_of(x: [u8; 10]) -> Testing
    ensures { result ≡ testing_of x }
{
    Testing {
        c0: x[0],
        c1: x[1],
        c2: x[2],
        c3: x[3],
        c4: x[4],
    }
}

fn lot_of(x: [u8; 10]) -> Lot
    ensures { result ≡ lot_of x }
{
    Lot {
        c0: x[0],
        c1: x[1],
        c2: x[2],
        c3: x[3],
        c4: x[4],
        c5: x[5],
        c6: x[6],
        c7: x[7],
        c8: x[8],
        c9: x[9],
    }
}

fn donation_of(c: CStructure) -> Structure
    ensures { result ≡ of_kind Kind.Donation c }
{
    Structure::Donation(c.donation, Flags { number: c.flags })
}

fn groups_of(c: CStructure) -> Structure
    ensures { result ≡ of_kind Kind.Groups c }
{
    Structure::Groups(Groups {
        gg0: c.gg0,
        gg1: c.gg1,
        r: c.r,
    })
}

fn product_of(c: CStructure) -> Structure
    ensures { result ≡ of_kind Kind.Product c }
{
    Structure::Product(c.product)
}

fn antigens_of(c: CStructure) -> Structure
    ensures { result ≡ of_kind Kind.Antigens c }
{
    Structure::Antigens(Antigens { number: c.antigens })
}

fn antigens_2001_of(c: CStructure) -> Structure
    ensures { result ≡ of_kind Kind.Antigens2001 c }
{
    Structure::Antigens2001(Antigens2001 {
        results: c.antigens,
        ii: c.ii,
    })
}

fn flexible_of(c: CStructure) -> Structure
    ensures { result ≡ of_kind Kind.Flexible c }
{
    let stamp = c.date;
    let flexible = Flexible {
        first: c.first,
        timetype: c.timetype,
    };
    let day = Day {
        year: stamp.year,
        month: c.month,
        day: c.day,
    };
    let time = Time {
        hour: stamp.hour,
        minute: stamp.minute,
    };
    Structure::Flexible(flexible, day, time)
}

// The structure that a C structure stands for: the fields of its kind, and no others, are looked at.
pub fn structure_of(c: CStructure) -> Structure
    ensures { result ≡ structure_meant c }
{
    let date = c.date.date();
    let time = c.date.time();
    match c.kind {
        1 => donation_of(c),
        2 => groups_of(c),
        3 => product_of(c),
        4 => Structure::Expiry(date),
        5 => Structure::ExpiryTime(date, time),
        6 => Structure::Collection(date),
        7 => Structure::CollectionTime(date, time),
        8 => Structure::Production(date),
        9 => Structure::ProductionTime(date, time),
        10 => Structure::Testing(testing_of(c.characters)),
        12 => antigens_of(c),
        18 => Structure::Lot(lot_of(c.characters)),
        31 => flexible_of(c),
        200 => antigens_2001_of(c),
        _ => Structure::Empty,
    }
}

fn entry_of(c: CStructure) -> Entry
    ensures { result ≡ entry_meant c }
{
    label::entry_of(structure_of(c), c.place, c.length)
}

// The entry that each C structure stands for.
fn entries_of(structures: [CStructure; 16]) -> [Entry; 16]
    ensures { result ≡ map entry_meant structures }
{
    let mut all = [label::entry_of(Structure::Empty, 0, 0); 16];
    for (i, structure) in structures.iter().enumerate() {
        all[i] = entry_of(*structure);
    }
    all
}

fn message_with(m: CMessage, form: Form) -> Message
    ensures { result ≡ message_with m form }
{
    Message {
        entries: entries_of(m.structures),
        count: m.count,
        bbb: m.bbb,
        form: form,
    }
}

// The message that a C message stands for.
pub fn message_of(m: CMessage) -> Message
    ensures { result ≡ stands_for m }
{
    match m.form {
        0 => message_with(m, Form::Single),
        1 => message_with(m, Form::Pair),
        2 => message_with(m, Form::Compound),
        _ => message::empty_message(),
    }
}
