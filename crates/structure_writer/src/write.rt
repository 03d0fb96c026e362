// Writing one structure into the part of a buffer that begins with it.
ghost use Rattle.std.specs.Prelude.{◌≡◌, [], ◌∷◌, ◌++◌, ◌≤◌, ◌<◌, length};
ghost use Rattle.text.specs.Buffer.{laid, laid_at};
ghost use Rattle.calendar.specs.Calendar.{date_text, time_text};
ghost use Rattle.check37.specs.Check.{check_worth};
ghost use Rattle.structure.specs.Donation.{donation_text};
ghost use Rattle.structure.specs.Structures.{written};

use calendar::{Date, Time};
use flexible::Flexible;
use label::{Antigens, Antigens2001, Donation, Flags, Groups, Lot, Product, Structure, Testing};
use months::Day;

// Stores an identifier; that of an 023 too.
pub fn name(part: &mut [u8], first: u8, second: u8)
    requires { 2 ≤ length part.old }
    ensures { part.new ≡ laid (first ∷ second ∷ []) part.old }
{
    part[0] = first;
    part[1] = second;
}

fn donation(part: &mut [u8], d: Donation, f: Flags)
    requires { 16 ≤ length part.old }
    ensures { part.new ≡ laid (written (Structure.Donation d f)) part.old }
{
    name(part, b'=', d.first);
    text::write_digits(part, 2, 4, d.facility as u64);
    text::write_digits(part, 6, 2, d.year as u64);
    text::write_digits(part, 8, 6, d.sequence as u64);
    text::write_digits(part, 14, 2, f.number as u64);
}

// The worth of a donation number's own check, over its bytes as they are written.
pub(crate) fn own_worth(d: Donation) -> u8
    ensures { result ≡ check_worth (donation_text d) }
{
    let mut label = [0; 16];
    donation(&mut label, d, Flags { number: 0 });
    check37::check_worth(&label[1..14])
}

fn groups(part: &mut [u8], g: Groups)
    requires { 6 ≤ length part.old }
    ensures { part.new ≡ laid (written (Structure.Groups g)) part.old }
{
    text::lay(part, &[b'=', b'%', g.gg0, g.gg1, g.r, b'0']);
}

fn product(part: &mut [u8], p: Product)
    requires { 10 ≤ length part.old }
    ensures { part.new ≡ laid (written (Structure.Product p)) part.old }
{
    let bytes = [b'=', b'<', p.letter, p.o0, p.o1, p.o2, p.o3, p.t, p.d, p.s];
    text::lay(part, &bytes);
}

// An identifier and a date: expiry, collection and production.
fn dated(part: &mut [u8], first: u8, second: u8, date: Date)
    requires { 8 ≤ length part.old }
    ensures { part.new ≡ laid (first ∷ second ∷ date_text date) part.old }
{
    name(part, first, second);
    calendar::write_date(part, 2, date);
}

// The same with a time.
fn stamped(part: &mut [u8], first: u8, second: u8, date: Date, time: Time)
    requires { 12 ≤ length part.old }
    ensures { part.new ≡ laid (first ∷ second ∷ (date_text date ++ time_text time)) part.old }
{
    dated(part, first, second, date);
    calendar::write_time(part, 8, time);
}

fn testing(part: &mut [u8], t: Testing)
    requires { 7 ≤ length part.old }
    ensures { part.new ≡ laid (written (Structure.Testing t)) part.old }
{
    text::lay(part, &[b'&', b'(', t.c0, t.c1, t.c2, t.c3, t.c4]);
}

fn antigens(part: &mut [u8], a: Antigens)
    requires { 20 ≤ length part.old }
    ensures { part.new ≡ laid (written (Structure.Antigens a)) part.old }
{
    name(part, b'=', b'\\');
    text::write_digits(part, 2, 18, a.number);
}

fn lot(part: &mut [u8], l: Lot)
    requires { 12 ≤ length part.old }
    ensures { part.new ≡ laid (written (Structure.Lot l)) part.old }
{
    let bytes = [
        b'&', b')', l.c0, l.c1, l.c2, l.c3, l.c4, l.c5, l.c6, l.c7, l.c8, l.c9,
    ];
    text::lay(part, &bytes);
}

fn flexible(part: &mut [u8], f: Flexible, day: Day, time: Time)
    requires { 18 ≤ length part.old }
    ensures { part.new ≡ laid (written (Structure.Flexible f day time)) part.old }
{
    text::lay(part, &[b'=', b'(', f.first, b'0']);
    text::write_digits(part, 4, 2, f.timetype as u64);
    flexible::write_day(part, 6, day);
    calendar::write_time(part, 14, time);
}

// Stores one byte.
fn put(part: &mut [u8], at: usize, b: u8)
    requires { at < length part.old }
    ensures { part.new ≡ laid_at at (b ∷ []) part.old }
{
    part[at] = b;
}

// The antigen structure of 2001: its check is worked out over the digits as they are written.
fn antigens_2001(part: &mut [u8], a: Antigens2001)
    requires { 21 ≤ length part.old }
    ensures { part.new ≡ laid (written (Structure.Antigens2001 a)) part.old }
{
    name(part, b'=', b'{');
    text::write_digits(part, 2, 16, a.results);
    text::write_digits(part, 18, 2, a.ii as u64);
    let check = check37::check_of(&part[2..20]);
    put(part, 20, check);
}

// How many bytes a structure is written in.
pub fn written_length(structure: Structure) -> usize
    ensures { (result ≡ length (written structure)) × (result ≤ 21) }
{
    match structure {
        Structure::Empty => 0,
        Structure::Donation(d, f) => 16,
        Structure::Groups(g) => 6,
        Structure::Product(p) => 10,
        Structure::Expiry(date) => 8,
        Structure::ExpiryTime(date, time) => 12,
        Structure::Collection(date) => 8,
        Structure::CollectionTime(date, time) => 12,
        Structure::Production(date) => 8,
        Structure::ProductionTime(date, time) => 12,
        Structure::Testing(t) => 7,
        Structure::Antigens(a) => 20,
        Structure::Lot(l) => 12,
        Structure::Flexible(f, day, time) => 18,
        Structure::Antigens2001(a) => 21,
    }
}

// Writes a structure from the part's first byte on.
pub fn write_structure(part: &mut [u8], structure: Structure)
    requires { length (written structure) ≤ length part.old }
    ensures { part.new ≡ laid (written structure) part.old }
{
    match structure {
        Structure::Empty => {}
        Structure::Donation(d, f) => donation(part, d, f),
        Structure::Groups(g) => groups(part, g),
        Structure::Product(p) => product(part, p),
        Structure::Expiry(date) => dated(part, b'=', b'>', date),
        Structure::ExpiryTime(date, time) => stamped(part, b'&', b'>', date, time),
        Structure::Collection(date) => dated(part, b'=', b'*', date),
        Structure::CollectionTime(date, time) => stamped(part, b'&', b'*', date, time),
        Structure::Production(date) => dated(part, b'=', b'}', date),
        Structure::ProductionTime(date, time) => stamped(part, b'&', b'}', date, time),
        Structure::Testing(t) => testing(part, t),
        Structure::Antigens(a) => antigens(part, a),
        Structure::Lot(l) => lot(part, l),
        Structure::Flexible(f, day, time) => flexible(part, f, day, time),
        Structure::Antigens2001(a) => antigens_2001(part, a),
    }
}
