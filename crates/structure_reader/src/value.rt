// The value of a structure whose content fits; body is the identifier's second byte and the content.
ghost use Rattle.std.specs.Prelude.{◌≡◌, ◌≤◌, length, take, drop};
ghost use Rattle.text.specs.Decimal.{number, DigitsAt};
ghost use Rattle.calendar.specs.Calendar.{date_of, time_of};
ghost use Rattle.structure.specs.Laws.Donation.{donation_of};
ghost use Rattle.structure.specs.Laws.Product.{product_of};
ghost use Rattle.structure.specs.Laws.Kinds.{make};
ghost use Rattle.structure_reader.specs.Laws.Value.{Fitting};

use calendar::{Date, Time};
use label::{
    Antigens, Antigens2001, Donation, Flags, Groups, Kind, Lot, Product, Structure, Testing,
};

// The donation number of thirteen characters, on a label and at the keyboard.
pub fn donation(c: &[u8]) -> Donation
    requires { DigitsAt c.now 1 12 }
    ensures { result ≡ donation_of c.now }
{
    Donation {
        sequence: text::read_digits(c, 7, 6) as u32,
        facility: text::read_digits(c, 1, 4) as u16,
        first: c[0],
        year: text::read_digits(c, 5, 2) as u8,
    }
}

fn flags(c: &[u8]) -> Flags
    requires { DigitsAt c.now 13 2 }
    ensures { result.number ≡ number (take 2 (drop 13 c.now)) }
{
    Flags {
        number: text::read_digits(c, 13, 2) as u8,
    }
}

fn date(c: &[u8]) -> Date
    requires { DigitsAt c.now 1 6 }
    ensures { result ≡ date_of (drop 1 c.now) }
{
    Date::from_digits(&c[1..])
}

fn time(c: &[u8]) -> Time
    requires { DigitsAt c.now 7 4 }
    ensures { result ≡ time_of (drop 7 c.now) }
{
    Time::from_digits(&c[7..])
}

fn groups(c: &[u8]) -> Groups
    requires { 5 ≤ length c.now }
    ensures { Structure.Groups result ≡ make Kind.Groups c.now }
{
    Groups {
        gg0: c[1],
        gg1: c[2],
        r: c[3],
    }
}

fn product(c: &[u8]) -> Product
    requires { 9 ≤ length c.now }
    ensures { result ≡ product_of c.now }
{
    Product {
        letter: c[1],
        o0: c[2],
        o1: c[3],
        o2: c[4],
        o3: c[5],
        t: c[6],
        d: c[7],
        s: c[8],
    }
}

fn testing(c: &[u8]) -> Testing
    requires { 6 ≤ length c.now }
    ensures { Structure.Testing result ≡ make Kind.Testing c.now }
{
    Testing {
        c0: c[1],
        c1: c[2],
        c2: c[3],
        c3: c[4],
        c4: c[5],
    }
}

fn lot(c: &[u8]) -> Lot
    requires { 11 ≤ length c.now }
    ensures { Structure.Lot result ≡ make Kind.Lot c.now }
{
    Lot {
        c0: c[1],
        c1: c[2],
        c2: c[3],
        c3: c[4],
        c4: c[5],
        c5: c[6],
        c6: c[7],
        c7: c[8],
        c8: c[9],
        c9: c[10],
    }
}

fn flexible(c: &[u8]) -> Structure
    requires { DigitsAt c.now 1 16 }
    ensures { result ≡ make Kind.Flexible c.now }
{
    let front = flexible::type_of(&c[1..]);
    let day = flexible::day_of(&c[5..]);
    Structure::Flexible(front, day, Time::from_digits(&c[13..]))
}

// Of the antigen structure of 2001 the check is not held.
fn antigens_2001(c: &[u8]) -> Antigens2001
    requires { DigitsAt c.now 1 18 }
    ensures { Structure.Antigens2001 result ≡ make Kind.Antigens2001 c.now }
{
    Antigens2001 {
        results: text::read_digits(c, 1, 16),
        ii: text::read_digits(c, 17, 2) as u8,
    }
}

// The structure that a kind's fitting bytes stand for.
pub(crate) fn value(kind: Kind, c: &[u8]) -> Structure
    requires { Fitting kind c.now }
    ensures { result ≡ make kind c.now }
{
    match kind {
        Kind::Donation => Structure::Donation(donation(c), flags(c)),
        Kind::Groups => Structure::Groups(groups(c)),
        Kind::Product => Structure::Product(product(c)),
        Kind::Expiry => Structure::Expiry(date(c)),
        Kind::ExpiryTime => Structure::ExpiryTime(date(c), time(c)),
        Kind::Collection => Structure::Collection(date(c)),
        Kind::CollectionTime => Structure::CollectionTime(date(c), time(c)),
        Kind::Production => Structure::Production(date(c)),
        Kind::ProductionTime => Structure::ProductionTime(date(c), time(c)),
        Kind::Testing => Structure::Testing(testing(c)),
        Kind::Antigens => Structure::Antigens(Antigens {
            number: text::read_digits(c, 1, 18),
        }),
        Kind::Lot => Structure::Lot(lot(c)),
        Kind::Flexible => flexible(c),
        Kind::Antigens2001 => Structure::Antigens2001(antigens_2001(c)),
    }
}
