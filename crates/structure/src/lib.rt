// The rules of one structure stand in specs/. Here are the types that they speak of, and the rules of single bytes, which reader and writer ask.
#![tactic(auto)]

ghost use Rattle.std.specs.Prelude.{◌≡◌, eqb};
ghost use Rattle.structure.specs.Laws.Due.{of_edition};
ghost use Rattle.structure.specs.Laws.Flags.{tens_goes, ones_goes};
ghost use Rattle.structure.specs.Laws.Kinds.{number_in};
ghost use Rattle.structure.specs.Laws.Product.{d_goes, s_goes};

use label::{Edition, Structure};

// The contents of the fourteen kinds, those of dates and of dates and times three kinds' each, and that of an 023.
#[derive(Clone, Copy)]
pub enum Shape {
    Donation,
    Groups,
    Product,
    Date,
    Stamp,
    Testing,
    Antigens,
    Lot,
    Flexible,
    Antigens2001,
    Head,
}

// Where a structure may stand: first in a scan of either edition, within a compound, within one that has its donation number, or second
// in a pair.
#[derive(Clone, Copy)]
pub enum Spot {
    First,
    First2001,
    Within,
    Holding,
    AfterDonation,
    AfterProduct,
}

// The papers' number of a structure's kind, 0 for the empty one.
pub fn number_of(structure: Structure) -> u8
    ensures { result ≡ number_in structure }
{
    match structure {
        Structure::Empty => 0,
        Structure::Donation(donation, flags) => 1,
        Structure::Groups(groups) => 2,
        Structure::Product(product) => 3,
        Structure::Expiry(date) => 4,
        Structure::ExpiryTime(date, time) => 5,
        Structure::Collection(date) => 6,
        Structure::CollectionTime(date, time) => 7,
        Structure::Production(date) => 8,
        Structure::ProductionTime(date, time) => 9,
        Structure::Testing(testing) => 10,
        Structure::Antigens(antigens) => 12,
        Structure::Lot(lot) => 18,
        Structure::Flexible(flexible, day, time) => 31,
        Structure::Antigens2001(antigens) => 200,
    }
}

// Whether a structure is a donation number.
pub fn is_donation(structure: Structure) -> bool
    ensures { result ≡ eqb (number_in structure) 1 }
{
    matches!(structure, Structure::Donation(..))
}

// Whether a number is that of one of the edition's kinds, or of none. By number, as a record's tag is asked too.
pub fn of_edition(edition: Edition, number: u8) -> bool
    ensures { result ≡ of_edition edition number }
{
    match edition {
        Edition::Current => number != 200,
        Edition::Of2001 => (number <= 9) | (number == 200),
    }
}

// Which d goes on after the product letter: with E only 0 or a letter.
pub fn d_goes(letter: u8, d: u8) -> bool
    ensures { result ≡ d_goes letter d }
{
    match letter {
        b'E' => text::is_upper(d) | (d == b'0'),
        _ => true,
    }
}

// Which s goes on after the product letter and d: with E only 0 after 0, and 0 or a letter after a letter.
pub fn s_goes(letter: u8, d: u8, s: u8) -> bool
    ensures { result ≡ s_goes letter d s }
{
    match letter {
        b'E' => match d {
            b'0' => s == b'0',
            _ => text::is_lower(s) | (s == b'0'),
        },
        _ => true,
    }
}

// Which first flag goes on where the number's own check has this worth: 0 to 5, or the tens of 60 and the worth.
pub fn tens_goes(worth: u8, b: u8) -> bool
    ensures { result ≡ tens_goes worth b }
{
    (b < b'6') | (b == b'6' + worth / 10)
}

// Which second one goes on after the first.
pub fn ones_goes(worth: u8, tens: u8, b: u8) -> bool
    ensures { result ≡ ones_goes worth tens b }
{
    (tens < b'6') | (b == b'0' + worth % 10)
}
