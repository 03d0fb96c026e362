// The shelf list's records, and what the three calls decide once the list was searched: all by value.
#![tactic(auto)]

ghost use Rattle.std.specs.Prelude.{◌≡◌};
ghost use Rattle.demand.specs.Numbered.{number_of};
ghost use Rattle.text.specs.Decides.{Decides};
ghost use Rattle.shelf.specs.Shelf.{freed, holding, indexed, refusal, LawfulExpiry};
ghost use Rattle.shelf.specs.Plain.{same_donation, same_product};
ghost use Rattle.shelf.specs.Laws.Search.{is_wanted, unit_of, any_free};
ghost use Rattle.shelf.specs.Laws.Decide.{unit_test, found_in, entered_in, changed_in};

use calendar::{Date, Expiry};
use demand::Refusal;
use label::{Donation, Product};

// A unit: donation number and product code say which, the expiry goes with it: timed 0 for an 004, 1 for an 005.
#[repr(C)]
#[derive(Clone, Copy)]
pub struct ShelfUnit {
    pub donation: Donation,
    pub product: Product,
    pub expiry: Expiry,
}

// A record of the host's list: free where used is 0, else it holds the unit.
#[repr(C)]
#[derive(Clone, Copy)]
pub struct Record {
    pub unit: ShelfUnit,
    pub used: u8,
}

// The record's index and 0, or 0 and the refusal number. A struct of C.
#[repr(C)]
#[derive(Clone, Copy)]
pub struct ShelfAnswer {
    pub place: usize,
    pub refusal: u8,
}

// What a search is for: any free record, or one that holds the unit.
#[derive(Clone, Copy)]
pub enum Want {
    Free,
    Unit(Donation, Product),
}

// Field by field and without a branch, as the derived test takes up to 2.4 times the instructions; the number that tells most apart stands
// last, where the compiler looks first.
fn same_donation(x: Donation, y: Donation) -> bool
    ensures { result ≡ same_donation x y }
{
    (x.first == y.first)
        & (x.year == y.year)
        & (x.facility == y.facility)
        & (x.sequence == y.sequence)
}

fn same_product(x: Product, y: Product) -> bool
    ensures { result ≡ same_product x y }
{
    let code = (x.letter == y.letter) & (x.o0 == y.o0) & (x.o1 == y.o1);
    let front = code & (x.o2 == y.o2) & (x.o3 == y.o3);
    front & (x.t == y.t) & (x.d == y.d) & (x.s == y.s)
}

// Whether a record is what a search is for.
pub fn is_wanted(r: Record, want: Want) -> bool
    ensures { result ≡ is_wanted r want }
{
    match want {
        Want::Free => r.used == 0,
        Want::Unit(donation, product) => {
            if r.used == 0 {
                return false;
            }
            same_donation(r.unit.donation, donation) & same_product(r.unit.product, product)
        }
    }
}

// A search for a unit.
pub fn for_unit(donation: Donation, product: Product) -> Want
    ensures { result ≡ unit_of donation product }
{
    Want::Unit(donation, product)
}

// The same for the unit that is to be entered.
pub fn for_same(unit: ShelfUnit) -> Want
    ensures { result ≡ unit_of unit.donation unit.product }
{
    for_unit(unit.donation, unit.product)
}

// A search for a free record.
pub fn for_free() -> Want
    ensures { result ≡ any_free }
{
    Want::Free
}

// A freed record: no number of a donor stays.
pub fn freed_record() -> Record
    ensures { result ≡ freed }
{
    let donation = Donation::zeros();
    let product = Product::zeros();
    let expiry = Expiry::untimed(Date { year: 0, day: 0 });
    let unit = ShelfUnit {
        donation,
        product,
        expiry,
    };
    Record { unit, used: 0 }
}

// A record that holds a unit as given.
pub fn holding_record(unit: ShelfUnit) -> Record
    ensures { result ≡ holding unit }
{
    Record { unit, used: 1 }
}

// Whether a reading can give the expiry.
fn is_expiry(expiry: Expiry) -> bool
    ensures { Decides result (LawfulExpiry expiry) }
{
    let date = calendar::is_lawful_date(expiry.date());
    let time = calendar::is_lawful_time(expiry.time());
    let timed = expiry.timed;
    match timed {
        0 => date & (expiry.hour == 0) & (expiry.minute == 0),
        1 => date & time,
        _ => false,
    }
}

// Whether a reading can give the unit.
fn is_unit(unit: ShelfUnit) -> bool
    ensures { result ≡ unit_test unit }
{
    structure_writer::lawful::is_donation(unit.donation)
        & structure_writer::lawful::is_product(unit.product)
        & is_expiry(unit.expiry)
}

fn accepted(place: usize) -> ShelfAnswer
    ensures { result ≡ indexed place }
{
    ShelfAnswer {
        place,
        refusal: demand::ACCEPTED,
    }
}

fn refused(reason: Refusal) -> ShelfAnswer
    ensures { result ≡ refusal (number_of reason) }
{
    ShelfAnswer {
        place: 0,
        refusal: reason.number(),
    }
}

// The answer to a search for a unit by the place that it found.
pub fn found(at: Option<usize>) -> ShelfAnswer
    ensures { result ≡ found_in at }
{
    match at {
        Some(place) => accepted(place),
        None => refused(Refusal::Absent),
    }
}

// The answer to entering a unit, by what the searches for it and for a free record found.
pub fn entered(unit: ShelfUnit, same: Option<usize>, free: Option<usize>) -> ShelfAnswer
    ensures { result ≡ entered_in unit same free }
{
    if !is_unit(unit) {
        return refused(Refusal::Field);
    }
    match (same, free) {
        (Some(_), _) => refused(Refusal::Already),
        (None, Some(place)) => accepted(place),
        (None, None) => refused(Refusal::Full),
    }
}

// The place of the record that an answer says was changed.
pub fn changed(answer: ShelfAnswer) -> Option<usize>
    ensures { result ≡ changed_in answer }
{
    if answer.refusal == demand::ACCEPTED {
        Some(answer.place)
    } else {
        None
    }
}
