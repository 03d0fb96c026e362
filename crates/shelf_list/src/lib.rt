// The shelf list that the host lends: one search, and the three calls as C functions over records and their count.
#![tactic(auto)]

ghost use Rattle.std.specs.Prelude.{◌≡◌, length};
ghost use Rattle.shelf.specs.Shelf.{LooksUp, Removes, Enters};
ghost use Rattle.shelf.specs.Laws.Search.{first_of};
ghost use Rattle.shelf.specs.Laws.Decide.{stored, Ends};

use label::{Donation, Product};
use shelf::{Record, ShelfAnswer, ShelfUnit, Want};

// The place of the first record that is wanted.
fn first(records: &[Record], want: Want) -> Option<usize>
    ensures { Ends (first_of records.now want) (length records.now) result }
{
    for (i, record) in records.iter().enumerate() {
        if shelf::is_wanted(*record, want) {
            return Some(i);
        }
    }
    None
}

// The lowest record that holds the unit; the list is only looked at.
#[unsafe(no_mangle)]
pub extern "C" fn appleounce_shelf_look_up(
    records: &[Record],
    donation: Donation,
    product: Product,
) -> ShelfAnswer
    ensures { LooksUp records.now donation product result }
{
    shelf::found(first(records, shelf::for_unit(donation, product)))
}

// Puts a record where the answer says that one was changed, and gives the answer on.
fn store(records: &mut [Record], answer: ShelfAnswer, new: Record) -> ShelfAnswer
    ensures { (result ≡ answer) × (records.new ≡ stored records.old new answer) }
{
    let n = records.len();
    if let Some(at) = shelf::changed(answer) {
        if at < n {
            records[at] = new;
        }
    }
    answer
}

// Frees the record that the look-up tells.
#[unsafe(no_mangle)]
pub extern "C" fn appleounce_shelf_remove(
    records: &mut [Record],
    donation: Donation,
    product: Product,
) -> ShelfAnswer
    ensures { Removes records.old donation product result records.new }
{
    let answer = appleounce_shelf_look_up(records, donation, product);
    store(records, answer, shelf::freed_record())
}

// Puts a unit into the lowest free record.
#[unsafe(no_mangle)]
pub extern "C" fn appleounce_shelf_enter(records: &mut [Record], unit: ShelfUnit) -> ShelfAnswer
    ensures { Enters records.old unit result records.new }
{
    let same = first(records, shelf::for_same(unit));
    let free = first(records, shelf::for_free());
    let answer = shelf::entered(unit, same, free);
    store(records, answer, shelf::holding_record(unit))
}
