// The figures of a month: each line's reading is counted by its refusal number, and an accepted one by its form and kinds.
#![tactic(auto)]

ghost use Rattle.std.specs.Prelude.{◌≡◌, [], ◌∷◌, ◌+◌, ◌≤◌, ◌<◌, ◌^◌, length, get_or, set, take};
ghost use Rattle.std.proofs.Math.Option.{some};
ghost use Rattle.message.specs.Grammar.{start_of, Produces};
ghost use Rattle.message.specs.Reading.{Answers};
ghost use Rattle.tally_figures.specs.Tally.{form_number, kind_of, form_of};
ghost use Rattle.tally_figures.specs.Counters.{BY_FORM, BY_KIND, zeros, Counts, Adds, AddsLines, Below, Low};
ghost use Rattle.tally_figures.specs.Laws.Walked.{row_or, row_there};

use label::{Edition, Form, Kind, Message};
use message::Reading;
use structure_reader::identify;

// How many counters there are: by refusal number, by form, by the papers' number of a kind.
pub const BY_NUMBER: usize = 14;

pub const BY_FORM: usize = 3;

pub const BY_KIND: usize = 32;

// The counters of a month's figures: by refusal number, by form, by the papers' number of a kind.
#[derive(Drop)]
pub struct Counters {
    pub numbers: [u64; BY_NUMBER],
    pub forms: [u64; BY_FORM],
    pub kinds: [u64; BY_KIND],
}

// Counts one more at a place.
fn count_at(counters: &mut [u64], at: usize)
    requires counter_there { at < length counters.old }
    requires room_for_one { get_or counters.old at 0 ≤ 2 ^ 63 + 16 }
    ensures { counters.new ≡ set counters.old at (get_or counters.old at 0 + 1) }
{
    counters[at] += 1;
}

// The forms in the tally's order, whatever numbers C has for them.
fn form_place(form: Form) -> usize
    ensures { result ≡ form_number form }
{
    match form {
        Form::Single => 0,
        Form::Pair => 1,
        Form::Compound => 2,
    }
}

// Where the first structure of a form stands: here as in the writer's layout, which the tally doesn't link.
fn start_of(form: Form) -> usize
    ensures { result ≡ start_of form }
{
    match form {
        Form::Single => 0,
        Form::Pair => 0,
        Form::Compound => 7,
    }
}

// A kind's number and how many bytes it has in all, in 01's table of structures.
#[derive(Clone, Copy)]
pub struct Row {
    pub number: usize,
    pub total: usize,
}

fn tabled(number: usize, total: usize) -> Row
    ensures { result ≡ record { number = number; total = total } }
{
    Row {
        number: number,
        total: total,
    }
}

fn row_of(kind: Kind) -> Row
    ensures { result ≡ row_or (some kind) }
{
    match kind {
        Kind::Donation => tabled(1, 16),
        Kind::Groups => tabled(2, 6),
        Kind::Product => tabled(3, 10),
        Kind::Expiry => tabled(4, 8),
        Kind::ExpiryTime => tabled(5, 12),
        Kind::Collection => tabled(6, 8),
        Kind::CollectionTime => tabled(7, 12),
        Kind::Production => tabled(8, 8),
        Kind::ProductionTime => tabled(9, 12),
        Kind::Testing => tabled(10, 7),
        Kind::Antigens => tabled(12, 20),
        Kind::Lot => tabled(18, 12),
        Kind::Flexible => tabled(31, 18),
        Kind::Antigens2001 => tabled(200, 21),
    }
}

// The row of the structure that a part of a line begins with.
fn row_at(part: &[u8]) -> Row
    requires { 1 < length part.now }
    ensures { result ≡ row_there part.now }
{
    match identify::named_by(part[0], part[1]) {
        Some(kind) => row_of(kind),
        None => tabled(0, 0),
    }
}

// Counts a message's structures by the identifiers in its line: with its entries unread, the compiler need not store them.
fn count_structures(line: &[u8], message: Message, kinds: &mut [u64])
    requires produces { Produces Edition.Current message line.now }
    requires below { Below BY_KIND (2 ^ 63) kinds.old }
    ensures { Counts kind_of (take message.count message.entries) kinds.old kinds.new }
{
    let form = message.form;
    let mut at = start_of(form);
    for _ in 0..message.count {
        let row = row_at(&line[at..]);
        count_at(kinds, row.number);
        at += row.total;
    }
}

// Counts a message by its form.
fn count_form(message: Message, forms: &mut [u64])
    requires { Below BY_FORM (2 ^ 63) forms.old }
    ensures { Counts form_of (message ∷ []) forms.old forms.new }
{
    let form = message.form;
    count_at(forms, form_place(form));
}

impl Counters {
    // Nothing is counted before the first line.
    pub fn new() -> Counters
        ensures { result ≡ zeros }
    {
        Counters {
            numbers: [0; BY_NUMBER],
            forms: [0; BY_FORM],
            kinds: [0; BY_KIND],
        }
    }

    // Counts the reading of a line.
    fn count_reading(&mut self, line: &[u8], reading: Reading)
        requires answers { Answers Edition.Current line.now reading }
        requires low { Low (2 ^ 63) self.old }
        ensures { Adds (reading ∷ []) self.old self.new }
    {
        count_at(&mut self.numbers, reading.refusal as usize);
        if reading.refusal == demand::ACCEPTED {
            let message = reading.message;
            count_form(message, &mut self.forms);
            count_structures(line, message, &mut self.kinds);
        }
    }

    // Counts a line by its reading. The one caller of read, so that the compiler can place it here.
    pub fn count_line(&mut self, line: &[u8])
        requires { Low (2 ^ 63) self.old }
        ensures { AddsLines (line.now ∷ []) self.old self.new }
    {
        let end = lines::judged_length(line.len());
        let judged = &line[..end];
        let reading = message_reader::read(Edition::Current, judged);
        self.count_reading(judged, reading);
    }
}
