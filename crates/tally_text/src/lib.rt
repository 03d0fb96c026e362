// The text of a tally.
#![tactic(auto)]

ghost use Rattle.std.specs.Prelude.{◌≡◌, ◌+◌, ◌≤◌, map, length};
ghost use Rattle.text.specs.Buffer.{laid_at};
ghost use Rattle.tally_text.specs.Text.{said, FIGURE_ROOM, TEXT_ROOM};
ghost use Rattle.tally_text.specs.Laws.Picked.{Picks, picked};
ghost use Rattle.tally_text.specs.Laws.Tally.{Sized, LaysTally};
ghost use Rattle.tally_text.specs.Laws.Rows.{LaysRow, Fits, LaysRows};

use tally_figures::Counters;

// Copies a name into the output.
fn lay_name(name: &[u8], out: &mut [u8], at: usize)
    requires { at + length name.now ≤ length out.old }
    ensures { out.new ≡ laid_at at name.now out.old }
{
    out[at..at + name.len()].copy_from_slice(name);
}

// Lays out a figure's line, and tells where it ends.
fn lay_row(name: &[u8], value: u64, out: &mut [u8], at: usize) -> usize
    requires { at + length name.now + FIGURE_ROOM ≤ length out.old }
    ensures { LaysRow name.now value at out.old out.new result }
{
    lay_name(name, out, at);
    let blank = at + name.len();
    out[blank] = b' ';
    let end = lines::lay_decimal(out, blank + 1, value);
    out[end] = b'\n';
    end + 1
}

// Lays out the lines of figures, each under its name, and tells where they end.
pub fn lay_rows(names: &[&[u8]], figures: &[u64], out: &mut [u8]) -> usize
    requires { Fits (map (λ name. name.now) names.now) figures.now out.old }
    ensures { LaysRows (map (λ name. name.now) names.now) figures.now out.old out.new result }
{
    let mut used = 0;
    for (name, figure) in names.iter().zip(figures) {
        used = lay_row(name, *figure, out, used);
    }
    used
}

// The counters of a tally's rows, in the order of their names: two counters of one kind need not be neighbours.
const FORMS: [u8; 3] = [0, 1, 2];

const KINDS: [u8; 13] = [1, 2, 3, 4, 5, 6, 7, 8, 9, 10, 12, 18, 31];

const REFUSALS: [u8; 10] = [1, 2, 3, 4, 5, 6, 10, 11, 12, 13];

// Puts the counters at these places one behind the other.
fn pick(places: &[u8], counters: &[u64], figures: &mut [u64], at: usize)
    requires { Picks at places.now counters.now figures.old }
    ensures { figures.new ≡ laid_at at (picked counters.now places.now) figures.old }
{
    for (i, place) in places.iter().enumerate() {
        figures[at + i] = counters[*place as usize];
    }
}

// What a row that counts nothing tells.
fn say(so: bool) -> u64
    ensures { result ≡ said so }
{
    if so { 1 } else { 0 }
}

// So many rows there are, and room for their text.
const ROWS: usize = 31;

pub const TEXT_ROOM: usize = 2048;

// The names of the rows.
const NAMES: [&[u8]; ROWS] = [
    b"lines",
    b"accepted",
    b"refused",
    b"single",
    b"pair",
    b"compound",
    b"structures-001",
    b"structures-002",
    b"structures-003",
    b"structures-004",
    b"structures-005",
    b"structures-006",
    b"structures-007",
    b"structures-008",
    b"structures-009",
    b"structures-010",
    b"structures-012",
    b"structures-018",
    b"structures-031",
    b"refused-SHORT",
    b"refused-IDENTIFIER",
    b"refused-NESTED",
    b"refused-CHARACTER",
    b"refused-VALUE",
    b"refused-TRAILING",
    b"refused-CHECK",
    b"refused-DAY",
    b"refused-TIME",
    b"refused-REPEAT",
    b"stopped",
    b"failed",
];

pub fn text_room() -> [u8; TEXT_ROOM]
    ensures { TEXT_ROOM ≡ length result }
{
    [0; TEXT_ROOM]
}

// Lays out the text of a tally, and tells where it ends.
pub fn lay_tally(
    count: u64,
    counters: &Counters,
    stopped: bool,
    failed: bool,
    out: &mut [u8],
) -> usize
    requires { Sized count counters.now out.old }
    ensures { LaysTally count counters.now stopped failed out.old out.new result }
{
    let accepted = counters.numbers[demand::ACCEPTED as usize];
    let mut figures: [u64; ROWS] = [0; ROWS];
    figures[0] = count;
    figures[1] = accepted;
    figures[2] = count - accepted;
    figures[29] = say(stopped);
    figures[30] = say(failed);
    pick(&FORMS, &counters.forms, &mut figures, 3);
    pick(&KINDS, &counters.kinds, &mut figures, 6);
    pick(&REFUSALS, &counters.numbers, &mut figures, 19);
    lay_rows(&NAMES, &figures, out)
}
