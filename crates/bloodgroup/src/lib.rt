// The blood group codes, worked out by row and column and searched back.
#![tactic(auto)]

ghost use Rattle.std.specs.Prelude.{◌≡◌, ◌<◌};
ghost use Rattle.bloodgroup.specs.Table.{rows, code_number};
ghost use Rattle.bloodgroup.specs.Groups.{code_at, Means};
ghost use Rattle.bloodgroup.specs.Laws.Rule.{lowest, offset};
ghost use Rattle.bloodgroup.specs.Laws.Search.{Finds, FindsColumn};

const ROWS: usize = 8;

// The lowest of each row's eight neighbouring numbers: O neg, O pos, A neg, A pos, B neg, B pos, AB neg, AB pos.
const LOWEST: [u8; 8] = [91, 47, 2, 58, 13, 69, 24, 80];

fn lowest(row: usize) -> u8
    requires { row < rows }
    ensures { result ≡ lowest row }
{
    LOWEST[row]
}

// How far a column's number is above the lowest: the default's is the fifth of the eight, and the others keep their order.
fn offset(column: usize) -> u8
    requires { column < 8 }
    ensures { result ≡ offset column }
{
    // directed, emergency, directed biohazard and directed crossover come before the default, the autologous ones after it
    if column < 1 {
        4
    } else if column < 5 {
        column as u8 - 1
    } else {
        column as u8
    }
}

fn code_number(row: usize, column: usize) -> u8
    requires { (row < rows) × (column < 8) }
    ensures { result ≡ code_number row column }
{
    lowest(row) + offset(column)
}

// The code number at a row and a column, if it is one of the table's.
pub fn code_at(row: usize, column: usize) -> Option<u8>
    ensures { result ≡ code_at row column }
{
    if row < ROWS && column < 8 {
        Some(code_number(row, column))
    } else {
        None
    }
}

// The column of n in a row.
fn column_of(row: usize, n: u8) -> Option<usize>
    requires { row < rows }
    ensures { FindsColumn row n result }
{
    for column in 0..8 {
        if code_number(row, column) == n {
            return Some(column);
        }
    }
    None
}

// The row and the column of n.
fn search(n: u8) -> Option<(usize, usize)>
    ensures { Finds n result }
{
    for row in 0..ROWS {
        if let Some(column) = column_of(row, n) {
            return Some((row, column));
        }
    }
    None
}

// What a gg means, searched back in the table: its row and column, or nothing that we interpret.
pub fn group_of(gg0: u8, gg1: u8) -> Option<(usize, usize)>
    ensures { Means gg0 gg1 result }
{
    let gg = [gg0, gg1];
    if text::is_digit(gg0) && text::is_digit(gg1) {
        search(text::read_digits(&gg, 0, 2) as u8)
    } else {
        None
    }
}
