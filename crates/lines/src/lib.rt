// The lines of an input that comes in blocks, judged and reported, one block after the other.
#![tactic(auto)]

ghost use Rattle.std.specs.Prelude.{◌≡◌, false, ◌+◌, ◌≤◌, min, length};
ghost use Rattle.lines.specs.Lines.{JUDGED};
ghost use Rattle.lines.specs.Report.{LineReport, DECIMAL_ROOM, REPORT_ROOM};
ghost use Rattle.lines.specs.Buffer.{Lays};
ghost use Rattle.lines.specs.Laws.Lines.{Passed, Found};
ghost use Rattle.lines.specs.Laws.Decimal.{Fewest};
ghost use Rattle.lines.specs.Laws.Judged.{Judged};
ghost use Rattle.lines.specs.Laws.Laid.{LaysNumber};
ghost use Rattle.lines.specs.Laws.Kept.{Cut, Kept};

use label::Edition;

// Of a longer line the first 512 bytes are judged.
pub const JUDGED: usize = 512;

// Between two blocks: the next line number, how many bytes of an unfinished line are kept in front of the buffer, and
// how much of the output is laid out.
#[derive(Clone, Copy)]
pub struct Bench {
    pub line: u64,
    pub kept: usize,
    pub used: usize,
}

// What is kept of a reading: its refusal number, and the number of structures or the place. Two numbers, as a report prints both.
#[derive(Clone, Copy)]
struct Verdict {
    detail: usize,
    refusal: u8,
}

// How many of a line's bytes are judged.
pub fn judged_length(size: usize) -> usize
    ensures { result ≡ min size JUDGED }
{
    size.min(JUDGED)
}

// The one caller of read, so that the message is optimised away.
fn judge(line: &[u8]) -> Verdict
    ensures { Judged line.now result }
{
    let end = judged_length(line.len());
    let reading = message_reader::read(Edition::Current, &line[..end]);
    if reading.refusal == demand::ACCEPTED {
        Verdict {
            detail: reading.message.count,
            refusal: demand::ACCEPTED,
        }
    } else {
        Verdict {
            detail: reading.place,
            refusal: reading.refusal,
        }
    }
}

// How many decimal digits a number takes.
fn count_digits(value: u64) -> usize
    ensures { Fewest value result }
{
    value.max(1).ilog10() as usize + 1
}

// Lays a number out in decimal, and tells where it ends. Most have one digit, and are stored at once.
pub fn lay_decimal(out: &mut [u8], at: usize, value: u64) -> usize
    requires { at + DECIMAL_ROOM ≤ length out.old }
    ensures { LaysNumber value at out.old out.new result }
{
    if value < 10 {
        out[at] = b'0' + value as u8;
        return at + 1;
    }
    let count = count_digits(value);
    text::write_digits(out, at, count, value);
    at + count
}

// Lays out the report of a line, and tells where it ends.
pub fn report_line(number: u64, line: &[u8], out: &mut [u8], at: usize) -> usize
    requires { at + REPORT_ROOM ≤ length out.old }
    ensures { Lays (LineReport number line.now) at out.old out.new result }
{
    let verdict = judge(line);
    let first = lay_decimal(out, at, number);
    out[first] = b' ';
    let second = lay_decimal(out, first + 1, verdict.refusal as u64);
    out[second] = b' ';
    let third = lay_decimal(out, second + 1, verdict.detail as u64);
    out[third] = b'\n';
    third + 1
}

// Whether an LF is among eight bytes: all are compared with no branch between, so that one instruction does it.
fn sees_end(input: &[u8], at: usize) -> bool
    requires { at + 8 ≤ length input.now }
    ensures { result ≡ false → Passed input.now at (at + 8) }
{
    (input[at] == b'\n')
        | (input[at + 1] == b'\n')
        | (input[at + 2] == b'\n')
        | (input[at + 3] == b'\n')
        | (input[at + 4] == b'\n')
        | (input[at + 5] == b'\n')
        | (input[at + 6] == b'\n')
        | (input[at + 7] == b'\n')
}

// Passes eights of bytes that have no LF. A while: it goes on by eights, and leaves off where fewer are left, which no range says.
fn skip_eights(input: &[u8], start: usize) -> usize
    requires { start ≤ length input.now }
    ensures { Passed input.now start result }
{
    let mut i = start;
    while 8 <= input.len() - i {
        if sees_end(input, i) {
            return i;
        }
        i += 8;
    }
    i
}

// The place of the first LF at or past a place, or the length.
pub fn find_end(input: &[u8], start: usize) -> usize
    requires { start ≤ length input.now }
    ensures { Found input.now start result }
{
    let mut i = skip_eights(input, start);
    // A while: with a for labelbench takes 2.5 % more instructions.
    while i < input.len() {
        if input[i] == b'\n' {
            return i;
        }
        i += 1;
    }
    i
}

// Moves what will be judged of the unfinished line to the front of the buffer, and tells how many bytes that are.
pub fn keep_front(buffer: &mut [u8], at: usize, fill: usize) -> usize
    requires { Cut at fill buffer.old }
    ensures { Kept at fill buffer.old buffer.new result }
{
    let size = judged_length(fill - at);
    buffer.copy_within(at..at + size, 0);
    size
}
