// What the programs over lines say on standard error: one line each time, begun by the program's name and ended by what happened.
// What standard error does not take is lost.
#![tactic(auto)]

ghost use Rattle.lines.specs.Report.{LineReport};
ghost use Rattle.notices.specs.Numbers.{LastEnded, LastWhole, LimitPassed};

use calls::Unwritten;
use std::fmt::InlineText;
use std::io::{Eprint, Error, Print, Stderr};

// Room for the system's word for an error and its number: std has 256 bytes for the word.
const WORD_ROOM: usize = 300;

// Begins the line with the program's name.
pub fn program(stderr: Stderr, name: &[u8]) {
    let _ = stderr.write_all(name);
    let _ = stderr.write_all(b":");
}

// Begins it with the number of a line too.
fn after(stderr: Stderr, name: &[u8], line: u64) {
    program(stderr, name);
    let _ = eprint!(stderr; " after line {line}");
}

// That number is the last line that ended in what came up to this tick of the clock.
pub fn after_ended(stderr: Stderr, name: &[u8], last: u64, clock: u64)
    requires { LastEnded clock last }
{
    after(stderr, name, last);
}

// Or the last whose report was written whole up to there.
pub fn after_report(stderr: Stderr, name: &[u8], last: u64, clock: u64)
    requires { LastWhole LineReport clock last }
{
    after(stderr, name, last);
}

// Or the limit, beyond which lines came up to there.
pub fn after_limit(stderr: Stderr, name: &[u8], limit: u64, clock: u64)
    requires { LimitPassed clock limit }
{
    after(stderr, name, limit);
}

// The system's word for an error, without the number that std puts behind it.
fn word(text: &str) -> &str {
    match text.rsplit_once(" (os error ") {
        Some((word, _)) => word,
        None => text,
    }
}

// Ends it with the system's word for the error.
fn failed(stderr: Stderr, what: &str, error: Error) {
    let text: InlineText<WORD_ROOM> = InlineText::of(error);
    let word = word(text.as_str());
    let _ = eprintln!(stderr; " {what} failed: {word}");
}

// Ends it with the system's word for the error of a read.
pub fn input_failed(stderr: Stderr, error: Error) {
    failed(stderr, "the input", error);
}

// Ends it with the system's word for the error of a write.
pub fn output_failed(stderr: Stderr, error: Error) {
    failed(stderr, "the output", error);
}

// Ends it where a write took nothing.
pub fn output_full(stderr: Stderr) {
    let _ = eprintln!(stderr; " the output takes no more");
}

// Ends it with the one or the other.
pub fn not_written(stderr: Stderr, why: Unwritten) {
    match why {
        Unwritten::Full => output_full(stderr),
        Unwritten::Failed(error) => output_failed(stderr, error),
    }
}

// Ends it where no further read is made, though the input may have more.
pub fn reads_spent(stderr: Stderr) {
    let _ = eprintln!(stderr; " no more is read");
}

// Ends it where one more line is there than the tally counts.
pub fn tally_stopped(stderr: Stderr) {
    let _ = eprintln!(stderr; " the tally stopped");
}
