// Reads standard input in blocks, and writes for each of its lines what a job says: all that the programs over lines share.
#![tactic(auto)]

ghost use Rattle.std.specs.Prelude.{ℕ, List, ◌≡◌, ◌+◌, ◌^◌, ◌≤◌, ◌<◌, length};
ghost use Rattle.calls.specs.Calls.{Ended};
ghost use Rattle.blocks.specs.Reads.{INPUT_ROOM};
ghost use Rattle.lines.specs.Lines.{JUDGED};
ghost use Rattle.notices.specs.Numbers.{LastEnded};
ghost use Rattle.lines.specs.Laws.Ends.{ends};
ghost use Rattle.stream.specs.Jobs.{LINE_ROOM, OUTPUT_ROOM};
ghost use Rattle.lines.specs.Report.{LineReport};
ghost use Rattle.lines.specs.Laws.Upto.{Judging};
ghost use Rattle.extract_line.specs.Lines.{LineExtract};
ghost use Rattle.stream.specs.Laws.Jobs.{report_judging, extract_judging};
ghost use Rattle.stream.specs.Stream.{Owing, Ran};
ghost use Rattle.stream.specs.Laws.Moves.{LaysLine, waiting, SendsOwed, Flushes, Begun, TellsLined, Between, Turns, Closing};

use calls::Streams;
use lines::Bench;
use std::io::Stderr;

// Room for the text of a line, and for a block of output before it.
const LINE_ROOM: usize = 2 * lines::JUDGED + 2;

const OUTPUT_ROOM: usize = blocks::BLOCK + LINE_ROOM;

// How a run ended: at the end of the input; by a read that failed; where the output takes no more; or where no more is read.
#[derive(Clone, Copy)]
pub enum End {
    Whole,
    Failed,
    Stopped,
    Spent,
}

// What a turn leaves: all for the next one, the end of the input, an input that failed, or an output that did.
#[derive(Clone, Copy)]
enum Step {
    Next,
    Ended,
    Failed,
    Stopped,
}

// All of a run but the clock, which stays apart: so what sends takes this by `&`, and no clause says what it leaves.
#[derive(Drop)]
struct Flow {
    streams: Streams,
    bench: Bench,
    buffer: [u8; blocks::INPUT_ROOM],
    out: [u8; OUTPUT_ROOM],
}

// What is written for each line. A type, so that each program is compiled for its own job, and the reader has one caller.
pub trait Job {
    // The text of a line.
    ghost line_of: { ℕ → List ℕ → List ℕ → Type 0 };

    // Lays it out, and tells where it ends.
    fn lay(number: u64, line: &[u8], out: &mut [u8], at: usize) -> usize
        requires judged { length line.now ≤ JUDGED }
        requires room { at + LINE_ROOM ≤ length out.old }
        ensures { LaysLine (line_of number line.now) at out.old out.new result };

    // Begins the line on standard error with the last line that ended in what came up to this tick of the clock.
    fn tell_ended(stderr: Stderr, last: u64, clock: u64)
        requires { LastEnded clock last };

    // Begins it where some of the text of the lines before this one is lost.
    fn tell_unwritten(stderr: Stderr, next: u64, lost: &[u8], clock: u64)
        requires owing { Owing line_of clock next lost.now }
        requires some_lost { 0 < length lost.now };

    // Only what is judged of a line decides its text.
    ghost judging: { Judging line_of };
}

// labelbench's job.
pub struct Report {}

impl Job for Report {
    ghost line_of = { LineReport };

    ghost judging = { report_judging };

    fn lay(number: u64, line: &[u8], out: &mut [u8], at: usize) -> usize {
        lines::report_line(number, line, out, at)
    }

    fn tell_ended(stderr: Stderr, last: u64, clock: u64) {
        notices::after_ended(stderr, b"labelbench", last, clock);
    }

    fn tell_unwritten(stderr: Stderr, next: u64, lost: &[u8], clock: u64) {
        let gone = count_ends(lost);
        notices::after_report(stderr, b"labelbench", next - 1 - gone, clock);
    }
}

// The extract's job.
pub struct Extract {}

impl Job for Extract {
    ghost line_of = { λ n. LineExtract };

    ghost judging = { extract_judging };

    fn lay(number: u64, line: &[u8], out: &mut [u8], at: usize) -> usize {
        extract_line::lay_extract(line, out, at)
    }

    fn tell_ended(stderr: Stderr, last: u64, clock: u64) {
        notices::after_ended(stderr, b"extract", last, clock);
    }

    // An extract has no text for some lines, so no number says how far it went.
    fn tell_unwritten(stderr: Stderr, next: u64, lost: &[u8], clock: u64) {
        notices::program(stderr, b"extract");
    }
}

// How many LFs there are.
fn count_ends(part: &[u8]) -> u64
    ensures { result ≡ ends part.now }
{
    part.iter().filter(|byte| **byte == b'\n').count() as u64
}

impl Flow {
    // Writes what is laid out for the lines before this one, and tells whether all of it went.
    fn send<J: Job>(&self, clock: &mut u64) -> bool
        requires laid_out { self.now.bench.used ≤ OUTPUT_ROOM }
        requires owing { Owing J.line_of clock.old self.now.bench.line (waiting self.now) }
        ensures { SendsOwed J.line_of (waiting self.now) clock.old clock.new result }
    {
        let out = &self.out[..self.bench.used];
        match blocks::write_all(self.streams.output, out, clock) {
            Ok(()) => true,
            Err(unsent) => {
                J::tell_unwritten(
                    self.streams.stderr,
                    self.bench.line,
                    &out[unsent.done..],
                    *clock,
                );
                notices::not_written(self.streams.stderr, unsent.why);
                false
            }
        }
    }

    // Writes what is laid out once it is a block of 64 KiB. Tells from where on the output has room, or nothing where it takes no more.
    fn flush<J: Job>(&self, clock: &mut u64) -> Option<usize>
        requires laid_out { self.now.bench.used ≤ OUTPUT_ROOM }
        requires owing { Owing J.line_of clock.old self.now.bench.line (waiting self.now) }
        ensures { Flushes J.line_of self.now.out self.now.bench.used clock.old clock.new result }
    {
        let used = self.bench.used;
        if used < blocks::BLOCK {
            return Some(used);
        }
        if self.send::<J>(clock) { Some(0) } else { None }
    }

    // Writes for each line that an LF ends. The bytes that were kept begin the first of them, and are not searched again. Tells
    // where the rest begins; or nothing where the output takes no more. A loop: the next line begins where find_end left off.
    fn tell_lines<J: Job>(&mut self, fill: usize, clock: &mut u64) -> Option<usize>
        requires { Begun J.line_of self.old fill clock.old }
        ensures { TellsLined J.line_of self.old.bench.line fill self.new clock.new result }
    {
        let mut at = 0;
        let mut seen = self.bench.kept;
        loop {
            let input = &self.buffer[..fill];
            let end = lines::find_end(input, seen);
            if end == input.len() {
                return Some(at);
            }
            let stop = at + lines::judged_length(end - at);
            let used = self.bench.used;
            self.bench.used = J::lay(self.bench.line, &input[at..stop], &mut self.out, used);
            self.bench.line += 1;
            at = end + 1;
            seen = at;
            self.bench.used = self.flush::<J>(clock)?;
        }
    }

    // Takes the bytes that came behind the kept ones, and keeps what will be judged of the line that they leave.
    fn take<J: Job>(&mut self, fill: usize, clock: &mut u64) -> Step
        requires { Begun J.line_of self.old fill clock.old }
        ensures { Turns J.line_of self.old.bench.line self.new clock.new result }
    {
        match self.tell_lines::<J>(fill, clock) {
            Some(rest) => {
                let kept = lines::keep_front(&mut self.buffer, rest, fill);
                self.bench.kept = kept;
                Step::Next
            }
            None => Step::Stopped,
        }
    }

    // Reads a block and takes it. An interrupted read leaves all for the next turn.
    fn turn<J: Job>(&mut self, clock: &mut u64) -> Step
        requires between { Between J.line_of self.old clock.old }
        requires numbers_fit { self.old.bench.line + INPUT_ROOM < 2 ^ 64 }
        ensures { Turns J.line_of self.old.bench.line self.new clock.new result }
    {
        let kept = self.bench.kept;
        match blocks::read_block(self.streams.input, &mut self.buffer, kept, clock) {
            Ok(Some(came)) => {
                let ended = came == 0;
                if ended {
                    return Step::Ended;
                }
                self.take::<J>(kept + came, clock)
            }
            Ok(None) => Step::Next,
            Err(error) => {
                J::tell_ended(self.streams.stderr, self.bench.line - 1, *clock);
                notices::input_failed(self.streams.stderr, error);
                Step::Failed
            }
        }
    }

    // Writes what is laid out at the end of the input, for all lines before this one.
    fn close<J: Job>(&self, clock: &mut u64) -> End
        requires laid_out { self.now.bench.used ≤ OUTPUT_ROOM }
        requires closing { Closing J.line_of clock.old self.now.bench.line (waiting self.now) }
        requires ended { Ended clock.old }
        ensures { Ran J.line_of clock.new result }
    {
        if self.send::<J>(clock) {
            End::Whole
        } else {
            End::Stopped
        }
    }

    // Takes the end of the input: the last line, which no LF ends, if it is not empty.
    fn finish<J: Job>(&mut self, clock: &mut u64) -> End
        requires between { Between J.line_of self.old clock.old }
        requires numbers_fit { self.old.bench.line + 1 < 2 ^ 64 }
        requires ended { Ended clock.old }
        ensures { Ran J.line_of clock.new result }
    {
        let kept = self.bench.kept;
        if kept == 0 {
            return self.close::<J>(clock);
        }
        let used = self.bench.used;
        let end = J::lay(self.bench.line, &self.buffer[..kept], &mut self.out, used);
        self.bench.used = end;
        self.bench.line += 1;
        self.close::<J>(clock)
    }

    // Takes turns until the input ends, then the end. Where the input is not read to its end, the unfinished line is not judged.
    fn take_turns<J: Job>(&mut self, clock: &mut u64) -> End
        requires first { (self.old.bench.line ≡ 1) × (self.old.bench.kept ≡ 0) × (self.old.bench.used ≡ 0) }
        requires first_tick { clock.old ≡ 0 }
        ensures { Ran J.line_of clock.new result }
    {
        for _ in 0..blocks::TURNS {
            match self.turn::<J>(clock) {
                Step::Next => {}
                Step::Ended => {
                    return self.finish::<J>(clock);
                }
                Step::Failed => {
                    if self.send::<J>(clock) {
                        return End::Failed;
                    }
                    return End::Stopped;
                }
                Step::Stopped => {
                    return End::Stopped;
                }
            }
        }
        J::tell_ended(self.streams.stderr, self.bench.line - 1, *clock);
        notices::reads_spent(self.streams.stderr);
        if self.send::<J>(clock) {
            End::Spent
        } else {
            End::Stopped
        }
    }
}

// Reads standard input to its end, and writes for each of its lines what the job says.
pub fn run<J: Job>(streams: Streams, clock: &mut u64) -> End
    requires { clock.old ≡ 0 }
    ensures { Ran J.line_of clock.new result }
{
    // The input begins with line 1, and nothing is kept or laid out.
    let mut flow = Flow {
        streams,
        bench: Bench {
            line: 1,
            kept: 0,
            used: 0,
        },
        buffer: [0; blocks::INPUT_ROOM],
        out: [0; OUTPUT_ROOM],
    };
    flow.take_turns::<J>(clock)
}
