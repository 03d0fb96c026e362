// Reads standard input in blocks, counts its lines up to a limit and prints the tally.
#![tactic(auto)]

ghost use Rattle.std.specs.Prelude.{◌≡◌, length};
ghost use Rattle.blocks.specs.Reads.{INPUT_ROOM};
ghost use Rattle.notices.specs.Numbers.{LastEnded};
ghost use Rattle.tally_figures.specs.Counters.{zeros};
ghost use Rattle.tally_stream.specs.Run.{failed_of, Ran};
ghost use Rattle.tally_stream.specs.Laws.Turns.{First, Going, Came, Turned, SendsText, Shown, Shows};

use calls::Streams;
use std::io::Stderr;
use tally_figures::Counters;
use tally_lines::Progress;

// How the reading ended: at the end of the input, or at the limit; by a read that failed; or where no more is read.
#[derive(Clone, Copy)]
pub enum How {
    Whole,
    Failed,
    Spent,
}

// Whether the tally is printed, or not all of it, and how the reading had ended.
#[derive(Clone, Copy)]
pub enum End {
    Printed(How),
    Unwritten(How),
}

// What a turn leaves: a tally for the next one, the end of the input, or an input that failed.
#[derive(Clone, Copy)]
enum Step {
    Next(Progress),
    Ended,
    Failed,
}

// What was counted: so many lines, whether one more is there, and how the reading ended; each is told by itself.
#[derive(Clone, Copy)]
struct Counted {
    lines: u64,
    stopped: bool,
    how: How,
}

// Begins the line on standard error with the last line that ended in what came up to this tick of the clock.
fn tell_ended(stderr: Stderr, last: u64, clock: u64)
    requires { LastEnded clock last }
{
    notices::after_ended(stderr, b"tally", last, clock);
}

// Reads a block and takes it. An interrupted read leaves all for the next turn.
fn turn(
    streams: Streams,
    limit: u32,
    progress: Progress,
    buffer: &mut [u8],
    counters: &mut Counters,
    clock: &mut u64,
) -> Step
    requires in_size { length buffer.old ≡ INPUT_ROOM }
    requires going { Going limit progress counters.old }
    requires came { Came limit clock.old progress buffer.old counters.old }
    ensures { Turned limit clock.new progress buffer.new counters.new result }
{
    let kept = progress.kept;
    match blocks::read_block(streams.input, buffer, kept, clock) {
        Ok(Some(0)) => Step::Ended,
        Ok(Some(came)) => {
            let fill = kept + came;
            Step::Next(tally_lines::take_block(limit, progress, buffer, fill, counters))
        }
        Ok(None) => Step::Next(progress),
        Err(error) => {
            tell_ended(streams.stderr, progress.lines, *clock);
            notices::input_failed(streams.stderr, error);
            Step::Failed
        }
    }
}

// Nothing is counted or kept before the first line.
fn first_progress() -> Progress
    ensures { First result }
{
    Progress {
        lines: 0,
        kept: 0,
        stopped: false,
    }
}

// What a progress comes to.
fn ended_as(progress: Progress, how: How) -> Counted
    ensures { result ≡ record { lines = progress.lines; stopped = progress.stopped; how = how } }
{
    Counted {
        lines: progress.lines,
        stopped: progress.stopped,
        how: how,
    }
}

// Takes turns until the input ends or the limit stops the tally, then the end; where it is not read to its end the unfinished
// line is not judged.
fn count_input(
    streams: Streams,
    limit: u32,
    buffer: &mut [u8],
    counters: &mut Counters,
    clock: &mut u64,
) -> Counted
    requires in_size { length buffer.old ≡ INPUT_ROOM }
    requires none_counted { counters.old ≡ zeros }
    requires first_tick { clock.old ≡ 0 }
    ensures { Shown limit clock.new counters.new result }
{
    let mut progress = first_progress();
    for _ in 0..blocks::TURNS {
        match turn(streams, limit, progress, buffer, counters, clock) {
            Step::Next(next) => {
                if next.stopped {
                    return ended_as(next, How::Whole);
                }
                progress = next;
            }
            Step::Ended => {
                let last = tally_lines::take_end(limit, progress, buffer, counters);
                return ended_as(last, How::Whole);
            }
            Step::Failed => {
                return ended_as(progress, How::Failed);
            }
        }
    }
    tell_ended(streams.stderr, progress.lines, *clock);
    notices::reads_spent(streams.stderr);
    ended_as(progress, How::Spent)
}

// Writes the text, and tells whether all of it went.
fn send(streams: Streams, out: &[u8], clock: &mut u64) -> bool
    ensures { SendsText out.now clock.old clock.new result }
{
    match blocks::write_all(streams.output, out, clock) {
        Ok(()) => true,
        Err(unsent) => {
            notices::program(streams.stderr, b"tally");
            notices::not_written(streams.stderr, unsent.why);
            false
        }
    }
}

// Whether the row of an input that failed says so.
fn failed(how: How) -> bool
    ensures { result ≡ failed_of how }
{
    !matches!(how, How::Whole)
}

// Prints what was counted, and tells whether all of it went.
fn show(
    streams: Streams,
    limit: u32,
    counted: Counted,
    counters: &Counters,
    clock: &mut u64,
) -> bool
    requires { Shown limit clock.old counters.now counted }
    ensures { Shows limit counted clock.new result }
{
    if counted.stopped {
        notices::after_limit(streams.stderr, b"tally", limit as u64, *clock);
        notices::tally_stopped(streams.stderr);
    }
    let how = counted.how;
    let mut out = tally_text::text_room();
    let used = tally_text::lay_tally(
        counted.lines,
        counters,
        counted.stopped,
        failed(how),
        &mut out,
    );
    send(streams, &out[..used], clock)
}

// Prints the tally of standard input up to a limit.
pub fn run(streams: Streams, limit: u32, clock: &mut u64) -> End
    requires { clock.old ≡ 0 }
    ensures { Ran limit clock.new result }
{
    let mut buffer = blocks::input_room();
    let mut counters = Counters::new();
    let counted = count_input(streams, limit, &mut buffer, &mut counters, clock);
    let how = counted.how;
    if show(streams, limit, counted, &counters, clock) {
        End::Printed(how)
    } else {
        End::Unwritten(how)
    }
}
