// The lines of an input that comes in blocks, counted one block after the other up to a limit.
#![tactic(auto)]

ghost use Rattle.std.specs.Prelude.{◌≤◌, ◌<◌, ◌^◌, length};
ghost use Rattle.tally_figures.specs.Counters.{Within};
ghost use Rattle.tally_lines.specs.Blocks.{Ready, Taken, Closed};
ghost use Rattle.tally_lines.specs.Laws.Underway.{Ended};

use tally_figures::Counters;

// Between two blocks: how many lines are counted, how many bytes of an unfinished line are kept in front of the buffer,
// and whether the limit is reached and one more line was there; lines and bytes are there in both cases.
#[derive(Clone, Copy)]
pub struct Progress {
    pub lines: u64,
    pub kept: usize,
    pub stopped: bool,
}

// Where the line begins that no LF ends, how many lines are counted, and whether the limit stopped it.
#[derive(Clone, Copy)]
struct Cursor {
    lines: u64,
    at: usize,
    stopped: bool,
}

// Counts each line that an LF ends, up to the limit. The bytes that were kept begin the first of them, and are not
// searched again. A loop: the next line begins where find_end left off.
fn count_ended(input: &[u8], kept: usize, limit: u64, first: u64, counters: &mut Counters) -> Cursor
    requires kept_there { kept ≤ length input.now }
    requires limit_fits { limit < 2 ^ 32 }
    requires within { Within limit first counters.old }
    ensures { Ended input.now kept limit first counters.old counters.new result }
{
    let mut at = 0;
    let mut seen = kept;
    let mut count = first;
    loop {
        let end = lines::find_end(input, seen);
        if end == input.len() {
            return Cursor {
                lines: count,
                at: at,
                stopped: false,
            };
        }
        if count == limit {
            return Cursor {
                lines: count,
                at: input.len(),
                stopped: true,
            };
        }
        counters.count_line(&input[at..end]);
        count += 1;
        at = end + 1;
        seen = at;
    }
}

// Takes the next block, which stands in the buffer behind the bytes that were kept, up to fill.
pub fn take_block(
    limit: u32,
    progress: Progress,
    buffer: &mut [u8],
    fill: usize,
    counters: &mut Counters,
) -> Progress
    requires { Ready limit progress buffer.old fill counters.old }
    ensures { Taken limit progress fill buffer.old buffer.new counters.old counters.new result }
{
    let cursor = count_ended(
        &buffer[..fill],
        progress.kept,
        limit as u64,
        progress.lines,
        counters,
    );
    let kept = lines::keep_front(buffer, cursor.at, fill);
    Progress {
        lines: cursor.lines,
        kept: kept,
        stopped: cursor.stopped,
    }
}

// Takes the end of the input: a last line without LF is counted if it is not empty, up to the limit.
pub fn take_end(limit: u32, progress: Progress, buffer: &[u8], counters: &mut Counters) -> Progress
    requires { Ready limit progress buffer.now progress.kept counters.old }
    ensures { Closed limit progress buffer.now counters.old counters.new result }
{
    let count = progress.lines;
    let kept = progress.kept;
    if kept == 0 {
        return Progress {
            lines: count,
            kept: 0,
            stopped: false,
        };
    }
    if count == limit as u64 {
        return Progress {
            lines: count,
            kept: 0,
            stopped: true,
        };
    }
    counters.count_line(&buffer[..kept]);
    Progress {
        lines: count + 1,
        kept: 0,
        stopped: false,
    }
}
