// Blocks of standard input, read behind the bytes kept of an unfinished line, and writes to standard output: what the
// programs over lines share.
#![tactic(auto)]

ghost use Rattle.std.specs.Prelude.{◌≡◌, ◌+◌, ◌≤◌, length};
ghost use Rattle.blocks.specs.Reads.{BLOCK, INPUT_ROOM, TURNS, Reads, Sends};

use calls::{StandardInput, StandardOutput, Unwritten};
use std::io::Error;

// Blocks of 64 KiB are read.
pub const BLOCK: usize = 65536;

// More reads than any input takes: a proved loop has to end.
pub const TURNS: u64 = 140737488355328;

// How far the output took what was to be written, and why it took no more.
#[derive(Clone, Copy)]
pub struct Unsent {
    pub done: usize,
    pub why: Unwritten,
}

// Reads a block behind the kept bytes, which stay.
pub fn read_block(
    input: StandardInput,
    buffer: &mut [u8],
    kept: usize,
    clock: &mut u64,
) -> Result<Option<usize>, Error>
    requires { kept + BLOCK ≤ length buffer.old }
    ensures { Reads kept buffer.old buffer.new clock.old clock.new result }
{
    let end = kept + BLOCK;
    input.read(&mut buffer[kept..end], clock)
}

// Writes all of it, or tells where the output stopped.
pub fn write_all(output: StandardOutput, out: &[u8], clock: &mut u64) -> Result<(), Unsent>
    ensures { Sends out.now clock.old clock.new result }
{
    let mut done = 0;
    for _ in 0..TURNS {
        if done == out.len() {
            break;
        }
        match output.write(&out[done..], clock) {
            Ok(more) => done += more,
            Err(why) => return Err(Unsent { done, why }),
        }
    }
    if done < out.len() {
        Err(Unsent {
            done,
            why: Unwritten::Full,
        })
    } else {
        Ok(())
    }
}

// Room for what is kept of a line, and a block behind it.
pub const INPUT_ROOM: usize = lines::JUDGED + BLOCK;

pub fn input_room() -> [u8; INPUT_ROOM]
    ensures { INPUT_ROOM ≡ length result }
{
    [0; INPUT_ROOM]
}
