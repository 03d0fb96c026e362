// The monthly tally with a limit of three lines, so that a test shows where it stops.
#![tactic(auto)]

use calls::Streams;

fn main(rt: HostRuntime) {
    let mut clock = 0;
    tally_stream::run(Streams::of(&rt), 3, &mut clock);
}
