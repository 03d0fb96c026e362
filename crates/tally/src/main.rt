// The monthly tally of standard input.
#![tactic(auto)]

ghost use Rattle.std.specs.Prelude.{◌≡◌};
ghost use Rattle.tally_figures.specs.Tally.{MOST};
ghost use Rattle.tally_stream.specs.Run.{Ran};

use calls::Streams;
use tally_stream::End;

// No more lines are counted.
const MOST: u32 = 4000000000;

fn tally(streams: Streams, clock: &mut u64) -> End
    requires { clock.old ≡ 0 }
    ensures { Ran MOST clock.new result }
{
    tally_stream::run(streams, MOST, clock)
}

fn main(rt: HostRuntime) {
    let mut clock = 0;
    tally(Streams::of(&rt), &mut clock);
}
