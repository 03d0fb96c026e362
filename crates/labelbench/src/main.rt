// Judges the lines of standard input, and prints for each its number, the refusal number, and the number of structures
// if it is accepted, else the place. All of it is in the crate stream.
#![tactic(auto)]

ghost use Rattle.std.specs.Prelude.{◌≡◌};
ghost use Rattle.lines.specs.Report.{LineReport};
ghost use Rattle.stream.specs.Stream.{Ran};

use calls::Streams;
use stream::{End, Report};

fn report(streams: Streams, clock: &mut u64) -> End
    requires { clock.old ≡ 0 }
    ensures { Ran LineReport clock.new result }
{
    stream::run::<Report>(streams, clock)
}

fn main(rt: HostRuntime) {
    let mut clock = 0;
    report(Streams::of(&rt), &mut clock);
}
