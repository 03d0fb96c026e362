// Extracts the lines of standard input: for each that is accepted its form, its bbb and its structures, without sequence
// numbers and flags. All of it is in the crate stream.
#![tactic(auto)]

ghost use Rattle.std.specs.Prelude.{◌≡◌};
ghost use Rattle.extract_line.specs.Lines.{LineExtract};
ghost use Rattle.stream.specs.Stream.{Ran};

use calls::Streams;
use stream::{End, Extract};

fn extracts(streams: Streams, clock: &mut u64) -> End
    requires { clock.old ≡ 0 }
    ensures { Ran (λ n. LineExtract) clock.new result }
{
    stream::run::<Extract>(streams, clock)
}

fn main(rt: HostRuntime) {
    let mut clock = 0;
    extracts(Streams::of(&rt), &mut clock);
}
