// A burst is read, and what was found in it is compared with what a line says.
ghost use Rattle.std.specs.Prelude.{◌≡◌, ◌≤◌, length, take, pos};
ghost use Rattle.cases.specs.Same.{Decides};
ghost use Rattle.ft12.specs.Burst.{three_numbers};
ghost use Rattle.cases.specs.Burst.{FindsAs};

use bursts::burst::read_burst;
use ft12::burst::{BurstNumbers, BurstRefusal};
use numbers::burst::burst_numbers;

// Whether what was found has these numbers: how the burst ended, and the two counts.
fn are_numbers(numbers: BurstNumbers, ending: u8, frames: u8, acknowledgements: u8) -> bool
    ensures { Decides result (numbers ≡ three_numbers (pos ending) frames acknowledgements) }
{
    let found = (numbers.number, numbers.frames, numbers.acknowledgements);
    found == (ending.into(), frames.into(), acknowledgements.into())
}

// Whether these starts stand in the first places of the run.
fn are_starts(run: &[u16], wanted: &[u8]) -> bool
    requires { length wanted.now ≤ length run.now }
    ensures { Decides result (take (length wanted.now) run.now ≡ wanted.now) }
{
    run.iter()
        .zip(wanted)
        .all(|(start, byte)| *start == u16::from(*byte))
}

// Whether the burst of a line holds what the line says. An ending has the number that firmware gets. The burst stands
// behind how it ended, the two counts and as many starts.
pub fn has_found(a: &[u8]) -> bool
    requires { length a.now ≤ 264 }
    ensures { Decides result (FindsAs a.now) }
{
    let [ending, frames, acknowledgements, rest @ ..] = a else {
        return false;
    };
    let count = usize::from(*frames) + usize::from(*acknowledgements);
    let Some((wanted, burst)) = rest.split_at_checked(count) else {
        return false;
    };
    let mut starts = [0; 2048];
    let reply = read_burst(burst, &mut starts).map_err(BurstRefusal::number);
    are_numbers(burst_numbers(reply), *ending, *frames, *acknowledgements)
        & are_starts(&starts, wanted)
}
