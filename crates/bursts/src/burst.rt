// The reader of bursts.
ghost use Rattle.std.specs.Prelude.{◌≡◌, ◌-◌, ◌<◌, ◌≤◌, ◌↔◌, length};
ghost use Rattle.ft12.specs.Burst.{contents, first_size, read_burst, reply_of, BurstLeaves};

use crate::piece::{data_size, fixed_size};
use ft12::burst::{BurstRefusal, Ending, Figures, LEAST_PLACES, LONGEST_BURST};
use ft12::frame::{ACKNOWLEDGEMENT, DATA_START};
use judging::receiver::is_beginning;

// How a burst ends with bytes in front of which no whole piece stands.
fn ending_in(s: &[u8]) -> Ending
    requires { (0 < length s.now) × (first_size s.now ≡ 0) }
    ensures { result ≡ (contents s.now).ending }
{
    if is_beginning(s) {
        Ending::Unfinished
    } else {
        Ending::Damaged
    }
}

fn figures(found: usize, acknowledgements: usize, ending: Ending) -> Figures
    requires { (acknowledgements ≤ found) × (found ≤ 2048) }
    ensures { result
        ≡ record { frames = found - acknowledgements; acknowledgements = acknowledgements; ending = ending } }
{
    Figures {
        frames: (found - acknowledgements) as u16,
        acknowledgements: acknowledgements as u16,
        ending,
    }
}

// A whole burst: where each acknowledgement and each sound frame starts goes into the run, in order. Each kind has a
// branch to its end: one store and one step for all took longer (docs/SPEED.md), and so does a `match`. A `while`, since
// pieces differ in size.
pub fn read_burst(burst: &[u8], starts: &mut [u16]) -> Result<Figures, BurstRefusal>
    ensures leaves { BurstLeaves (read_burst burst.now starts.old) (reply_of result) starts.new }
    ensures too_long { (result ≡ Err BurstRefusal.TooLong) ↔ (2048 < length burst.now) }
    ensures too_few { result ≡ Err BurstRefusal.TooFewPlaces → length starts.old < 2048 }
{
    let n = burst.len();
    if LONGEST_BURST < n {
        return Err(BurstRefusal::TooLong);
    }
    if starts.len() < LEAST_PLACES {
        return Err(BurstRefusal::TooFewPlaces);
    }
    let mut at: usize = 0;
    let mut found: usize = 0;
    let mut acknowledgements: usize = 0;
    while at < n {
        if burst[at] == ACKNOWLEDGEMENT {
            starts[found] = at as u16;
            found += 1;
            acknowledgements += 1;
            at += 1;
        } else if burst[at] == DATA_START {
            let Some(size) = data_size(&burst[at..]) else {
                return Ok(figures(found, acknowledgements, ending_in(&burst[at..])));
            };
            starts[found] = at as u16;
            found += 1;
            at += size;
        } else {
            let Some(size) = fixed_size(&burst[at..]) else {
                return Ok(figures(found, acknowledgements, ending_in(&burst[at..])));
            };
            starts[found] = at as u16;
            found += 1;
            at += size;
        }
    }
    Ok(figures(found, acknowledgements, Ending::Clean))
}
