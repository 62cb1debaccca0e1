// A datapoint record, by value: how it changes when its value is handed out or the bus has something for it, and
// which filters it passes. Fields are assigned and no record is built: a literal would write the padding byte too.
ghost use Rattle.std.specs.Prelude.{◌≡◌, ◌≤◌, length};
ghost use Rattle.baos.specs.Datapoint.{handed_out, bus_value, outcome, with_mark};
ghost use Rattle.baos.specs.Get.{passes};

use crate::filter::Filter;
use baos::datapoint::Datapoint;
use values::value::padded;

// The value was handed out.
#[tactic(auto, unfolding(baos::specs::Datapoint::handed_out, baos::specs::Datapoint::with_state))]
pub fn handed_out(mut d: Datapoint) -> Datapoint
    ensures { result ≡ handed_out d }
{
    d.state = d.state / 16 * 16 + d.state % 8;
    d
}

// The value was handed out in an indication.
#[tactic(auto, unfolding(baos::specs::Datapoint::with_mark))]
pub fn reported(d: Datapoint) -> Datapoint
    ensures { result ≡ with_mark 0 (handed_out d) }
{
    let mut d = handed_out(d);
    d.mark = 0;
    d
}

// A value came from the bus.
#[tactic(auto, unfolding(baos::specs::Datapoint::bus_value, baos::specs::Datapoint::with_value, baos::specs::Datapoint::with_mark))]
pub fn bus_value(mut d: Datapoint, value: &[u8]) -> Datapoint
    requires { length value.now ≤ 14 }
    ensures { result ≡ bus_value value.now d }
{
    d.value = padded(value);
    d.state = d.state / 32 * 32 + 24 + d.state % 4;
    d.mark = 1;
    d
}

// The outcome of a transmission.
#[tactic(auto, unfolding(baos::specs::Datapoint::outcome, baos::specs::Datapoint::with_state))]
pub fn outcome_of(mut d: Datapoint, status: u8) -> Datapoint
    requires { status ≤ 3 }
    ensures { result ≡ outcome status d }
{
    d.state = d.state / 4 * 4 + status;
    d
}

// Whether the record passes the filter of this number: no number above 2 is one's.
#[tactic(auto, unfolding(baos::specs::Get::passes))]
pub fn passes_filter(d: Datapoint, filter: u8) -> bool
    ensures { result ≡ passes filter d }
{
    Filter::try_from(filter).is_ok_and(|filter| filter.passes(d))
}
