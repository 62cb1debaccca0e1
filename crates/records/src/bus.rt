// Bus events at one datapoint record, by value.
ghost use Rattle.std.specs.Prelude.{◌≡◌, [], ◌∷◌, T};
ghost use Rattle.baos.specs.Bus.{takes, taken, found_takes};
ghost use Rattle.baos.specs.Datapoint.{datapoint_id};
ghost use Rattle.baos.specs.Table.{found};

use crate::datapoint::{bus_value, outcome_of};
use baos::bus::BusEvent;
use baos::datapoint::Datapoint;
use values::lookup::{is_present, lookup_at};
use values::value::is_value;

// Whether the datapoint of that ID is found at this record, and takes the event: closed and open ones alike.
#[tactic(auto, using(baos::proofs::BusLaws::takes_present, baos::proofs::BusLaws::takes_absent, baos::proofs::LookupLaws::same_lookup), unfolding(baos::specs::Bus::takes))]
pub fn takes_event(event: BusEvent, id: u16, value: &[u8], d: Datapoint) -> bool
    ensures { result ≡ found_takes event value.now (found datapoint_id id (d ∷ [])) }
{
    if !is_present(lookup_at(d, id)) {
        return false;
    }
    match event {
        BusEvent::Value => is_value(d.typecode, value),
        BusEvent::Transmission(_) => true,
    }
}

// The record after it.
#[tactic(auto, using(baos::proofs::BusLaws::taken_fits, baos::proofs::BusLaws::status_fits), unfolding(baos::specs::Bus::taken, baos::specs::Bus::status_of))]
pub fn after_event(event: BusEvent, value: &[u8], d: Datapoint) -> Datapoint
    requires { T (takes event value.now d) }
    ensures { result ≡ taken event value.now d }
{
    match event {
        BusEvent::Value => bus_value(d, value),
        BusEvent::Transmission(outcome) => outcome_of(d, outcome.status()),
    }
}

// The same for a value of one byte, which the compiler then stores with no loop.
pub fn after_byte(event: BusEvent, b: u8, d: Datapoint) -> Datapoint
    requires { T (takes event (b ∷ []) d) }
    ensures { result ≡ taken event (b ∷ []) d }
{
    after_event(event, &[b], d)
}
