// Bus events: a value, or the outcome of a transmission, for the datapoint of an ID.
ghost use Rattle.std.specs.Prelude.{◌≡◌, true};
ghost use Rattle.baos.specs.Datapoint.{datapoint_id, datapoint_ok};
ghost use Rattle.baos.specs.Table.{table_ok};
ghost use Rattle.calls.specs.Reply.{reply_of};
ghost use Rattle.calls.specs.Promise.{BusEventTaken};

use baos::bus::BusEvent;
use baos::datapoint::Datapoint;
use calls::refusal::Refusal;
use records::bus::{after_byte, after_event, takes_event};
use tables::table::place;

// A bus event about the datapoint of this ID: one look-up, and one record stored. Nothing is sent.
pub fn on_bus_event(
    event: BusEvent,
    id: u16,
    value: &[u8],
    datapoints: &mut [Datapoint],
) -> Result<usize, Refusal>
    requires { table_ok 1000 datapoint_id datapoint_ok datapoints.old ≡ true }
    ensures { BusEventTaken event id value.now datapoints.old (reply_of result) datapoints.new }
{
    let place = place(datapoints, id);
    if datapoints.len() <= place {
        return Err(Refusal::BadBusEvent);
    }
    let d = datapoints[place];
    if !takes_event(event, id, value, d) {
        return Err(Refusal::BadBusEvent);
    }
    // A value of one byte has a way of its own: the compiler then stores only the bytes that change.
    if value.len() == 1 {
        datapoints[place] = after_byte(event, value[0], d);
        return Ok(0);
    }
    datapoints[place] = after_event(event, value, d);
    Ok(0)
}
