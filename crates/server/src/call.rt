// The server's call: an event in, bytes to send out.
ghost use Rattle.baos.specs.Text.{text_lists};
ghost use Rattle.baos.specs.Table.{tables_of};
ghost use Rattle.calls.specs.Reply.{reply_of};
ghost use Rattle.calls.specs.Call.{call};
ghost use Rattle.calls.specs.Promise.{Leaves};

use crate::host_byte::on_host_byte;
use crate::poll::on_poll;
use baos::bus::BusEvent;
use baos::datapoint::Datapoint;
use baos::item::Item;
use calls::event::Event;
use calls::refusal::Refusal;
use ft12::record::Link;
use link::events::{ack_wait_over, idle_mark};
use refusals::bus::on_bus_event;
use refusals::refusal::check_lent;

// One event. Checks what is lent in every call: the refusals' numbers, the lowest first; then what the event does.
// Answers the refusal, with nothing altered, or how many bytes of the output are to be sent. The value is that of a bus
// value event; other events ignore it. The text lists, the site's own and the default one, are only read.
// What is lent stays five parameters: a struct of them is no plainer, since it owes that each `&mut` in it is still the
// same, and the crates below take them one by one.
pub fn call<'a>(
    event: Event,
    value: &[u8],
    datapoints: &mut [Datapoint],
    items: &mut [Item],
    parameters: &mut [u8],
    site: &'a [u8],
    defaults: &'a [u8],
    link: &mut Link,
    out: &mut [u8],
) -> Result<usize, Refusal>
    ensures { Leaves (call event value.now
        (tables_of datapoints.old items.old parameters.old
        (text_lists site.now defaults.now)) link.old out.old) (reply_of result)
        (tables_of datapoints.new items.new parameters.new
        (text_lists site.now defaults.now)) link.new out.new }
{
    check_lent(
        datapoints,
        items,
        parameters,
        site,
        defaults,
        link,
        out.len(),
    )?;
    match event {
        Event::HostByte(b) => {
            Ok(on_host_byte(b, datapoints, items, parameters, site, defaults, link, out))
        }
        Event::IdleMark => {
            idle_mark(link);
            Ok(0)
        }
        Event::AckWaitOver => Ok(ack_wait_over(link, out)),
        Event::Poll => Ok(on_poll(datapoints, link, out)),
        Event::BusValue(id) => on_bus_event(BusEvent::Value, id, value, datapoints),
        Event::TransmissionOutcome(id, outcome) => {
            on_bus_event(BusEvent::Transmission(outcome), id, value, datapoints)
        }
    }
}
