// What firmware links.
ghost use Rattle.std.specs.Prelude.{◌≡◌};
ghost use Rattle.ft12.specs.Record.{link_of};
ghost use Rattle.ft12.specs.Burst.{read_burst, BurstGives};
ghost use Rattle.baos.specs.Text.{text_lists};
ghost use Rattle.baos.specs.Table.{tables_of};
ghost use Rattle.calls.specs.Exported.{called_by, Gives, fresh_line};
ghost use Rattle.dpt.specs.Reading.{reading_for};
ghost use Rattle.dpt.specs.Numbers.{reading_reply_numbers};

use baos::datapoint::Datapoint;
use baos::item::Item;
use bursts::burst::read_burst;
use calls::refusal::Refusal;
use dpt::reading::{ReadingNumbers, ReadingRefusal};
use ft12::burst::{BurstNumbers, BurstRefusal};
use ft12::record::Link;
use numbers::burst::burst_numbers;
use numbers::numbers::{event_named, reply_number};
use readings::numbers::reply_numbers;
use readings::reading::reading;
use server::call::call;

// The answer where the numbers name no event.
const NO_EVENT: i32 = -100;

// One event, by numbers. Answers how many bytes of the output are to be sent, or a number below 0, with nothing
// altered.
#[unsafe(no_mangle)]
pub extern "C" fn tagobrelin_call<'a>(
    event: u8,
    byte: u8,
    id: u16,
    outcome: u8,
    value: &[u8],
    datapoints: &mut [Datapoint],
    items: &mut [Item],
    parameters: &mut [u8],
    site: &'a [u8],
    defaults: &'a [u8],
    link: &mut Link,
    out: &mut [u8],
) -> i32
    ensures { Gives (called_by event byte id outcome value.now
        (tables_of datapoints.old items.old parameters.old
        (text_lists site.now defaults.now)) link.old out.old) result
        (tables_of datapoints.new items.new parameters.new
        (text_lists site.now defaults.now)) link.new out.new }
{
    let Some(event) = event_named(event, byte, id, outcome) else {
        return NO_EVENT;
    };
    let reply = call(
        event, value, datapoints, items, parameters, site, defaults, link, out,
    );
    reply_number(reply.map_err(Refusal::number))
}

// The reading of the datapoint of an ID, by numbers. The table is only read.
#[unsafe(no_mangle)]
pub extern "C" fn tagobrelin_read(id: u16, datapoints: &[Datapoint]) -> ReadingNumbers
    ensures { result ≡ reading_reply_numbers (reading_for id datapoints.now) }
{
    reply_numbers(reading(id, datapoints).map_err(ReadingRefusal::number))
}

// What a burst holds, by numbers: where each frame and each acknowledgement starts goes into the run.
#[unsafe(no_mangle)]
pub extern "C" fn tagobrelin_read_burst(burst: &[u8], starts: &mut [u16]) -> BurstNumbers
    ensures { BurstGives (read_burst burst.now starts.old) result starts.new }
{
    burst_numbers(read_burst(burst, starts).map_err(BurstRefusal::number))
}

// A link record for the first call: the one that a reset leaves.
#[unsafe(no_mangle)]
pub extern "C" fn tagobrelin_fresh_link(link: &mut Link)
    ensures { link.new ≡ link_of fresh_line }
{
    *link = Link {
        receiver: [0; 260],
        received: 0,
        dropping: 0,
        expected: 1,
        send: 1,
        outstanding: [0; 261],
        held: 0,
        resends: 0,
    };
}
