// The refusals that do not look at the event.
ghost use Rattle.std.specs.Prelude.{◌≡◌};
ghost use Rattle.ft12.specs.Record.{holds_frame};
ghost use Rattle.baos.specs.Text.{text_lists};
ghost use Rattle.baos.specs.Table.{tables_of};
ghost use Rattle.calls.specs.Reply.{refusal_of};
ghost use Rattle.calls.specs.Promise.{lent_refusal};

use baos::datapoint::Datapoint;
use baos::item::Item;
use calls::refusal::{LEAST_ROOM, Refusal};
use ft12::record::Link;
use link::range::in_range;
use tables::table::tables_ok;

// Whether what is lent is in order: the tables, the link record and the room in the output, in the order of the
// refusals' numbers.
pub fn check_lent<'a>(
    datapoints: &[Datapoint],
    items: &[Item],
    parameters: &[u8],
    site: &'a [u8],
    defaults: &'a [u8],
    link: &Link,
    room: usize,
) -> Result<(), Refusal>
    ensures { refusal_of result ≡ lent_refusal (holds_frame link.now) (tables_of datapoints.now items.now
        parameters.now (text_lists site.now defaults.now)) link.now room }
{
    if !tables_ok(datapoints, items, parameters, site, defaults, link.held) {
        return Err(Refusal::TableNotWellFormed);
    }
    if !in_range(link) {
        return Err(Refusal::LinkNotInRange);
    }
    if room < LEAST_ROOM {
        return Err(Refusal::NoRoom);
    }
    Ok(())
}
