// A poll: the indication, if one is due.
ghost use Rattle.std.specs.Prelude.{◌≡◌, true, ◌≤◌, length, T};
ghost use Rattle.ft12.specs.Record.{line_of, in_range};
ghost use Rattle.baos.specs.Datapoint.{datapoint_id, datapoint_ok};
ghost use Rattle.baos.specs.Table.{datapoints_only, table_ok};
ghost use Rattle.calls.specs.Reply.{Accepted};
ghost use Rattle.calls.specs.Call.{accepted, on_poll};
ghost use Rattle.calls.specs.Promise.{Leaves};

use baos::datapoint::Datapoint;
use ft12::record::Link;
use hearing::request::{INDICATION_AT, INDICATION_FRAME_AT};
use indications::indication::indicate;
use link::events::take_message;

// A poll. With nothing outstanding, the indication is built in the output behind the room for its frame's head, and
// framed there. Answers how many bytes are to be sent.
pub fn on_poll(datapoints: &mut [Datapoint], link: &mut Link, out: &mut [u8]) -> usize
    requires { (table_ok 1000 datapoint_id datapoint_ok datapoints.old ≡ true) × T (in_range link.old)
        × (262 ≤ length out.old) }
    ensures { Leaves (accepted out.old (on_poll
        (datapoints_only datapoints.old) (line_of link.old))) (Accepted result)
        (datapoints_only datapoints.new) link.new out.new }
{
    if link.held != 0 {
        return 0;
    }
    let end = indicate(datapoints, out, INDICATION_AT);
    take_message(link, out, INDICATION_FRAME_AT, end - INDICATION_AT)
}
