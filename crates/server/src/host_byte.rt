// A host byte: what the link makes of it, and the request that it may end.
ghost use Rattle.std.specs.Prelude.{◌≡◌, ◌≤◌, length, T};
ghost use Rattle.words.specs.Words.{put};
ghost use Rattle.ft12.specs.Record.{line_of, in_range};
ghost use Rattle.ft12.specs.Rules.{on_host_byte};
ghost use Rattle.baos.specs.Text.{text_lists};
ghost use Rattle.baos.specs.Table.{tables_of, well_formed};
ghost use Rattle.calls.specs.Reply.{Accepted};
ghost use Rattle.calls.specs.Call.{accepted, on_moved};
ghost use Rattle.calls.specs.Promise.{Leaves, acknowledgement_of};

use baos::datapoint::Datapoint;
use baos::item::Item;
use frames::frame::put_acknowledgement;
use ft12::record::Link;
use ft12::rules::Heard;
use hearing::request::{ANSWER_AT, ANSWER_FRAME_AT, request_message};
use link::events::{clear_request, host_byte, take_message};
use services::service::carry_out;

// The acknowledgement, where one is due; answers how many bytes it has.
fn acknowledge(heard: Heard, out: &mut [u8]) -> usize
    requires { 262 ≤ length out.old }
    ensures { (out.new ≡ put out.old 0 (acknowledgement_of heard))
        × (result ≡ length (acknowledgement_of heard)) }
{
    match heard {
        Heard::Gathered | Heard::Dropped | Heard::Ignored | Heard::Acknowledged => 0,
        Heard::Reset | Heard::Repeat | Heard::Request(_) => {
            put_acknowledgement(out, 0);
            1
        }
    }
}

// A host byte. A request's message is carried out where it stands in the receiver, and its answer is framed in the
// output right after the acknowledgement. Answers how many bytes are to be sent.
pub fn on_host_byte<'a>(
    b: u8,
    datapoints: &mut [Datapoint],
    items: &mut [Item],
    parameters: &mut [u8],
    site: &'a [u8],
    defaults: &'a [u8],
    link: &mut Link,
    out: &mut [u8],
) -> usize
    requires { T (well_formed (tables_of datapoints.old items.old parameters.old
        (text_lists site.now defaults.now))) × T (in_range link.old) × (262 ≤ length out.old) }
    ensures { Leaves (accepted out.old (on_moved (on_host_byte b (line_of link.old))
        (tables_of datapoints.old items.old parameters.old
        (text_lists site.now defaults.now)))) (Accepted result)
        (tables_of datapoints.new items.new parameters.new
        (text_lists site.now defaults.now)) link.new out.new }
{
    let heard = host_byte(link, b);
    let sent = acknowledge(heard, out);
    let Heard::Request(l) = heard else {
        return sent;
    };
    let message = request_message(&link.receiver, l);
    let answered = carry_out(
        datapoints, items, parameters, site, defaults, message, out, ANSWER_AT,
    );
    clear_request(link);
    let framed = take_message(link, out, ANSWER_FRAME_AT, answered - ANSWER_AT);
    framed + ANSWER_FRAME_AT
}
