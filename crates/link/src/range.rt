// The test that the link record is in range.
ghost use Rattle.std.specs.Prelude.{◌≡◌, ◌≤◌, ◌&&◌, length, take, IsTrue};
ghost use Rattle.words.specs.Words.{is_yes, is_padded};
ghost use Rattle.ft12.specs.Record.{two_valued, receiver_ok, outstanding_ok, in_range};

use frames::frame::is_whole;
use ft12::frame::MOST_RESENDS;
use ft12::record::Link;
use hearing::case::server_control;
use judging::receiver::is_beginning;
use words::bytes::are_zero;

// Whether n bytes are used at most, and the others are 0. In line, which saves two calls a call of the server.
#[tactic(auto, unfolding(words::specs::Words::is_padded))]
#[inline(always)]
fn is_padded(bytes: &[u8], n: usize) -> bool
    ensures padded { result ≡ is_padded (length bytes.now) n bytes.now }
    ensures within { IsTrue result → n ≤ length bytes.now }
{
    n <= bytes.len() && are_zero(&bytes[n..])
}

// Whether each two-valued thing is 0 or 1.
#[tactic(auto, unfolding(ft12::specs::Record::two_valued))]
fn is_two_valued(link: &Link) -> bool
    ensures { result ≡ two_valued link.now.dropping link.now.expected link.now.send }
{
    link.dropping <= 1 && link.expected <= 1 && link.send <= 1
}

// Whether the receiver's bytes are a beginning, or none while it drops, and the others 0.
#[tactic(auto, unfolding(ft12::specs::Record::receiver_ok))]
fn is_receiver_ok(link: &Link) -> bool
    ensures { result ≡ (is_padded 260 link.now.received link.now.receiver
        && receiver_ok (is_yes link.now.dropping) (take link.now.received link.now.receiver)) }
{
    let n = link.received as usize;
    if !is_padded(&link.receiver, n) {
        false
    } else if link.dropping == 1 {
        n == 0
    } else {
        is_beginning(&link.receiver[..n])
    }
}

// Whether nothing is outstanding, or a whole frame under the send bit, sent again three times at most, and the other
// bytes are 0.
#[tactic(auto, unfolding(ft12::specs::Record::outstanding_ok))]
fn is_outstanding_ok(link: &Link) -> bool
    ensures { result ≡ (is_padded 261 link.now.held link.now.outstanding
        && outstanding_ok (is_yes link.now.send) link.now.resends (take link.now.held link.now.outstanding)) }
{
    let n = link.held as usize;
    if !is_padded(&link.outstanding, n) {
        false
    } else if n == 0 {
        link.resends == 0
    } else {
        link.resends <= MOST_RESENDS
            && is_whole(&link.outstanding[..n], server_control(link.send == 1))
    }
}

// Whether the link record is in range. Not in line: there it would take registers from the loops over the tables.
#[tactic(auto, unfolding(ft12::specs::Record::in_range, ft12::specs::Record::memory_ok, ft12::specs::Record::line_ok, ft12::specs::Record::line_of))]
#[inline(never)]
pub fn in_range(link: &Link) -> bool
    ensures { result ≡ in_range link.now }
{
    is_receiver_ok(link) && is_outstanding_ok(link) && is_two_valued(link)
}
