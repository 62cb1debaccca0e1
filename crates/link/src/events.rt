// The events on the link record, lent by the serial loop and changed there. That it is in range is asked of each call,
// and is no ghost field of `Link`: the C interface lends any record, and `in_range` tests it.
ghost use Rattle.std.specs.Prelude.{◌≡◌, ◌++◌, ◌+◌, ◌≤◌, length, take, drop, replicate, T};
ghost use Rattle.words.specs.Words.{put};
ghost use Rattle.ft12.specs.Record.{line_of, link_of, in_range};
ghost use Rattle.ft12.specs.Rules.{at_start, on_idle_mark};
ghost use Rattle.ft12.specs.Promise.{HostByteHeard, AckWaited, MessageTaken};

use frames::frame::{frame_in_place, put_fixed_frame};
use ft12::frame::{AROUND_MESSAGE, LONGEST_MESSAGE, MOST_RESENDS, SERVER_RESET};
use ft12::record::Link;
use ft12::rules::{Bits, Heard};
use hearing::case::{bits_after, case_of, server_control};
use judging::receiver::judge_at;
use words::bytes::{blank, put_bytes};

// Makes the used bytes 0, and their count.
fn empty(bytes: &mut [u8], count: &mut u16)
    requires { count.old ≤ length bytes.old }
    ensures zeros { bytes.new ≡ replicate count.old 0 ++ drop count.old bytes.old }
    ensures none { count.new ≡ 0 }
{
    blank(bytes, *count as usize);
    *count = 0;
}

// A host byte. A byte that is gathered is stored in place, and nothing else is touched. Where it ends a request, its
// message stands among the receiver's bytes, where `request_message` finds it, until `clear_request`.
#[tactic(auto, using(crate::proofs::EventSteps::received_within, crate::proofs::EventSteps::held_within, crate::proofs::EventSteps::begins))]
pub fn host_byte(link: &mut Link, b: u8) -> Heard
    requires { T (in_range link.old) }
    ensures { HostByteHeard link.old b result link.new }
{
    if link.dropping == 1 {
        return Heard::Dropped;
    }
    let n = link.received as usize;
    let heard = case_of(
        judge_at(&link.receiver, n, b),
        link.expected == 1,
        link.held == 0,
    );
    let bits = bits_after(
        heard,
        Bits {
            expected: link.expected,
            send: link.send,
            resends: link.resends,
        },
    );
    link.expected = bits.expected;
    link.send = bits.send;
    link.resends = bits.resends;
    match heard {
        Heard::Gathered => {
            link.receiver[n] = b;
            link.received = (n + 1) as u16;
        }
        Heard::Dropped => {
            empty(&mut link.receiver, &mut link.received);
            link.dropping = 1;
        }
        Heard::Ignored | Heard::Repeat => empty(&mut link.receiver, &mut link.received),
        Heard::Acknowledged | Heard::Reset => {
            empty(&mut link.receiver, &mut link.received);
            empty(&mut link.outstanding, &mut link.held);
        }
        Heard::Request(_) => {}
    }
    heard
}

// An idle mark: the receiver is at a frame start.
#[tactic(auto, using(crate::proofs::EventSteps::received_within))]
pub fn idle_mark(link: &mut Link)
    requires { T (in_range link.old) }
    ensures { link.new ≡ link_of (on_idle_mark (line_of link.old)).line }
{
    empty(&mut link.receiver, &mut link.received);
    link.dropping = 0;
}

// A request was carried out: an idle mark's work takes its bytes from the receiver.
#[tactic(auto, unfolding(ft12::specs::Rules::on_idle_mark))]
pub fn clear_request(link: &mut Link)
    requires { T (in_range link.old) }
    ensures { link.new ≡ link_of (at_start (line_of link.old)) }
{
    idle_mark(link)
}

// Ack wait over: the outstanding frame's own bytes are sent again, three times at most. Answers how many bytes of the
// buffer are to be sent.
#[tactic(auto, using(ft12::proofs::PlaceLaws::held_fits, crate::proofs::EventSteps::held_within))]
pub fn ack_wait_over(link: &mut Link, out: &mut [u8]) -> usize
    requires { T (in_range link.old) × (262 ≤ length out.old) }
    ensures { AckWaited link.old out.old result out.new link.new }
{
    let n = link.held as usize;
    if n == 0 {
        0
    } else if link.resends < MOST_RESENDS {
        put_bytes(out, 0, &link.outstanding[..n]);
        link.resends += 1;
        n
    } else {
        put_fixed_frame(out, 0, SERVER_RESET);
        empty(&mut link.outstanding, &mut link.held);
        link.send = 1;
        link.resends = 0;
        4
    }
}

// A message is taken back: its n bytes stand in the buffer from at + 5 on, and are framed where they stand; the frame
// is held as outstanding. Nothing, above 254 bytes or while something is outstanding: nothing is sent. Answers how many
// bytes from `at` on are to be sent.
pub fn take_message(link: &mut Link, out: &mut [u8], at: usize, n: usize) -> usize
    requires { T (in_range link.old) × (at ≤ 1) × (262 ≤ length out.old) }
    ensures { MessageTaken (take n
        (drop (at + 5) out.old)) link.old out.old at result
        out.new link.new }
{
    if n == 0 || LONGEST_MESSAGE < n || link.held != 0 {
        return 0;
    }
    let control = server_control(link.send == 1);
    frame_in_place(out, at, n, control);
    let size = n + AROUND_MESSAGE;
    put_bytes(&mut link.outstanding, 0, &out[at..at + size]);
    link.held = size as u16;
    link.resends = 0;
    size
}
