// What a judged byte is to the link, by value: control bytes, cases, the bits after them.
ghost use Rattle.std.specs.Prelude.{◌≡◌, not};
ghost use Rattle.words.specs.Words.{is_yes, yes_or_no};
ghost use Rattle.ft12.specs.Record.{server_control, host_control};
ghost use Rattle.ft12.specs.Rules.{BitsAfter, case_of_data, case_of};

use ft12::frame::{HOST_EVEN, HOST_ODD, RESET_REQUEST, SERVER_EVEN, SERVER_ODD};
use ft12::receiver::Judgement;
use ft12::rules::{Bits, Heard};

// F3 or D3.
#[tactic(auto, unfolding(ft12::specs::Record::server_control))]
pub fn server_control(odd: bool) -> u8
    ensures { result ≡ server_control odd }
{
    if odd { SERVER_ODD } else { SERVER_EVEN }
}

// 73 or 53. Beside `server_control`: one function of both, with the bytes as parameters, would be no plainer.
#[tactic(auto, unfolding(ft12::specs::Record::host_control))]
fn host_control(odd: bool) -> u8
    ensures { result ≡ host_control odd }
{
    if odd { HOST_ODD } else { HOST_EVEN }
}

#[tactic(auto, unfolding(ft12::specs::Rules::case_of_data))]
fn case_of_data(c: u8, n: u8, expected: bool, free: bool) -> Heard
    ensures { result ≡ case_of_data c n expected free }
{
    if c == host_control(expected) {
        if free {
            Heard::Request(n)
        } else {
            Heard::Ignored // "dropped, unanswered, bit kept"
        }
    } else if c == host_control(!expected) {
        Heard::Repeat
    } else {
        Heard::Ignored
    }
}

// What a judged byte is to the link, by the expected bit and whether nothing is outstanding.
#[tactic(auto, unfolding(ft12::specs::Rules::case_of, ft12::specs::Rules::case_of_acknowledgement, ft12::specs::Rules::case_of_fixed))]
pub fn case_of(j: Judgement, expected: bool, free: bool) -> Heard
    ensures { result ≡ case_of j expected free }
{
    match j {
        Judgement::More => Heard::Gathered,
        Judgement::Damage => Heard::Dropped,
        Judgement::Acknowledgement if free => Heard::Ignored,
        Judgement::Acknowledgement => Heard::Acknowledged,
        Judgement::Fixed(RESET_REQUEST) => Heard::Reset,
        Judgement::Fixed(_) => Heard::Ignored,
        Judgement::Data(c, n) => case_of_data(c, n, expected, free),
    }
}

// The other count bit.
fn flipped(bit: u8) -> u8
    ensures { result ≡ yes_or_no (not (is_yes bit)) }
{
    u8::from(bit != 1)
}

// The bits and the count after it, whatever else the line holds.
#[tactic(auto, unfolding(ft12::specs::Rules::on_heard, ft12::specs::Rules::bits_of, ft12::specs::Rules::gathering, ft12::specs::Rules::start_dropping, ft12::specs::Rules::at_start, ft12::specs::Rules::cleared, ft12::specs::Rules::expecting))]
pub fn bits_after(h: Heard, bits: Bits) -> Bits
    ensures { BitsAfter h bits result }
{
    match h {
        Heard::Gathered | Heard::Dropped | Heard::Ignored | Heard::Repeat => bits,
        Heard::Acknowledged => Bits {
            send: flipped(bits.send),
            resends: 0,
            ..bits
        },
        Heard::Reset => Bits {
            expected: 1,
            send: 1,
            resends: 0,
        },
        Heard::Request(_) => Bits {
            expected: flipped(bits.expected),
            ..bits
        },
    }
}
