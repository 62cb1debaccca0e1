// The byte-wise receiver: what a byte is after those gathered before it, and the test for a beginning of a frame.
ghost use Rattle.std.specs.Prelude.{◌≡◌, ◌∷◌, ◌<◌, ◌≤◌, length, take, T};
ghost use Rattle.ft12.specs.Receiver.{only, judged_first, judged_fixed, judged_data, judged, is_beginning};

use frames::frame::checksum;
use ft12::frame::{ACKNOWLEDGEMENT, DATA_START, FIXED_START, FRAME_END};
use ft12::receiver::Judgement;

// Only this byte may stand here.
fn only(wanted: u8, b: u8) -> Judgement
    ensures { result ≡ only wanted b }
{
    if b == wanted {
        Judgement::More
    } else {
        Judgement::Damage
    }
}

#[tactic(auto, unfolding(ft12::specs::Receiver::judged_first))]
fn judge_first(b: u8) -> Judgement
    ensures { result ≡ judged_first b }
{
    match b {
        ACKNOWLEDGEMENT => Judgement::Acknowledgement,
        FIXED_START | DATA_START => Judgement::More,
        _ => Judgement::Damage,
    }
}

// After 10 and the gathered bytes g: C, the same C, 16.
#[tactic(auto, unfolding(ft12::specs::Receiver::judged_fixed))]
fn judge_fixed(g: &[u8], b: u8) -> Judgement
    ensures { result ≡ judged_fixed (0x10 ∷ g.now) b }
{
    match g {
        [] => Judgement::More,
        [c] => only(*c, b),
        [c, ..] if b == FRAME_END => Judgement::Fixed(*c),
        _ => Judgement::Damage,
    }
}

// After 68 and the gathered bytes g: L from 1 to 255, the same L, 68, L bytes of control and data, their checksum, 16.
// Only the checksum's place costs more than a constant amount of work.
#[tactic(auto, unfolding(ft12::specs::Receiver::judged_data))]
fn judge_data(g: &[u8], b: u8) -> Judgement
    ensures { result ≡ judged_data (0x68 ∷ g.now) b }
{
    match g {
        [] if b == 0 => Judgement::Damage,
        [] => Judgement::More,
        [count] => only(*count, b),
        [_, _] => only(DATA_START, b),
        [count, _, _, counted @ ..] => {
            let end = *count as usize;
            if counted.len() < end {
                Judgement::More
            } else if counted.len() == end {
                only(checksum(counted), b)
            } else if b == FRAME_END {
                Judgement::Data(counted[0], *count)
            } else {
                Judgement::Damage
            }
        }
    }
}

// What the byte b is after the gathered bytes g.
#[tactic(auto, unfolding(ft12::specs::Receiver::judged))]
fn judge(g: &[u8], b: u8) -> Judgement
    ensures { result ≡ judged g.now b }
{
    match g {
        [] => judge_first(b),
        [FIXED_START, rest @ ..] => judge_fixed(rest, b),
        [_, rest @ ..] => judge_data(rest, b),
    }
}

// The same, of the first n bytes. A byte more is wanted of fewer than 260 only.
pub fn judge_at(receiver: &[u8], n: usize, b: u8) -> Judgement
    requires { (n ≤ length receiver.now) × T (is_beginning (take n receiver.now)) }
    ensures { (result ≡ judged (take n receiver.now) b) × (result ≡ Judgement.More → n < 260) }
{
    judge(&receiver[..n], b)
}

// After 68 L L 68: at most L bytes of control and data, or L bytes and their checksum.
#[tactic(auto, using(ft12::proofs::BeginningLaws::beginnings))]
fn is_counted_beginning(count: u8, counted: &[u8]) -> bool
    requires { 0 < count }
    ensures { result ≡ is_beginning (0x68 ∷ count ∷ count ∷ 0x68 ∷ counted.now) }
{
    let n = counted.len();
    let end = count as usize;
    n <= end || n == end + 1 && counted[end] == checksum(&counted[..end])
}

// Whether g is a beginning, not the whole, of some sound frame.
#[tactic(auto, using(ft12::proofs::BeginningLaws::beginnings))]
pub fn is_beginning(g: &[u8]) -> bool
    ensures { result ≡ is_beginning g.now }
{
    match g {
        [] | [FIXED_START] | [FIXED_START, _] | [DATA_START] => true,
        [FIXED_START, c, again] => again == c,
        [DATA_START, count] => *count != 0,
        [DATA_START, count, again] => *count != 0 && again == count,
        [DATA_START, count, again, DATA_START, counted @ ..] => {
            *count != 0 && again == count && is_counted_beginning(*count, counted)
        }
        _ => false,
    }
}
