// The frame in front: how many bytes the sound frame has that stands here, if one does.
ghost use Rattle.std.specs.Prelude.{◌≡◌, ◌+◌, ◌≤◌, ◌<◌, length, ◌≢◌, slice_index, MatchOption};
ghost use Rattle.ft12.specs.Frame.{is_whole};
ghost use Rattle.ft12.specs.Burst.{first_size};
ghost use Rattle.bursts.specs.Word.{four_bytes};

use crate::sum::sum;
use ft12::frame::{AROUND_MESSAGE, FRAME_END};

// The first four bytes as one number.
fn first_word(s: &[u8]) -> u32
    requires { 4 ≤ length s.now }
    ensures { result ≡ four_bytes (slice_index s.now 0) (slice_index s.now 1)
        (slice_index s.now 2) (slice_index s.now 3) }
{
    u32::from_le_bytes([s[0], s[1], s[2], s[3]])
}

// 68 L L 68 likewise.
fn data_word(count: u8) -> u32
    ensures { result ≡ four_bytes 0x68 count count 0x68 }
{
    0x68000068 + count as u32 * 0x10100
}

// 10 C C 16 likewise.
fn fixed_word(c: u8) -> u32
    ensures { result ≡ four_bytes 0x10 c c 0x16 }
{
    0x16000010 + c as u32 * 0x10100
}

// Whether f, of as many bytes as its L says, is a whole data frame: its head is compared at once, and one pass makes the
// checksum.
fn is_whole(f: &[u8]) -> bool
    requires { length f.now ≡ slice_index f.now 1 + 6 }
    ensures { result ≡ is_whole (slice_index f.now 4) f.now }
{
    let n = f.len();
    AROUND_MESSAGE <= n
        && first_word(f) == data_word(f[1])
        && f[n - 2] == sum(&f[4..n - 2])
        && f[n - 1] == FRAME_END
}

// A data frame. One look at L tells where it ends.
#[tactic(auto, using(crate::proofs::PieceLaws::sizes))]
pub fn data_size(s: &[u8]) -> Option<usize>
    requires { slice_index s.now 0 ≡ 0x68 }
    ensures { MatchOption result (first_size s.now ≡ 0)
        (λ size. (size ≡ first_size s.now) × (0 < size)) }
{
    let n = s.len();
    if n < AROUND_MESSAGE {
        return None;
    }
    let size = s[1] as usize + 6;
    if size <= n && is_whole(&s[..size]) {
        Some(size)
    } else {
        None
    }
}

// A fixed frame, compared at once; C is read first, so that the word is compared where it stands. What begins with
// neither 68 nor E5 is one, or none.
#[tactic(auto, using(crate::proofs::PieceLaws::sizes))]
pub fn fixed_size(s: &[u8]) -> Option<usize>
    requires { (slice_index s.now 0 ≢ 0x68) × (slice_index s.now 0 ≢ 0xE5) }
    ensures { MatchOption result (first_size s.now ≡ 0)
        (λ size. (size ≡ first_size s.now) × (0 < size)) }
{
    if 4 <= s.len() && fixed_word(s[1]) == first_word(s) {
        Some(4)
    } else {
        None
    }
}
