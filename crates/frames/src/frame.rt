// The frames of FT1.2: the checksum, frames built into a lent buffer, and the test for a whole data frame.
ghost use Rattle.std.specs.Prelude.{◌≡◌, ◌+◌, ◌-◌, ◌≤◌, [], ◌∷◌, length, take, drop};
ghost use Rattle.words.specs.Words.{put, same};
ghost use Rattle.ft12.specs.Frame.{acknowledgement, fixed_frame, checksum, data_frame, is_whole};

use ft12::frame::{
    ACKNOWLEDGEMENT, AROUND_MESSAGE, BEFORE_MESSAGE, DATA_START, FIXED_START, FRAME_END,
    LONGEST_FRAME,
};
use words::bytes::put_bytes;

// The sum of the bytes, the carry beyond eight bits dropped. By a loop: a `fold` takes more instructions behind the
// vectors.
#[tactic(auto, using(crate::proofs::BuildLaws::sums))]
pub fn checksum(s: &[u8]) -> u8
    ensures { result ≡ checksum s.now }
{
    let mut sum: u8 = 0;
    for byte in s {
        sum = sum.wrapping_add(*byte);
    }
    sum
}

// E5 into the buffer at `at`.
pub fn put_acknowledgement(out: &mut [u8], at: usize)
    requires { at + 1 ≤ length out.old }
    ensures { out.new ≡ put out.old at acknowledgement }
{
    out[at] = ACKNOWLEDGEMENT;
}

// 10 C C 16 into the buffer at `at`.
pub fn put_fixed_frame(out: &mut [u8], at: usize, c: u8)
    requires { at + 4 ≤ length out.old }
    ensures { out.new ≡ put out.old at (fixed_frame c) }
{
    put_bytes(out, at, &[FIXED_START, c, c, FRAME_END]);
}

// Frames the message of n bytes that stands in the buffer from at + 5 on, where it stands: 68 L L 68 and the control
// byte in front of it, checksum and 16 behind it.
pub fn frame_in_place(out: &mut [u8], at: usize, n: usize, control: u8)
    requires { (n ≤ 254) × (at + n + 7 ≤ length out.old) }
    ensures { out.new
        ≡ put out.old at (data_frame control (take n (drop (at + 5) out.old))) }
{
    let count = (n + 1) as u8;
    let end = at + BEFORE_MESSAGE + n;
    put_bytes(out, at, &[DATA_START, count, count, DATA_START, control]);
    let sum = checksum(&out[at + 4..end]);
    put_bytes(out, end, &[sum, FRAME_END]);
}

// Whether f begins as a data frame of its length with this control byte does: 68 L L 68 C.
fn is_headed(f: &[u8], c: u8) -> bool
    requires { 7 ≤ length f.now }
    ensures { result ≡ same (take 5 f.now)
        (0x68 ∷ (length f.now - 6) ∷ (length f.now - 6) ∷ 0x68 ∷ c ∷ []) }
{
    let count = f.len() - 6;
    f[0] == DATA_START
        && f[1] as usize == count
        && f[2] as usize == count
        && f[3] == DATA_START
        && f[4] == c
}

// Whether f is a whole data frame with this control byte.
pub fn is_whole(f: &[u8], c: u8) -> bool
    ensures { result ≡ is_whole c f.now }
{
    let n = f.len();
    AROUND_MESSAGE <= n
        && n <= LONGEST_FRAME
        && is_headed(f, c)
        && f[n - 2] == checksum(&f[4..n - 2])
        && f[n - 1] == FRAME_END
}
