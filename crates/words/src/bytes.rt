// Bytes tested, made 0 and copied, by the words that all definitions share.
ghost use Rattle.std.specs.Prelude.{◌≡◌, ◌++◌, ◌+◌, ◌≤◌, length, drop, replicate};
ghost use Rattle.words.specs.Words.{are_zero, put};

// Whether a run of bytes is 0. No early exit, so that it is compiled to wide loads.
fn run_is_zero(run: &[u8]) -> bool
    ensures { result ≡ are_zero run.now }
{
    run.iter().fold(0, |any, byte| any | byte) == 0
}

// Whether every byte is 0: 32 at a time, the last 32 anew.
pub fn are_zero(s: &[u8]) -> bool
    ensures { result ≡ are_zero s.now }
{
    let n = s.len();
    if n < 32 {
        return run_is_zero(s);
    }
    for run in s.chunks_exact(32) {
        if !run_is_zero(run) {
            return false;
        }
    }
    run_is_zero(&s[n - 32..])
}

// Makes the first n bytes 0. By a loop: `fill` stores the last byte by itself.
pub fn blank(s: &mut [u8], n: usize)
    requires { n ≤ length s.old }
    ensures { s.new ≡ replicate n 0 ++ drop n s.old }
{
    for byte in &mut s[..n] {
        *byte = 0;
    }
}

// Writes the bytes s into the buffer, from `at` on. By a loop: `copy_from_slice` tests first whether they overlap.
pub fn put_bytes(out: &mut [u8], at: usize, s: &[u8])
    requires { at + length s.now ≤ length out.old }
    ensures { out.new ≡ put out.old at s.now }
{
    for (i, byte) in s.iter().enumerate() {
        out[at + i] = *byte;
    }
}
