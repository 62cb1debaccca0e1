// A script is text, in lines. Each has its end, \n, in it. A line is text for the trace; or a small letter and the bytes
// behind it, each a blank and two hexadecimal digits, as the papers have them.
ghost use Rattle.std.specs.Prelude.{◌≡◌, ◌-◌, ◌<◌, ◌≤◌, length, drop, replicate};
ghost use Rattle.script.specs.Line.{digit_of, line_end};

// The bytes stand in the first places, as many as the size says; behind them stands 0. They are an array with a size and
// no ArrayVec, which is never Copy: a line is a plain value.
#[derive(Clone, Copy, Debug)]
pub struct Line {
    pub letter: u8,
    pub bytes: [u8; 264],
    pub size: usize,
    pub ghost fits: { size ≤ 264 },
    pub ghost zero_behind: { drop size bytes ≡ replicate (264 - size) 0 },
}

// The value of a digit, 0 to 9 or A to F.
fn digit(d: u8) -> u8
    ensures { result ≡ digit_of d }
{
    (d % 16 + d / 64 * 9) % 16
}

impl Line {
    ghost use Rattle.std.specs.Prelude.{◌+◌, slice_index, take};
    ghost use Rattle.script.specs.Line.{listed, read_line};
    ghost use Rattle.script.specs.View.{line_of};

    // No letter, and no bytes.
    pub fn empty() -> Line
        ensures { line_of result ≡ record { letter = 0; bytes = replicate 264 0; size = 0 } }
    {
        Line {
            letter: 0,
            bytes: [0; 264],
            size: 0,
        }
    }

    // The line of a text, which is not empty.
    pub fn read(text: &[u8]) -> Line
        requires { 0 < length text.now }
        ensures { line_of result ≡ read_line text.now }
    {
        let size = ((text.len() - 1) / 3).min(264);
        let mut bytes = [0; 264];
        // By place, as the definition `written` goes; `chunks_exact` is no plainer.
        for k in 0..size {
            bytes[k] = digit(text[3 * k + 2]) * 16 + digit(text[3 * k + 3]);
        }
        Line {
            letter: text[0],
            bytes,
            size,
        }
    }

    // The bytes.
    pub fn listed(&self) -> &[u8]
        ensures { result.now ≡ listed (line_of self.now) }
    {
        &self.bytes[..self.size]
    }

    // The byte at a place; 0 behind the last.
    pub fn byte(&self, at: usize) -> u8
        ensures { result ≡ slice_index (line_of self.now).bytes at }
    {
        self.bytes.get(at).copied().unwrap_or(0)
    }

    // The N bytes from a place on, with 0 behind the last.
    pub fn array<const N: usize>(&self, from: usize) -> [u8; N]
        requires { from + N ≤ 264 }
        ensures { result ≡ take N (drop from (line_of self.now).bytes) }
    {
        let mut bytes = [0; N];
        for (k, byte) in bytes.iter_mut().enumerate() {
            *byte = self.byte(from + k);
        }
        bytes
    }
}

// How many bytes the first line has, with its end.
pub fn line_end(s: &[u8]) -> usize
    ensures { result ≡ line_end s.now }
{
    match s.iter().position(|b| *b == b'\n') {
        Some(i) => i + 1,
        None => s.len(),
    }
}
