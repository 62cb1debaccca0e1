// The trace, on standard output. No contract can say what is written: these functions are proved safe and ending.
use arrayvec::ArrayString;
use std::fmt::{self, Write};

// Standard output, as the C library numbers it.
const STDOUT_FILENO: i32 = 1;

// The bytes of a script, as they stand there.
pub fn text(s: &[u8]) {
    io::write_all(STDOUT_FILENO, s);
}

// Standard output. What can't be written is left out.
#[derive(Drop)]
struct Output;

impl fmt::Write for Output {
    fn write_str(&mut self, s: &str) -> fmt::Result {
        text(s.as_bytes());
        Ok(())
    }
}

// Bytes in hexadecimal, 24 in a line.
#[derive(Drop)]
struct Hex<'a>(&'a [u8]);

impl fmt::Display for Hex<'_> {
    fn fmt<W: fmt::Write>(&self, f: &mut fmt::Formatter<W>) -> fmt::Result {
        for (i, byte) in self.0.iter().enumerate() {
            let gap = match i {
                0 => "",
                _ if i % 24 == 0 => "\n            ",
                _ => " ",
            };
            // Both digits in one write: a write that fails leaves no half of a byte.
            let mut digits = ArrayString::<2>::new();
            write!(digits, "{byte:02X}")?;
            write!(f, "{gap}{digits}")?;
        }
        Ok(())
    }
}

// Bytes, and the end of their last line.
fn bytes(s: &[u8]) {
    let _ = write!(Output, "{}\n", Hex(s));
}

// What is sent at once: nothing, a frame, or an acknowledgement and perhaps a frame behind it.
pub fn frames(label: &[u8], sent: &[u8]) {
    text(label);
    match sent {
        [] => text(b"nothing\n"),
        [0xE5, frame @ ..] => {
            text(b"E5\n            acknowledgement\n");
            if !frame.is_empty() {
                text(label);
                bytes(frame);
            }
        }
        _ => bytes(sent),
    }
}

// How many cases there are, and how many of them went as the papers say.
pub fn counted(count: u8, right: u8) {
    let _ = write!(Output, "{count} cases, {right} as the paper says\n");
}

// The last words of a case.
pub fn verdict(right: bool) {
    let words = if right {
        "   as the paper says"
    } else {
        "   NOT as the paper says"
    };
    text(words.as_bytes());
}
