// What the trace shows of a server. No contract can say what is written.
use crate::bench::Bench;
use crate::kind::Kind;
use script::line::Line;
use script::print::{frames, text};

// What the last call sends; nothing where it was refused.
fn sent(bench: &Bench) {
    if let Some(bytes) = bench.sent() {
        frames(b"   server : ", bytes);
    }
}

// What a line shows: its text, what the host sends, or what the server sent.
pub fn shown(line: &Line, s: &[u8], bench: &Bench) {
    match Kind::of(line.letter) {
        Kind::Text => text(s),
        Kind::Host => frames(b"   host   : ", line.listed()),
        Kind::Reply => sent(bench),
        _ => {}
    }
}

// What is shown where something asked does not hold: what the server sent.
pub fn wrong(bench: &Bench) {
    text(b"            NOT what the paper says\n");
    sent(bench);
}
