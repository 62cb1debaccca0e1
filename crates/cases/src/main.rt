// The program of the cases: scripts from standard input, each run through the server's call, byte by byte, and written
// out as a line trace; what the server sends and what its tables and its link then hold is compared with what the script
// says. The file stdin beside src has the examples of document 01, section "Examples", the worked exchange of document
// 000, section 4.1, and worked cases of document 02.
#![tactic(auto)]

mod bench;
mod burst;
mod kind;
mod lent;
mod play;
mod print;
mod read;
mod run;
mod same;

use crate::play::play;
use script::print::{counted, text};

// Plays the scripts, up to a tilde each, and says how many of them went as the papers say.
fn cases(input: &[u8]) {
    let mut count = 0u8;
    let mut right = 0u8;
    let mut rest = input;
    while let Some(end) = rest.iter().position(|b| *b == b'~') {
        right = right.wrapping_add(u8::from(play(&rest[..end])));
        count = count.wrapping_add(1);
        rest = &rest[end + 1..];
    }
    text(rest);
    counted(count, right);
}

// Standard input, as the C library numbers it.
const STDIN_FILENO: i32 = 0;

// What stands behind so many bytes of the input is not played.
const MOST_INPUT: usize = 131_072;

fn main() {
    let mut input = [0; MOST_INPUT];
    let size = io::read_full(STDIN_FILENO, &mut input);
    cases(&input[..size]);
}
