// A script is played: its lines in turn, and what each of them asks.
ghost use Rattle.std.specs.Prelude.{◌≡◌};
ghost use Rattle.cases.specs.Same.{Decides};
ghost use Rattle.cases.specs.Script.{Played};

use crate::bench::Bench;
use crate::lent::tell;
use crate::print::{shown, wrong};
use crate::run::Stand;
use script::line::{Line, line_end};
use script::print::verdict;

// Whether all that the lines of a script ask holds, with a last line that says so.
pub fn play(script: &[u8]) -> bool
    ensures { Decides result (Played script.now) }
{
    let mut wanted = Bench::empty();
    let mut stand = Stand::new(Bench::empty());
    let mut right = true;
    let mut rest = script;
    while !rest.is_empty() {
        let (text, others) = rest.split_at(line_end(rest));
        let line = Line::read(text);
        tell(&mut wanted, &line);
        stand.act(&wanted, &line);
        shown(&line, text, &stand.bench);
        let holds = stand.holds(&wanted, &line);
        if !holds {
            wrong(&stand.bench);
        }
        right &= holds;
        rest = others;
    }
    verdict(right);
    right
}
