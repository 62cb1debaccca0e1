// Whether tables, and link records, are the same.
ghost use Rattle.cases.specs.Same.{Decides, SameTables, LinkIs};
ghost use Rattle.cases.specs.View.{bench_of};

use crate::bench::Bench;
use ft12::record::Link;

// Whether the tables of two benches are the same: the counts, and every record.
pub fn same_tables(a: &Bench, b: &Bench) -> bool
    ensures { Decides result (SameTables (bench_of a.now) (bench_of b.now)) }
{
    (a.parameters == b.parameters) & (a.items == b.items) & (a.datapoints == b.datapoints)
}

// Whether a link record has these bits, drops or not, and has the bytes behind them outstanding.
pub fn is_link(link: &Link, asked: &[u8]) -> bool
    ensures { Decides result (LinkIs link.now asked.now) }
{
    let [expected, send, dropping, outstanding @ ..] = asked else {
        return false;
    };
    ((link.expected, link.send, link.dropping) == (*expected, *send, *dropping))
        & (link.outstanding.get(..usize::from(link.held)) == Some(outstanding))
}
