// The tables: runs of records with rising IDs, lent by their owner.
ghost use Rattle.std.specs.Prelude.{◌≡◌, true, not, map, ◌<◌, ◌≤◌, length, eqb};
ghost use Rattle.baos.specs.Text.{text_lists};
ghost use Rattle.baos.specs.Table.{tables_of, table_ok, tables_ok, place, rising};

use baos::datapoint::Datapoint;
use baos::item::Item;
use baos::table::{MOST_DATAPOINTS, MOST_ITEMS, MOST_PARAMETERS};
use masks::record::{Record, four_fit_after};
use texts::text_list::text_lists_ok;

// Whether the table is well formed, in one pass: four records a turn, the last ones one by one. Each caller gets a copy,
// which calls nothing (docs/SPEED.md).
#[inline(always)]
pub fn is_well_formed<R: Record>(table: &[R], most: usize) -> bool
    ensures { result ≡ table_ok most R.id_of R.ok table.now }
{
    if table.len() > most {
        return false;
    }
    let mut rest = table;
    let mut last = 0;
    while let [a, b, c, d, behind @ ..] = rest {
        if !four_fit_after(a, b, c, d, last) {
            return false;
        }
        last = d.id();
        rest = behind;
    }
    for record in rest {
        if !record.fits_after(last) {
            return false;
        }
        last = record.id();
    }
    true
}

// Whether refusal 1 is not given: each table is well formed, and so are both text lists. How many bytes are
// outstanding, 0 where nothing is, is told beside them; no record names a frame.
#[tactic(auto, unfolding(baos::specs::Table::well_formed))]
pub fn tables_ok<'a>(
    datapoints: &[Datapoint],
    items: &[Item],
    parameters: &[u8],
    site: &'a [u8],
    defaults: &'a [u8],
    held: u16,
) -> bool
    ensures { result ≡ tables_ok (not (eqb held 0)) (tables_of datapoints.now items.now
        parameters.now (text_lists site.now defaults.now)) }
{
    is_well_formed(datapoints, MOST_DATAPOINTS)
        && is_well_formed(items, MOST_ITEMS)
        && parameters.len() <= MOST_PARAMETERS
        && text_lists_ok(site, defaults)
}

// Where the search for `place` ends in a table that is not empty. `rest` begins at the lowest place that it may still
// have. The first look is `width` from the end, the greatest power of two that is not above the table's size, so that
// width - 1 records are left whichever side it is on; each look after it halves them. Jumps ask for the table's size
// alone: the loop is unrolled, `begun` is known in each copy, and what an ID decides is where `rest` begins, by a
// conditional move.
#[inline(never)]
fn search<R: Record>(table: &[R], id: u16) -> usize
    requires some { 0 < length table.now }
    requires few { length table.now ≤ 1000 }
    requires rising { rising 0 (map R.id_of table.now) ≡ true }
    ensures { result ≡ place R.id_of id table.now }
{
    let n = table.len();
    let mut rest = table;
    let mut begun = false;
    for power in (0u32..10).rev() {
        let width = 1 << power;
        if begun {
            if rest[width - 1].id() < id {
                rest = &rest[width..];
            }
        } else if width <= n {
            let first = n - width;
            if rest[first].id() < id {
                rest = &rest[first + 1..];
            }
            begun = true;
        }
    }
    n - rest.len()
}

// How many records have a lower ID: where the record of this ID stands if there is one. An empty table is no call.
#[inline(always)]
#[tactic(auto, using(crate::proofs::SearchLaws::none_lower))]
pub fn place<R: Record>(table: &[R], id: u16) -> usize
    requires few { length table.now ≤ 1000 }
    requires rising { rising 0 (map R.id_of table.now) ≡ true }
    ensures { result ≡ place R.id_of id table.now }
{
    if table.is_empty() {
        return 0;
    }
    search(table, id)
}
