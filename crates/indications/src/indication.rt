// DatapointValue.Ind: marked datapoints in rising ID, while they fit.
ghost use Rattle.std.specs.Prelude.{◌≡◌, true, not, ◌+◌, ◌-◌, ◌≤◌, length, leb};
ghost use Rattle.baos.specs.Datapoint.{datapoint_id, datapoint_ok};
ghost use Rattle.baos.specs.Table.{datapoints_only, table_ok};
ghost use Rattle.baos.specs.Inner.Gather.{first_marked};
ghost use Rattle.baos.specs.Inner.Promise.{Answered, MarkedTold};
ghost use Rattle.baos.specs.Indication.{needs, indication};

use baos::datapoint::Datapoint;
use baos::inner::Told;
use baos::service::{MESSAGE_HEAD, ROOM_FOR_ENTRIES};
use entries::entry::put_value;
use messages::message::put_indication_head;
use records::datapoint::reported;
use values::value::size_by_rule;

// Whether a marked datapoint has to wait: its entry does not fit between `end` and `most`.
fn waits(d: Datapoint, end: usize, most: usize) -> bool
    requires { (d.typecode ≤ 14) × (end ≤ most) }
    ensures { result ≡ not (leb (needs d) (most - end)) }
{
    let room = most - end;
    // One byte, as most values have. put_value makes the same test: it costs no jump more.
    if d.typecode < 8 {
        room < 5
    } else {
        room < 4 + size_by_rule(d.typecode)
    }
}

// Where the first marked datapoint stands; the table's length where there is none. Four records a turn, and so no `for`:
// most polls find nothing, and one loop's jump and count serve four.
fn first_marked(table: &[Datapoint]) -> usize
    ensures { result ≡ first_marked table.now }
{
    let n = table.len();
    let mut i: usize = 0;
    while n - i > 3 {
        if table[i].mark == 1 {
            return i;
        }
        if table[i + 1].mark == 1 {
            return i + 1;
        }
        if table[i + 2].mark == 1 {
            return i + 2;
        }
        if table[i + 3].mark == 1 {
            return i + 3;
        }
        i += 4;
    }
    for j in i..n {
        if table[j].mark == 1 {
            return j;
        }
    }
    n
}

// The entries of the marked datapoints, into the buffer at `at`, until the next one does not fit; each record that is
// carried is left without its mark and bit 3. One pass: what does not fit ends it, and nothing has to be taken back.
// A record is stored before its entry is built, so that only what is changed is stored.
fn tell_marked(table: &mut [Datapoint], out: &mut [u8], at: usize) -> Told
    requires { (table_ok 1000 datapoint_id datapoint_ok table.old ≡ true) × (at + 248 ≤ length out.old) }
    ensures { MarkedTold table.old out.old at result out.new table.new }
{
    let most = at + ROOM_FOR_ENTRIES;
    let mut end = at;
    let mut count: u16 = 0;
    for i in first_marked(table)..table.len() {
        if table[i].mark == 1 {
            let d = table[i];
            if waits(d, end, most) {
                break;
            }
            table[i] = reported(d);
            end = put_value(out, end, d);
            count += 1;
        }
    }
    Told { count, end }
}

// One indication, into the buffer at `at`; answers where it ends. Where nothing is marked nothing is said.
pub fn indicate(table: &mut [Datapoint], out: &mut [u8], at: usize) -> usize
    requires { (table_ok 1000 datapoint_id datapoint_ok table.old ≡ true) × (at + 254 ≤ length out.old) }
    ensures { Answered (indication (datapoints_only table.old)).after.datapoints
        out.old at (indication (datapoints_only table.old)).says result
        out.new table.new }
{
    let told = tell_marked(table, out, at + MESSAGE_HEAD);
    if told.count == 0 {
        return at;
    }
    put_indication_head(out, at, told.count);
    told.end
}
