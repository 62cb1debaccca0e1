// Whether a record may stand behind another in its table: a higher ID, and no unused bit set, tested eight bytes at a
// time.
#![tactic(auto)]

pub mod datapoint;
pub mod item;
pub mod mask;
pub mod record;
