// One call as definitions: the six events, the refusals, what is answered and left, and the same by numbers. The code
// is in `server` and `tagobrelin`, with `refusals` and `numbers`.
#![tactic(auto)]

pub mod event;
pub mod refusal;
