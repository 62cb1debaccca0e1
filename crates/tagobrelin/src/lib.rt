// What firmware links: the server's call, a reading, a burst and a fresh link record, as four C functions.
// include/tagobrelin.h tells what a caller owes.
#![tactic(auto)]

pub mod exported;
