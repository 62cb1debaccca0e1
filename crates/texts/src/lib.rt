// Text lists, and the text that an ID has in them.
#![tactic(auto)]

pub mod text;
pub mod text_list;
