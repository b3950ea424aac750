//! Bodies of tickets and their tags.
#![tactic(auto)]

mod bodies;
mod tags;
mod tickets;

pub use bodies::{Body, LONGEST_BODY, LONGEST_TEXT};
pub use tags::{count_blocks, make_tag};
pub use tickets::{check_ticket, count_pads, read_key, read_pad};
