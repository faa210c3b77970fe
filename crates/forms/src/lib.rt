// What needs no tables: a packet's form, whether it is a link proof or exempt from test 2, and what an announce sets of
// its path by itself.
// Entry points: none. Where a function has a `requires`, the caller shows that the packet reads.
#![tactic(auto)]

mod announced;
mod bad_form;
mod contexts;

pub use announced::{next_hop_of, path_lifetime};
pub use bad_form::{form_of, is_link_proof};
pub use contexts::exempt;
