// What leaves the relay, and port sets.
// Every function here is a helper of the packet call: where it has a `requires`, the caller shows it. No entry points.
#![tactic(auto)]

mod leaving;
mod ports;

pub use leaving::{carry, forward_by_path, path_length, spread, spread_length};
pub use ports::with_spread_port;
