// The second opinion's log: a list of accepted calls, in bytes that a host lends, and what is known from it. Each
// question is one walk through the log: no tables, slots or rings.
// Entry points: none. To ask about paths, links and return records the caller shows what each packet listed did.
#![tactic(auto, using(outgoing::proofs::LeavingLaws::long, outgoing::proofs::LeavingLaws::whole))]

mod clocks;
mod hashes;
mod links;
mod locals;
mod log;
mod outcomes;
mod paths;
pub mod places;
mod ports;
mod rates;
mod records;
mod returns;
mod seeing;

pub use clocks::last_clock;
pub use locals::{is_local, local_number};
pub use log::{Entry, listed, rate_within};
pub use outcomes::{Effect, Outcome, outcomes_of};
pub use paths::path_of;
pub use ports::port_at;
pub use records::live_path;
pub use seeing::seen;
