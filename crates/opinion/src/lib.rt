// The second opinion: calls that are answered from a log of those accepted before, and listed in it.
// Entry points: fresh, take_packet, set_port, set_rate, add_local, remove_local, renumber, mark_path_unresponsive.
#![tactic(auto)]

mod packets;
mod refusing;
mod settings;
mod writing;

pub use opinion_log::places::LOG_SIZE;
pub use packets::{mark_path_unresponsive, take_packet};
pub use settings::{add_local, fresh, remove_local, renumber, set_port, set_rate};
