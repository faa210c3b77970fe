// The port to leave by: tests 12 and 16.
ghost use Rattle.std.specs.Prelude.{◌≡◌, length as length_of};
ghost use Rattle.tables.specs.Places.{table_size};
ghost use Rattle.tables.specs.Layout.{relay_of};
ghost use Rattle.plan.specs.Kinds.{leaving};

use super::Decision;
use rules::Reason;

// What was decided, if the port is on and carries a packet of this length.
#[tactic(auto, using(outgoing::proofs::Steps::joined), unfolding(crate::specs::Kinds::leaving))]
pub fn leave(tables: &[u8], port: u8, length: usize, decision: Decision) -> Decision
    requires { length_of tables.now ≡ table_size }
    ensures { result ≡ leaving (relay_of tables.now) port length decision }
{
    if !lookup::port_on(tables, u64::from(port)) {
        return Decision::Drop(Reason::PortOff);
    }
    if lookup::port_size(tables, u64::from(port)) < length {
        return Decision::Drop(Reason::TooLongForPort);
    }
    decision
}
