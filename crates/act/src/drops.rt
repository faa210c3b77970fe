// Dropped packets: one that test 15 drops changes its path's violations and blocked-until, no other writes a record.
ghost use Rattle.std.specs.Prelude.{◌≡◌, length};
ghost use Rattle.rules.specs.Rate.{entry_dropped};
ghost use Rattle.rules.specs.declared.Verdict.TheVariants.{Drop};
ghost use Rattle.tables.specs.Places.{table_size};
ghost use Rattle.tables.specs.Layout.{relay_of};
ghost use Rattle.plan.specs.Decided.{CanJudge, CanKnow, path_at};
ghost use Rattle.act.specs.Acted.{limited_on, dropped_on};

use plan::Arrived;
use rules::{RateEntry, Reason, Verdict};

// The fields of the path at a place once an announce for it is dropped by test 15.
#[tactic(auto, using(outgoing::proofs::Steps::joined), unfolding(rules::specs::Rate::entry_dropped))]
fn dropped_entry(tables: &[u8], place: usize, clock: u64) -> RateEntry
    requires { (length tables.now ≡ table_size) × CanKnow tables.now place }
    ensures { result ≡ entry_dropped (relay_of tables.now).rate clock
        (path_at tables.now place).rate }
{
    let entry = lookup::path_rate(tables, place);
    let rated = plan::rate_at(tables, place, clock);
    RateEntry {
        violations: rated.violations,
        blocked_until: rated.blocked_until,
        ..entry
    }
}

// Changes them where the path lies, if there is one.
fn limit(packet: &[u8], arrived: Arrived, tables: &mut [u8])
    requires { CanJudge packet.now tables.old }
    ensures { tables.new ≡ limited_on packet.now arrived tables.old }
{
    let destination = packet::parts_of(packet).destination;
    if let Some(place) = lookup::path_place(tables, destination, arrived.clock) {
        let entry = dropped_entry(tables, place, arrived.clock);
        update::put_rate(tables, place, entry);
    }
}

// A packet that is dropped for a reason.
pub fn drop_packet(packet: &[u8], arrived: Arrived, reason: Reason, tables: &mut [u8]) -> Verdict
    requires { CanJudge packet.now tables.old }
    ensures { (result ≡ Drop reason)
        × (tables.new ≡ dropped_on packet.now arrived reason tables.old) }
{
    if matches!(reason, Reason::RateLimited) {
        limit(packet, arrived, tables);
    }
    Verdict::Drop(reason)
}
