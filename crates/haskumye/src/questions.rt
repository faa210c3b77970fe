// What a host asks of a relay, whose tables stay as they are. Each but the last returns 0 where what it asks for
// stands in the buffer lent, 7 where the tables are refused, and 255 where there is none: a place outside its table or
// an empty one, a number that is no port, no live path. Then the buffer stays too.
ghost use Rattle.std.specs.Prelude.{◌≡◌};
ghost use Rattle.numbers.specs.Refusals.{refused_number};
ghost use Rattle.numbers.specs.Values.{value_or};
ghost use Rattle.rules.specs.Questions.{port_settings, rate_settings, local_at, path_at, link_at, live_path, live_returns, live_hashes, the_last_clock, whether_word_matters};
ghost use Rattle.tables.specs.Asked.{tell_on, told_number, Tells, TellsNumber};
ghost use Rattle.status.specs.Put.{asked_number, asked_or};

use numbers::Refusal;

// The numbers of two answers that are no refusal's: there is nothing to tell, and the signature word matters.
const NOTHING: u8 = 255;

const MATTERS: u8 = 255;

// Puts what is told into the buffer lent, and gives the answer's number.
fn put<T: Copy>(answer: Result<T, Refusal>, room: &mut T) -> u8
    ensures { (result ≡ refused_number answer) × (room.new ≡ value_or answer room.old) }
{
    match answer {
        Ok(told) => {
            *room = told;
            0
        }
        Err(refusal) => refusal.number(),
    }
}

// The same of an answer that may tell nothing.
fn put_some<T: Copy>(answer: Result<Option<T>, Refusal>, room: &mut T) -> u8
    ensures { (result ≡ asked_number answer) × (room.new ≡ asked_or answer room.old) }
{
    match answer {
        Ok(Some(told)) => {
            *room = told;
            0
        }
        Ok(None) => NOTHING,
        Err(refusal) => refusal.number(),
    }
}

// A port's settings: on, 1 or 0, its mode, and its size in two bytes, the highest first.
#[unsafe(no_mangle)]
pub extern "C" fn haskumye_port(tables: &[u8], port: u64, settings: &mut [u8; 4]) -> u8
    ensures { Tells (tell_on tables.now (port_settings port))
        settings.old result settings.new }
{
    put_some(status::port_settings(tables, port), settings)
}

// The announce rate's settings: target interval, grace, penalty, each as 4 bytes, the highest first. Never none.
#[unsafe(no_mangle)]
pub extern "C" fn haskumye_announce_rate(tables: &[u8], settings: &mut [u8; 12]) -> u8
    ensures { Tells (tell_on tables.now rate_settings)
        settings.old result settings.new }
{
    put(status::rate_settings(tables), settings)
}

// The local address at a place.
#[unsafe(no_mangle)]
pub extern "C" fn haskumye_local(tables: &[u8], place: u64, address: &mut [u8; 16]) -> u8
    ensures { Tells (tell_on tables.now (local_at place))
        address.old result address.new }
{
    put_some(status::local_at(tables, place), address)
}

// The path at a place, live or not: destination, port, hops, next hop, expiry, last accepted announce, violations,
// blocked-until, marked unresponsive, 1 or 0, and the number of blobs. A time has 8 bytes, the highest first.
#[unsafe(no_mangle)]
pub extern "C" fn haskumye_path(tables: &[u8], place: u64, path: &mut [u8; 61]) -> u8
    ensures { Tells (tell_on tables.now (path_at place))
        path.old result path.new }
{
    put_some(status::path_at(tables, place), path)
}

// A destination's live path at a clock.
#[unsafe(no_mangle)]
pub extern "C" fn haskumye_live_path(
    tables: &[u8],
    destination: &[u8; 16],
    clock: u64,
    path: &mut [u8; 61],
) -> u8
    ensures { Tells (tell_on tables.now (live_path destination.now clock))
        path.old result path.new }
{
    let address = *destination;
    put_some(status::live_path(tables, address, clock), path)
}

// The link at a place, live or not: id, asking port, answering port, taken hops, remaining hops, proved, 1 or 0, and
// expiry as 8 bytes, the highest first.
#[unsafe(no_mangle)]
pub extern "C" fn haskumye_link(tables: &[u8], place: u64, link: &mut [u8; 29]) -> u8
    ensures { Tells (tell_on tables.now (link_at place))
        link.old result link.new }
{
    put_some(status::link_at(tables, place), link)
}

// The number of live return records at a clock.
#[unsafe(no_mangle)]
pub extern "C" fn haskumye_live_returns(tables: &[u8], clock: u64, count: &mut u64) -> u8
    ensures { TellsNumber (tell_on tables.now (live_returns clock))
        count.old result count.new }
{
    put(status::live_returns(tables, clock), count)
}

// The number of live hashes at a clock.
#[unsafe(no_mangle)]
pub extern "C" fn haskumye_live_hashes(tables: &[u8], clock: u64, count: &mut u64) -> u8
    ensures { TellsNumber (tell_on tables.now (live_hashes clock))
        count.old result count.new }
{
    put(status::live_hashes(tables, clock), count)
}

// The last accepted clock.
#[unsafe(no_mangle)]
pub extern "C" fn haskumye_last_clock(tables: &[u8], clock: &mut u64) -> u8
    ensures { TellsNumber (tell_on tables.now the_last_clock)
        clock.old result clock.new }
{
    put(status::last_clock(tables), clock)
}

// Whether the signature word matters for a packet call with an output of `room` bytes. A refusal's number, as that call
// gives it; 0: the word isn't read, and the answer is the same with either; 255: it is, so verify the signature.
#[unsafe(no_mangle)]
pub extern "C" fn haskumye_signature_matters(
    packet: &[u8],
    port: u64,
    clock: u64,
    tables: &[u8],
    room: usize,
) -> u8
    ensures { result
        ≡ told_number (tell_on tables.now (whether_word_matters packet.now port clock room)) }
{
    match relay::signature_matters(packet, port, clock, tables, room) {
        Ok(true) => MATTERS,
        Ok(false) => 0,
        Err(refusal) => refusal.number(),
    }
}
