// The ports' settings. A renumbering moves them, so the walk goes back from the newest entry, with the number that the
// port had before each renumbering.
ghost use Rattle.std.specs.Prelude.{◌≡◌, ◌≤◌, ℕ, get_or};
ghost use Rattle.rules.specs.Renumbering.{image};
ghost use Rattle.judging.specs.Seen.{no_seen_port};
ghost use Rattle.history.specs.Opinion.{list_limit};
ghost use Rattle.opinion_log.specs.Log.{known_in};
ghost use Rattle.opinion_log.specs.Steps.{port_seen};

use super::log::{Entry, entry_at};
use super::places::LOG_SIZE;
use judging::{PORT_OFF, SeenPort};
use maps::preimage_of;
use numbers::PORT_COUNT;

// The image of a port under a map; a number outside the sixteen stays.
pub fn image_of(images: [u8; PORT_COUNT], port: u8) -> u8
    ensures { result ≡ image images port }
{
    images.get(usize::from(port)).copied().unwrap_or(port)
}

// A port's settings after the first n entries.
pub fn port_at(log: &[u8; LOG_SIZE], n: usize, port: usize) -> SeenPort
    requires { n ≤ list_limit }
    ensures { port_seen result ≡ (known_in log.now n).port port }
{
    let mut name = port;
    for i in (0..n).rev() {
        match entry_at(log, i) {
            Entry::SetsPort(set, settings) if usize::from(set) == name => return settings,
            Entry::Renumbers(images) => name = preimage_of(&images, name),
            _ => {}
        }
    }
    PORT_OFF
}

// The settings of all ports after the first n entries.
pub fn ports_at(log: &[u8; LOG_SIZE], n: usize) -> [SeenPort; PORT_COUNT]
    requires { n ≤ list_limit }
    ensures { (port : ℕ) → port_seen (get_or result port no_seen_port) ≡ (known_in log.now n).port port }
{
    let mut ports = [PORT_OFF; PORT_COUNT];
    for i in 0..PORT_COUNT {
        ports[i] = port_at(log, n, i);
    }
    ports
}
