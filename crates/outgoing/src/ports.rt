// Port sets: bit i says whether port i is in one. A loop over the ports in rising order adds them one by one.
ghost use Rattle.std.specs.Prelude.{◌≡◌, not, eqb, ltb, ◌+◌, ◌^◌, ◌<◌};
ghost use Rattle.octets.specs.Index.{◌and◌};
ghost use Rattle.octets.specs.Choice.{◌then◌otherwise◌};
ghost use Rattle.numbers.specs.Numbers.{port_count};

// Adds a port to the set of those that an announce of this length is spread to: the ports on but the arrival port that
// carry it.
pub fn with_spread_port(
    ports: u16,
    port: u8,
    on: bool,
    size: usize,
    arrival: u8,
    length: usize,
) -> u16
    requires { (port < port_count) × (ports < 2 ^ port) }
    ensures { result ≡ ports + (on and not (eqb port arrival) and not (ltb size length) then 2 ^ port otherwise 0) }
{
    if on && port != arrival && length <= size {
        return ports + (1u16 << port);
    }
    ports
}
