// The file's bodies as the tables have them, of any edition: with zeros for what the edition lacks, and with a fresh
// port's bytes for what it lacks of a port.
ghost use Rattle.std.specs.Prelude.{◌≡◌, ◌-◌, ◌≤◌, ◌<◌, length, replicate};
ghost use Rattle.octets.specs.Part.{patch};
ghost use Rattle.numbers.specs.Numbers.{port_count, path_count};
ghost use Rattle.tables.specs.Places.{path_width, ports_at, paths_at, table_size};
ghost use Rattle.editions.specs.Editions.{numbered};
ghost use Rattle.editions.specs.Steps.{tally_place, opened, port_now, ports_now, front_now, path_now, paths_now, path_fine, paths_fine, tables_now, bodies_fine};

use super::rows::KnownEdition;
use super::shape::{BACK_SIZE, BODIES_AT, LOCALS_BODY};
use numbers::{PATH_COUNT, PORT_COUNT};
use tables::fields::PATH_BLOB_COUNT_AT;
use tables::places::{FRESH_PORT, LINKS_AT, LOCALS_AT, PATH_WIDTH, PATHS_AT, PORT_WIDTH, PORTS_AT};

// Writes bytes over zeros, with those of these that are more than the bytes put in at a place.
fn open(from: &[u8], at: usize, to: &mut [u8])
    requires { (at ≤ length from.now) × (length from.now ≤ length to.old)
        × (to.old ≡ replicate (length to.old) 0) }
    ensures { to.new
        ≡ opened at (length to.old - length from.now) from.now }
{
    let gap = to.len() - from.len();
    octets::copy_at(to, 0, &from[0..at]);
    octets::copy_at(to, at + gap, &from[at..from.len()]);
}

// The bodies of a file that has them all, in its edition.
#[derive(Clone, Copy)]
pub struct Bodies<'a> {
    pub file: &'a [u8],
    pub edition: KnownEdition,
    pub ghost there: { tally_place (numbered edition.number) ≤ length file.now },
}

impl<'a> Bodies<'a> {
    // The settings of port i: what the file has of them, over a fresh port's.
    fn port_now(self, i: usize) -> [u8; PORT_WIDTH]
        requires { i < port_count }
        ensures { result ≡ port_now (numbered self.entry.edition.number) self.entry.file.now i }
    {
        let mut port = FRESH_PORT;
        let width = self.edition.port_width();
        let at = self.edition.ports_place() + width * i;
        octets::copy_at(&mut port, 0, &self.file[at..at + width]);
        port
    }

    fn write_ports(self, front: &mut [u8])
        requires { length front.old ≡ paths_at }
        ensures { front.new
            ≡ patch front.old ports_at (ports_now (numbered self.entry.edition.number) self.entry.file.now port_count) }
    {
        for i in 0..PORT_COUNT {
            octets::copy_at(front, PORTS_AT + PORT_WIDTH * i, &self.port_now(i));
        }
    }

    // Writes the sections before the paths over zeros.
    fn write_front(self, front: &mut [u8])
        requires { front.old ≡ replicate paths_at 0 }
        ensures { front.new ≡ front_now (numbered self.entry.edition.number) self.entry.file.now }
    {
        let start = self.edition.start_width();
        open(
            &self.file[BODIES_AT..BODIES_AT + start],
            start,
            &mut front[0..PORTS_AT],
        );
        self.write_ports(front);
        let locals = self.edition.locals_place();
        octets::copy_at(front, LOCALS_AT, &self.file[locals..locals + LOCALS_BODY]);
    }

    fn front_now(self) -> [u8; PATHS_AT]
        ensures { result ≡ front_now (numbered self.entry.edition.number) self.entry.file.now }
    {
        let mut front = [0u8; PATHS_AT];
        self.write_front(&mut front);
        front
    }

    // Writes the record of path i over zeros, which stay before its blobs for the fields that the edition lacks, and
    // behind them for the places.
    fn write_path(self, i: usize, path: &mut [u8])
        requires { (i < path_count) × (path.old ≡ replicate path_width 0) }
        ensures { path.new ≡ path_now (numbered self.entry.edition.number) self.entry.file.now i }
    {
        let width = self.edition.path_width();
        let at = self.edition.paths_place() + width * i;
        let end = PATH_BLOB_COUNT_AT + self.edition.blobs_width();
        open(
            &self.file[at..at + width],
            self.edition.before_blobs(),
            &mut path[0..end],
        );
    }

    fn path_now(self, i: usize) -> [u8; PATH_WIDTH]
        requires { i < path_count }
        ensures { result ≡ path_now (numbered self.entry.edition.number) self.entry.file.now i }
    {
        let mut path = [0u8; PATH_WIDTH];
        self.write_path(i, &mut path);
        path
    }

    // Row 7 for one record, with the edition's own limit on its blobs.
    fn path_fine(self, path: &[u8]) -> bool
        requires { length path.now ≡ path_width }
        ensures { result ≡ path_fine (numbered self.entry.edition.number) path.now }
    {
        tables::paths_each(path, 0, 1) && path[PATH_BLOB_COUNT_AT] <= self.edition.most_blobs()
    }

    fn paths_fine(self) -> bool
        ensures { result ≡ paths_fine (numbered self.entry.edition.number) self.entry.file.now path_count }
    {
        (0..PATH_COUNT).all(|i| self.path_fine(&self.path_now(i)))
    }

    // Whether they break none of refusal 7's rules. A tally may be any bytes.
    pub fn are_fine(self) -> bool
        ensures { result ≡ bodies_fine (numbered self.entry.edition.number) self.entry.file.now }
    {
        tables::front_ok(&self.front_now())
            && self.paths_fine()
            && tables::back_ok(self.file, self.edition.back_place())
    }

    fn write_paths(self, tables: &mut [u8])
        requires { length tables.old ≡ table_size }
        ensures { tables.new
            ≡ patch tables.old paths_at (paths_now (numbered self.entry.edition.number) self.entry.file.now path_count) }
    {
        for i in 0..PATH_COUNT {
            octets::copy_at(tables, PATHS_AT + PATH_WIDTH * i, &self.path_now(i));
        }
    }

    // Writes the whole tables.
    pub fn write_tables(self, tables: &mut [u8])
        requires { length tables.old ≡ table_size }
        ensures { tables.new ≡ tables_now (numbered self.entry.edition.number) self.entry.file.now }
    {
        octets::copy_at(tables, 0, &self.front_now());
        self.write_paths(tables);
        let back = self.edition.back_place();
        octets::copy_at(tables, LINKS_AT, &self.file[back..back + BACK_SIZE]);
    }
}
