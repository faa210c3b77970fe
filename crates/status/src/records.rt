// The record at a place, behind its mark.
ghost use Rattle.std.specs.Prelude.{◌≡◌, ◌+◌, ◌*◌, ◌≤◌, length};
ghost use Rattle.tables.specs.Layout.{record_at};
ghost use Rattle.status.specs.Put.{record_told};

use lookup::record_at;

// The first N bytes of a record behind its mark. An empty one has none.
pub fn record_told<const N: usize>(
    tables: &[u8],
    at: usize,
    width: usize,
    place: usize,
) -> Option<[u8; N]>
    requires { (at + width * place + width ≤ length tables.now) × (1 + N ≤ width) }
    ensures { result ≡ record_told N (record_at at width tables.now place) }
{
    let b = record_at(tables, at, width, place);
    if b[0] == 0 {
        return None;
    }
    let mut told = [0u8; N];
    told.copy_from_slice(&b[1..1 + N]);
    Some(told)
}
