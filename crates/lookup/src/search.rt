// The searches that the tables share: records of one width, from one place of the tables on, each with its mark first
// and its key behind it.
ghost use Rattle.std.specs.Prelude.{◌≡◌, not, ◌+◌, ◌*◌, ◌/◌, ◌≤◌, length};
ghost use Rattle.octets.specs.Part.{part};
ghost use Rattle.octets.specs.BigEndian.{word_width};
ghost use Rattle.tables.specs.Places.{time_width};
ghost use Rattle.tables.specs.Layout.{record_at};
ghost use Rattle.lookup.specs.Search.{last_word, none_is, has_key, is_live, is_live_of, lowest_record, fours_before, found};

// Where the records of a table stand, how wide and how many they are, and where in one its expiry stands.
#[derive(Clone, Copy)]
pub struct Table {
    pub at: usize,
    pub width: usize,
    pub count: usize,
    pub expiry: usize,
}

// The bytes of a table's records.
fn records_of(tables: &[u8], table: Table) -> &[u8]
    requires { table.at + table.width * table.count ≤ length tables.now }
    ensures bytes { result.now ≡ part tables.now table.at (table.width * table.count) }
    ensures long { length result.now ≡ table.width * table.count }
{
    &tables[table.at..table.at + table.width * table.count]
}

// The bytes of the record at a place.
pub fn record_at(tables: &[u8], at: usize, width: usize, place: usize) -> &[u8]
    requires { at + width * place + width ≤ length tables.now }
    ensures { (result.now ≡ record_at at width tables.now place) × (length result.now ≡ width) }
{
    let start = at + width * place;
    &tables[start..start + width]
}

// Whether a record is used and has the key.
pub fn has_key(b: &[u8], key: &[u8]) -> bool
    requires { 1 + length key.now ≤ length b.now }
    ensures { result ≡ has_key key.now b.now }
{
    b[0] != 0 && &b[1..1 + key.len()] == key
}

// Whether a record is used and ends after the clock.
pub fn is_live(b: &[u8], expiry: usize, clock: u64) -> bool
    requires { expiry + time_width ≤ length b.now }
    ensures { result ≡ is_live expiry clock b.now }
{
    b[0] != 0 && clock < octets::number_of_8_at(b, expiry)
}

// Whether a record has the key, of which `last` are the last eight bytes, and is live. They are compared first, as one
// number: keys are digests, so most records are passed by this comparison, however much they share with the key before.
fn is_live_of(b: &[u8], key: &[u8], last: u64, expiry: usize, clock: u64) -> bool
    requires { (1 + length key.now ≤ length b.now) × (expiry + time_width ≤ length b.now)
        × (word_width ≤ length key.now) × (last ≡ last_word key.now) }
    ensures { result ≡ is_live_of key.now expiry clock b.now }
{
    let tail = key.len() - octets::WORD_WIDTH;
    octets::word_at(b, 1 + tail) == last
        && has_key(b, key)
        && clock < octets::number_of_8_at(b, expiry)
}

// Whether none of four records has x for eight of its bytes, which stand at `at` in the first.
fn none_of_four(four: &[u8], at: usize, width: usize, x: u64) -> bool
    requires { at + width * 3 + word_width ≤ length four.now }
    ensures { result ≡ none_is x at width 4 four.now }
{
    octets::word_at(four, at) != x
        && octets::word_at(four, at + width) != x
        && octets::word_at(four, at + width * 2) != x
        && octets::word_at(four, at + width * 3) != x
}

// How many fours stand before the first of which one has the key's last eight bytes, or all fours. Four records a step,
// for a step costs more than a comparison.
#[inline(always)]
fn fours_before(records: &[u8], table: Table, tail: usize, last: u64) -> usize
    requires { (length records.now ≡ table.width * table.count) × (1 + tail + word_width ≤ table.width) }
    ensures { result
        ≡ fours_before (λ four. not (none_is last (1 + tail) table.width 4 four)) table.width (table.count / 4)
        records.now }
{
    let fours = table.count / 4;
    if fours == 0 {
        return 0;
    }
    records[..table.width * 4 * fours]
        .chunks_exact(table.width * 4)
        .position(|four| !none_of_four(four, 1 + tail, table.width, last))
        .unwrap_or(fours)
}

// The lowest place of a live record of the key. The fours of which none has the key's last eight bytes are passed first.
pub fn live_place(tables: &[u8], table: Table, key: &[u8], clock: u64) -> Option<usize>
    requires { (table.at + table.width * table.count ≤ length tables.now) × (1 + length key.now ≤ table.width)
        × (table.expiry + time_width ≤ table.width) × (word_width ≤ length key.now) }
    ensures { result ≡ found table.count
        (lowest_record (is_live_of key.now table.expiry clock) table.at table.width table.count tables.now) }
{
    let tail = key.len() - octets::WORD_WIDTH;
    let last = octets::word_at(key, tail);
    let records = records_of(tables, table);
    let passed = fours_before(records, table, tail, last) * 4;
    let place = records[table.width * passed..]
        .chunks_exact(table.width)
        .position(|b| is_live_of(b, key, last, table.expiry, clock))?;
    Some(passed + place)
}

// The lowest place that is empty or expired.
pub fn free_place(tables: &[u8], table: Table, clock: u64) -> Option<usize>
    requires { (table.at + table.width * table.count ≤ length tables.now) × (table.expiry + time_width ≤ table.width) }
    ensures { result ≡ found table.count
        (lowest_record (λ b. not (is_live table.expiry clock b)) table.at table.width table.count tables.now) }
{
    records_of(tables, table)
        .chunks_exact(table.width)
        .position(|b| !is_live(b, table.expiry, clock))
}
