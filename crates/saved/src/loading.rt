// Loading a saved relay: everything is checked before a byte of the tables is written.
ghost use Rattle.std.specs.Prelude.{◌≡◌, MatchResult, ◌+◌, ◌≤◌, ◌<◌, length};
ghost use Rattle.octets.specs.Part.{part};
ghost use Rattle.octets.specs.BigEndian.{number};
ghost use Rattle.numbers.specs.Refusals.{number_of, refused_number};
ghost use Rattle.numbers.specs.Values.{value_or};
ghost use Rattle.codes.specs.Form.{code};
ghost use Rattle.recording.specs.Shape.{entry_place, count_of, edition_of, length_of, sum_below, count_limit};
ghost use Rattle.rules.specs.declared.Tally.{Tally};
ghost use Rattle.tables.specs.Layout.{bytes_of};
ghost use Rattle.editions.specs.Editions.{counter_width, tally_form, edition_at};
ghost use Rattle.saved.specs.File.{head_width, bodies_at};
ghost use Rattle.saved.specs.Load.{length_wrong, contents_wrong, sizes_right, bodies_wrong, load_refusal, held_in, Loads, load_on, own_in};
ghost use Rattle.saved.specs.Steps.{ContentsRight, tally_at};

use super::contents::{entry_place, length_of, offset_of};
use super::format::{KIND, TALLY_AT};
use editions::shape::{BODIES_AT, BODY_COUNT, COUNTER_WIDTH, TALLY_BODY};
use editions::{Bodies, EDITION, KnownEdition};
use numbers::Refusal;
use recording::CONTENTS_START;
use rules::Tally;
use tables::places::TABLE_SIZE;

// The sum of the lengths of n entries.
fn lengths_sum(file: &[u8], n: usize) -> usize
    requires { (entry_place head_width n ≤ length file.now) × (n < count_limit) }
    ensures { result ≡ sum_below (length_of head_width file.now) n }
{
    (0..n).map(|i| length_of(file, i)).sum()
}

// Refusal 20.
fn length_wrong(file: &[u8]) -> bool
    ensures { result ≡ length_wrong file.now }
{
    if file.len() < CONTENTS_START {
        return true;
    }
    let n = recording::count(file);
    let at = entry_place(n);
    file.len() < at || at + lengths_sum(file, n) != file.len()
}

// Refusal 22, of a file that has its contents.
fn contents_wrong(file: &[u8]) -> bool
    requires { entry_place head_width (count_of file.now) ≤ length file.now }
    ensures { result ≡ contents_wrong file.now }
{
    if recording::count(file) != BODY_COUNT {
        return true;
    }
    let mut place = BODIES_AT;
    for i in 0..BODY_COUNT {
        if offset_of(file, i) != place {
            return true;
        }
        place += length_of(file, i);
    }
    false
}

// Whether each body has its size.
fn sizes_right(file: &[u8], edition: KnownEdition) -> bool
    requires { bodies_at ≤ length file.now }
    ensures { result ≡ sizes_right (edition_at edition.number) file.now }
{
    (0..BODY_COUNT).all(|i| length_of(file, i) == edition.width_of(i))
}

// Refusal 24, of a file that breaks none of the refusals before it. In the current edition the bodies but the last are
// the tables as they are.
fn bodies_wrong(file: &[u8], edition: KnownEdition) -> bool
    requires { (edition.number ≡ edition_of file.now) × ContentsRight file.now }
    ensures { result ≡ bodies_wrong file.now }
{
    if !sizes_right(file, edition) {
        return true;
    }
    if edition.number == EDITION {
        return !tables::check(&file[BODIES_AT..TALLY_AT]);
    }
    !Bodies { file, edition }.are_fine()
}

// The edition of a file that a load into so many bytes takes, or its refusal.
fn accepted(file: &[u8], size: usize) -> Result<KnownEdition, Refusal>
    ensures { MatchResult result (λ e. (load_refusal file.now size ≡ 0) × (e.number ≡ edition_of file.now))
        (λ refusal. number_of refusal ≡ load_refusal file.now size) }
{
    if length_wrong(file) {
        return Err(Refusal::FileLength);
    }
    if file[0] != KIND {
        return Err(Refusal::FileKind);
    }
    let Some(edition) = KnownEdition::numbered(file[1]) else {
        return Err(Refusal::FileKind);
    };
    if contents_wrong(file) {
        return Err(Refusal::FilePlace);
    }
    if bodies_wrong(file, edition) {
        return Err(Refusal::FileBody);
    }
    if size != TABLE_SIZE {
        return Err(Refusal::Room);
    }
    Ok(edition)
}

fn counter_at(file: &[u8], at: usize) -> u32
    requires { at + counter_width ≤ length file.now }
    ensures { result ≡ number (part file.now at counter_width) }
{
    octets::number_at(file, at, COUNTER_WIDTH) as u32
}

// The tally that stands at a place.
fn tally_at(file: &[u8], at: usize) -> Tally
    requires { at + (code tally_form).width ≤ length file.now }
    ensures { result ≡ tally_at file.now at }
{
    Tally {
        total: counter_at(file, at),
        dropped: counter_at(file, at + COUNTER_WIDTH),
        delivered: counter_at(file, at + 2 * COUNTER_WIDTH),
        forwarded: counter_at(file, at + 3 * COUNTER_WIDTH),
        spread: counter_at(file, at + 4 * COUNTER_WIDTH),
        kept: counter_at(file, at + 5 * COUNTER_WIDTH),
    }
}

// Writes the tables of a file that is not refused: those of the current edition by one copy.
fn write_held(file: &[u8], edition: KnownEdition, tables: &mut [u8])
    requires { (load_refusal file.now (length tables.old) ≡ 0) × (edition.number ≡ edition_of file.now) }
    ensures { tables.new ≡ bytes_of (held_in file.now).0 }
{
    if edition.number == EDITION {
        tables.copy_from_slice(&file[BODIES_AT..TALLY_AT]);
        return;
    }
    Bodies { file, edition }.write_tables(tables);
}

// Loads the tables, the own address and the last clock too, and gives the tally. No clock is tested.
pub fn load(file: &[u8], tables: &mut [u8]) -> Result<Tally, Refusal>
    ensures { (tally : Tally) → Loads (load_on file.now tables.old tally)
        (refused_number result) tables.new (value_or result tally) }
{
    let edition = accepted(file, tables.len())?;
    write_held(file, edition, tables);
    Ok(tally_at(file, file.len() - TALLY_BODY))
}

// The own address of the relay in a file, which stands first in every edition. Zeros where a load would refuse the
// file.
pub fn own_address(file: &[u8]) -> [u8; 16]
    ensures { result ≡ own_in file.now }
{
    match accepted(file, TABLE_SIZE) {
        Err(_) => [0; 16],
        Ok(_) => octets::address_at(file, BODIES_AT),
    }
}
