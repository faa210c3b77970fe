// Saved tables: a relay's tables and tally as a file, and back.
ghost use Rattle.std.specs.Prelude.{◌≡◌};
ghost use Rattle.saved.specs.File.{saved_size};
ghost use Rattle.saved.specs.Save.{save_on};
ghost use Rattle.saved.specs.Load.{load_on};
ghost use Rattle.crossing.specs.Tallies.{tally_in};
ghost use Rattle.crossing.specs.Saved.{SavesAs, LoadsAs};

use crossing::{WIDE_REFUSAL_SPAN, tally_in, tally_numbers};
use saved::SAVED_SIZE;

// How many bytes a saved file has.
#[unsafe(no_mangle)]
pub extern "C" fn haskumye_saved_size() -> usize
    ensures { result ≡ saved_size }
{
    SAVED_SIZE
}

// Writes the file of tables and tally at the start of the room, which a refusal leaves as it was.
// One number: in its low 16 bits the refusal or 0, in those above the file's length.
#[unsafe(no_mangle)]
pub extern "C" fn haskumye_save(tables: &[u8], tally: &[u32; 6], room: &mut [u8]) -> u64
    ensures { SavesAs (save_on tables.now (tally_in tally.now) room.old)
        result room.new }
{
    let counts = *tally;
    match saved::save(tables, tally_in(counts), room) {
        Ok(length) => length as u64 * WIDE_REFUSAL_SPAN,
        Err(refusal) => u64::from(refusal.number()),
    }
}

// Sets tables and tally to what the file holds, and returns 0; or a refusal's number, and both stay.
#[unsafe(no_mangle)]
pub extern "C" fn haskumye_load(file: &[u8], tables: &mut [u8], tally: &mut [u32; 6]) -> u8
    ensures { LoadsAs (load_on file.now tables.old (tally_in tally.old))
        result tables.new tally.new }
{
    match saved::load(file, tables) {
        Ok(held) => {
            *tally = tally_numbers(held);
            0
        }
        Err(refusal) => refusal.number(),
    }
}
