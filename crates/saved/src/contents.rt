// The file's contents: where an entry stands, and what it says.
ghost use Rattle.std.specs.Prelude.{◌≡◌, ◌+◌, ◌≤◌, ◌<◌, length};
ghost use Rattle.recording.specs.Shape.{entry_place, offset_of, length_of, count_limit};
ghost use Rattle.saved.specs.File.{head_width};

use editions::shape::ENTRY_WIDTH;
use recording::{CONTENTS_START, LENGTH_WIDTH, OFFSET_WIDTH};

// Where entry i stands in the contents; at the count, where the contents end.
pub fn entry_place(i: usize) -> usize
    requires { i < count_limit }
    ensures { result ≡ entry_place head_width i }
{
    CONTENTS_START + ENTRY_WIDTH * i
}

pub fn offset_of(file: &[u8], i: usize) -> usize
    requires { entry_place head_width (i + 1) ≤ length file.now }
    ensures { result ≡ offset_of head_width file.now i }
{
    octets::number_at(file, CONTENTS_START + ENTRY_WIDTH * i, OFFSET_WIDTH) as usize
}

pub fn length_of(file: &[u8], i: usize) -> usize
    requires { entry_place head_width (i + 1) ≤ length file.now }
    ensures { result ≡ length_of head_width file.now i }
{
    octets::number_at(
        file,
        CONTENTS_START + ENTRY_WIDTH * i + OFFSET_WIDTH,
        LENGTH_WIDTH,
    ) as usize
}
