// An entry of a recording as hosts get it: five numbers.
ghost use Rattle.std.specs.Prelude.{◌≡◌};
ghost use Rattle.recording.specs.Reader.{fields_as};
ghost use Rattle.crossing.specs.Recordings.{entry_numbers};

use recording::EntryHead;

// An entry in five numbers.
#[tactic(auto, unfolding(crate::specs::Recordings::entry_numbers))]
pub fn entry_numbers(head: EntryHead) -> [u64; 5]
    ensures { result ≡ entry_numbers (fields_as (Some head)) }
{
    [
        head.clock,
        u64::from(head.port),
        u64::from(head.word),
        head.start as u64,
        head.length as u64,
    ]
}
