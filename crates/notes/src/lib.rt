// What the host notes of a path: the record, what each note changes in it, and how it lies in the path's bytes. The
// tables take it whole, and the rules but for the mark, so that a new note is said here.
// Entry points: none. The tables' check, reads and writes, the host's call and the second opinion rest on these.
#![tactic(auto)]

ghost use Rattle.std.specs.Prelude.{◌≡◌, ◌+◌, ◌≤◌, length};
ghost use Rattle.octets.specs.Part.{patch};
ghost use Rattle.codes.specs.Form.{code};
ghost use Rattle.notes.specs.Notes.{no_notes, noted as noted_after, notes_form, notes_width, notes_bytes};

// What the host has noted of a path, in its record: whether it is marked unresponsive.
#[derive(Clone, Copy)]
pub struct Notes {
    pub marked: bool,
}

// What the host may note of a destination's live path.
#[derive(Clone, Copy)]
pub enum Note {
    Unresponsive,
}

// How many bytes they take: the mark.
pub const NOTES_WIDTH: usize = 1;

// Nothing is noted.
pub fn none() -> Notes
    ensures { result ≡ no_notes }
{
    Notes { marked: false }
}

// What is noted after a note.
pub fn noted(notes: Notes, note: Note) -> Notes
    ensures { result ≡ noted_after note notes }
{
    match note {
        Note::Unresponsive => Notes { marked: true },
    }
}

// Whether these bytes hold notes: refusal 7.
pub fn are_fine(b: &[u8], at: usize) -> bool
    requires { at + notes_width ≤ length b.now }
    ensures { result ≡ (code notes_form).fine b.now at }
{
    b[at] < 2
}

pub fn read(b: &[u8], at: usize) -> Notes
    requires { at + notes_width ≤ length b.now }
    ensures { result ≡ (code notes_form).read b.now at }
{
    Notes { marked: b[at] == 1 }
}

pub fn write(b: &mut [u8], at: usize, notes: Notes)
    requires { at + notes_width ≤ length b.old }
    ensures { b.new ≡ patch b.old at (notes_bytes notes) }
{
    octets::copy_at(b, at, &[u8::from(notes.marked)]);
}
