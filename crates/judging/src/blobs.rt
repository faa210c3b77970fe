// The blobs of a path.
ghost use Rattle.std.specs.Prelude.{◌≡◌, ◌≤◌, ◌<◌, Some};
ghost use Rattle.numbers.specs.Numbers.{blob_limit};
ghost use Rattle.rules.specs.Blobs.{held, is_among, greatest_emission, one_blob, add_blob, store_blob};
ghost use Rattle.judging.specs.Seen.{blobs_of};
ghost use Rattle.judging.specs.Steps.{revived_by};

use super::{SeenPath, Stored};
use numbers::{BLOB_LIMIT, BLOB_WIDTH};

impl Stored {
    // A new path's blobs: one, and zeros behind it.
    pub fn of_one(blob: [u8; BLOB_WIDTH]) -> Stored
        ensures { (blobs_of result ≡ one_blob blob_limit blob) × (result.count ≤ blob_limit) }
    {
        let mut places = [[0; BLOB_WIDTH]; BLOB_LIMIT];
        places[0] = blob;
        Stored { count: 1, places }
    }

    fn held(&self) -> &[[u8; BLOB_WIDTH]]
        requires { self.now.count ≤ blob_limit }
        ensures { result.now ≡ held (blobs_of self.now) }
    {
        &self.places[..self.count]
    }

    // Whether the blob is among them.
    pub fn holds(&self, blob: [u8; BLOB_WIDTH]) -> bool
        requires { self.now.count ≤ blob_limit }
        ensures { result ≡ is_among blob (held (blobs_of self.now)) }
    {
        self.held().iter().any(|held| *held == blob)
    }

    // The greatest emission among them.
    pub fn greatest_emission(&self) -> u64
        requires { self.now.count ≤ blob_limit }
        ensures { result ≡ greatest_emission (held (blobs_of self.now)) }
    {
        self.held()
            .iter()
            .map(|blob| packet::emission(*blob))
            .max()
            .unwrap_or(0)
    }

    // With one more behind them. Where all places are used, the one stored longest ago goes.
    fn add(&mut self, blob: [u8; BLOB_WIDTH])
        requires { self.old.count ≤ blob_limit }
        ensures { (blobs_of self.new ≡ add_blob blob_limit blob (blobs_of self.old)) × (self.new.count ≤ blob_limit) }
    {
        if self.count < BLOB_LIMIT {
            self.places[self.count] = blob;
            self.count += 1;
        } else {
            self.places.rotate_left(1);
            self.places[BLOB_LIMIT - 1] = blob;
        }
    }

    // With this one among them: one already stored isn't stored twice.
    pub fn store(&mut self, blob: [u8; BLOB_WIDTH])
        requires { self.old.count ≤ blob_limit }
        ensures { (blobs_of self.new ≡ store_blob blob_limit blob (blobs_of self.old)) × (self.new.count ≤ blob_limit) }
    {
        if !self.holds(blob) {
            self.add(blob);
        }
    }
}

// Whether an announce with this blob revives the path: it is marked, and holds none that was emitted later.
pub fn revives(path: &SeenPath, blob: [u8; BLOB_WIDTH]) -> bool
    requires { path.now.blobs.count ≤ blob_limit }
    ensures { result ≡ revived_by path.now blob }
{
    path.notes.marked && path.blobs.greatest_emission() <= packet::emission(blob)
}
