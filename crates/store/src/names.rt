// The store: names and the texts stored under them, as a list in the order in which the names were first stored.
ghost use Rattle.std.specs.Prelude.{◌≡◌, [], ◌<◌, ◌≤◌, length, option_copied};
ghost use Rattle.model.specs.Limits.{store_least};
ghost use Rattle.store.specs.Names.{Names, GetsText, PutsText, ListsNames};

use super::{Full, Index, empty, listing, put, seek};
use model::STORE_LEAST;
use std::marker::Model;

// Entries stand at the front of its 8,704 bytes, which are an array, since the library has no heap.
#[derive(Clone, Copy)]
pub struct Store {
    bytes: [u8; STORE_LEAST],
    entries: Index,
}

impl Model for Store {
    ghost use Rattle.store.specs.Names.{Names};
    ghost use Rattle.store.specs.Memory.{held, Kept};
    ghost use Rattle.store.specs.Clean.{Clean, memory_of, index_of, memory_back, index_back};

    ghost Value = { Names };

    ghost view = { λ s. held s.entries.count s.bytes };

    ghost invariant = { λ s. Kept s.bytes s.entries × Clean s.bytes s.entries };

    // names and texts give back all of the bytes, which a copy needs
    ghost inverse = { λ es. record { bytes = memory_of es; entries = index_of es } };

    ghost inverse_ok = { λ s h i. record { bytes = memory_back h.0 h.1 i; entries = index_back h.0 i } };
}

impl Store {
    // Nothing is stored.
    #[tactic(auto, using(crate::proofs::Cleared::nothing_clean))]
    pub fn new() -> Store
        ensures { result ≡ [] }
    {
        let bytes = [0; STORE_LEAST];
        let entries = empty(&bytes);
        Store { bytes, entries }
    }

    // How many names are stored.
    #[tactic(auto, using(crate::proofs::Answering::length_names))]
    pub fn len(&self) -> usize
        ensures { result ≡ length self.now }
    {
        self.entries.count
    }

    // The text that is stored under a name.
    #[tactic(auto, using(crate::proofs::Answering::gets_text))]
    pub fn get(&self, name: &[u8]) -> Option<&[u8]>
        ensures { GetsText self.now name.now (option_copied result) }
    {
        seek(&self.bytes, self.entries, name)
    }

    // The text is stored under the name, in place of the one before. Where there is no room, nothing changes.
    // That both have below 256 bytes is asked: they are slices of the caller's, of no type of their own.
    pub fn put(&mut self, name: &[u8], text: &[u8]) -> Result<(), Full>
        requires { (length name.now < 256) × (length text.now < 256) }
        ensures { PutsText self.old name.now text.now result self.new }
    {
        self.entries = put(&mut self.bytes, self.entries, name, text)?;
        Ok(())
    }

    // The listing, to the front of room: the names with a byte 0 between two, a byte 10, and each text with a byte 10 after it. The answer is
    // its length.
    // A length and no slice, since the clause speaks of all of the room, also of what is behind the listing.
    pub fn list(&self, room: &mut [u8]) -> usize
        requires { store_least ≤ length room.old }
        ensures { ListsNames self.now room.old result room.new }
    {
        listing(&self.bytes, self.entries, room)
    }
}
