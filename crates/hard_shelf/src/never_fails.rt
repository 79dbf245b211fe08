//! A shelf in memory that never fails.

ghost use Rattle.std.specs.Prelude.{◌≡◌, ◌↔◌, ◌≤◌, List, ℕ, true, Some, None, IfOk, OnOk, OnErr, IsErrOf, length};
ghost use Rattle.std.specs.Option.{option_map};
ghost use Rattle.hard_shelf.specs.Held.{kept_by, read_from};
ghost use Rattle.hard_shelf.specs.Outside.{SameNames, SameOthers, HoldsMore};

use crate::shelf::{Shelf, ShelfError};
use hard_words::OutOfMemory;
use std::alloc::Global;
use std::collections::BTreeMap;

/// A shelf in memory, which tells what it holds and never fails: its count of failures is 0 for good.
#[derive(Drop)]
pub struct NeverFails {
    alloc: Global,
    files: BTreeMap<String, Vec<u8>>,
    taken: u64,
}

impl NeverFails {
    /// A shelf that holds nothing. It takes no memory.
    pub fn new(alloc: Global) -> NeverFails
        ensures { (name : List ℕ) → kept_by result name ≡ None }
    {
        NeverFails {
            alloc,
            files: BTreeMap::new(alloc),
            taken: 0,
        }
    }

    /// The bytes under a name, if there is such a name.
    pub fn held(&self, name: &str) -> Option<&[u8]>
        ensures { kept_by self.now name.now ≡ option_map (λ bytes. bytes.now) result }
    {
        match self.files.get(name) {
            None => None,
            Some(bytes) => Some(bytes.as_slice()),
        }
    }

    /// Puts bytes under a name, in place of what stood there.
    pub fn hold(&mut self, name: &str, bytes: &[u8]) -> Result<(), OutOfMemory>
        ensures ok { OnOk result (kept_by self.new name.now ≡ Some bytes.now) }
        ensures others { SameOthers name.now (kept_by self.old) (kept_by self.new) }
        ensures err { OnErr result (SameNames (kept_by self.old) (kept_by self.new)) }
        ensures taken { read_from self.new ≡ read_from self.old }
    {
        let key = String::from_str(self.alloc, name)?;
        let value = Vec::from_slice(self.alloc, bytes)?;
        match self.files.insert(key, value) {
            Ok(_) => Ok(()),
            Err(_) => Err(OutOfMemory),
        }
    }
}

impl Shelf for NeverFails {
    ghost tells = { λ _. true };

    ghost held = { kept_by };

    ghost faults = { λ _. 0 };

    ghost taken = { read_from };

    fn take(&mut self, alloc: Global, name: &str, most: u64) -> Result<Vec<u8>, ShelfError>
        ensures same { SameNames (kept_by self.old) (kept_by self.new) }
        ensures taken { read_from self.old ≤ read_from self.new }
        ensures ok { IfOk result (λ bytes. kept_by self.old name.now ≡ Some bytes.items) }
        ensures at_most { IfOk result (λ bytes. length bytes.items ≤ most) }
        ensures absent { IsErrOf result ShelfError.Absent ↔ (kept_by self.old name.now ≡ None) }
        ensures too_large { IsErrOf result ShelfError.TooLarge ↔ HoldsMore (kept_by self.old name.now) most }
        ensures never { IsErrOf result ShelfError.Failed → ⊥ }
    {
        let bytes = match self.files.get(name) {
            None => return Err(ShelfError::Absent),
            Some(bytes) => bytes,
        };
        let size = bytes.len() as u64;
        if size > most {
            return Err(ShelfError::TooLarge);
        }
        match Vec::from_slice(alloc, bytes) {
            Err(_) => Err(ShelfError::OutOfMemory),
            Ok(copy) => {
                self.taken = self.taken.saturating_add(size);
                Ok(copy)
            }
        }
    }

    fn put(&mut self, name: &str, bytes: &[u8]) -> Result<(), ShelfError> {
        match self.hold(name, bytes) {
            Ok(()) => Ok(()),
            Err(OutOfMemory) => Err(ShelfError::OutOfMemory),
        }
    }
}
