//! The files of a list.

use crate::fault::Fault;
use hard_shelf::MemoryShelf;
use std::alloc::Global;
use std::collections::BTreeMap;

/// Bytes under names. They live through one list.
#[derive(Drop)]
pub(crate) struct Held {
    alloc: Global,
    files: BTreeMap<String, Vec<u8>>,
}

impl Held {
    /// No files.
    pub(crate) fn new(alloc: Global) -> Held {
        Held {
            alloc,
            files: BTreeMap::new(alloc),
        }
    }

    /// The bytes under a name, if there is such a name.
    pub(crate) fn get(&self, name: &str) -> Option<&[u8]> {
        match self.files.get(name) {
            None => None,
            Some(bytes) => Some(bytes.as_slice()),
        }
    }

    /// A copy of the bytes under a name.
    ///
    /// # Errors
    ///
    /// `Line` where there is no such name; `Memory`.
    pub(crate) fn copy_of(&self, name: &str) -> Result<Vec<u8>, Fault> {
        match self.files.get(name) {
            None => Err(Fault::Line),
            Some(bytes) => Ok(Vec::from_slice(self.alloc, bytes)?),
        }
    }

    /// Puts bytes under a name, in place of what stood there.
    pub(crate) fn put(&mut self, name: &str, bytes: Vec<u8>) -> Result<(), Fault> {
        let key = String::from_str(self.alloc, name)?;
        match self.files.insert(key, bytes) {
            Ok(_) => Ok(()),
            Err(_) => Err(Fault::Memory),
        }
    }

    /// Puts bytes behind those under a name.
    ///
    /// # Errors
    ///
    /// `Line` where there is no such name; `Memory`.
    pub(crate) fn append(&mut self, name: &str, bytes: &[u8]) -> Result<(), Fault> {
        match self.files.get_mut(name) {
            None => Err(Fault::Line),
            Some(all) => {
                all.extend_from_slice(bytes)?;
                Ok(())
            }
        }
    }

    /// A shelf that holds the files that words name, and that of the name `self.img`.
    pub(crate) fn shelf(&self, words: &Vec<String>) -> Result<MemoryShelf, Fault> {
        let mut shelf = MemoryShelf::new(self.alloc);
        self.lend(&mut shelf, "self.img")?;
        for word in words.iter() {
            self.lend(&mut shelf, word.as_str())?;
        }
        Ok(shelf)
    }

    // Puts the file of a name on a shelf, if there is one.
    fn lend(&self, shelf: &mut MemoryShelf, name: &str) -> Result<(), Fault> {
        match self.files.get(name) {
            None => Ok(()),
            Some(bytes) => Ok(shelf.hold(name, bytes.as_slice())?),
        }
    }
}
