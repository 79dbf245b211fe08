//! A shelf in memory that can be told to fail.

ghost use Rattle.std.specs.Prelude.{◌≡◌, ◌⊎◌, ◌↔◌, ◌≤◌, ◌==◌, ◌||◌, List, ℕ, true, false, Some, None, IsTrue, IsFalse, IfOk, OnOk, OnErr, IsErrOf, length};
ghost use Rattle.std.specs.Option.{option_map};
ghost use Rattle.hard_shelf.specs.Held.{held_by, taken_from, failures_of, calls_of, is_named, fails_next, counted, failures_after};
ghost use Rattle.hard_shelf.specs.Outside.{SameNames, SameOthers, HoldsMore};

use crate::never_fails::NeverFails;
use crate::shelf::{Shelf, ShelfError};
use hard_words::OutOfMemory;
use std::alloc::Global;
use std::collections::BTreeMap;

/// A shelf in memory, which tells what it holds, counts its calls of `take` and `put`, and fails in those that it was told to
/// fail in. Calls are counted from 1; once 18446744073709551615 calls are counted, none fails any more.
#[derive(Drop)]
pub struct MemoryShelf {
    files: NeverFails,
    failing: BTreeMap<u64, ()>,
    calls: u64,
    failures: u64,
}

impl MemoryShelf {
    /// A shelf that holds nothing, was not called and fails in no call. It takes no memory.
    pub fn new(alloc: Global) -> MemoryShelf
        ensures empty { (name : List ℕ) → held_by result name ≡ None }
        ensures never { (call : ℕ) → is_named result call ≡ false }
        ensures calls { calls_of result ≡ 0 }
        ensures failures { failures_of result ≡ 0 }
    {
        MemoryShelf {
            files: NeverFails::new(alloc),
            failing: BTreeMap::new(alloc),
            calls: 0,
            failures: 0,
        }
    }

    /// The bytes under a name, if there is such a name.
    pub fn held(&self, name: &str) -> Option<&[u8]>
        ensures { held_by self.now name.now ≡ option_map (λ bytes. bytes.now) result }
    {
        self.files.held(name)
    }

    /// Puts bytes under a name, in place of what stood there, without counting a call.
    pub fn hold(&mut self, name: &str, bytes: &[u8]) -> Result<(), OutOfMemory>
        ensures ok { OnOk result (held_by self.new name.now ≡ Some bytes.now) }
        ensures others { SameOthers name.now (held_by self.old) (held_by self.new) }
        ensures err { OnErr result (SameNames (held_by self.old) (held_by self.new)) }
        ensures named { (call : ℕ) → is_named self.new call ≡ is_named self.old call }
        ensures counts { (calls_of self.new ≡ calls_of self.old) × (failures_of self.new ≡ failures_of self.old) × (taken_from self.new ≡ taken_from self.old) }
    {
        self.files.hold(name, bytes)
    }

    /// The call of this number is to fail. A number of a call that was made already changes nothing.
    pub fn fail_at(&mut self, call: u64) -> Result<(), OutOfMemory>
        ensures ok { OnOk result ((n : ℕ) → is_named self.new n ≡ (is_named self.old n || (n == call))) }
        ensures err { OnErr result ((n : ℕ) → is_named self.new n ≡ is_named self.old n) }
        ensures same { SameNames (held_by self.old) (held_by self.new) }
        ensures counts { (calls_of self.new ≡ calls_of self.old) × (failures_of self.new ≡ failures_of self.old) × (taken_from self.new ≡ taken_from self.old) }
    {
        match self.failing.insert(call, ()) {
            Ok(_) => Ok(()),
            Err(_) => Err(OutOfMemory),
        }
    }

    // Counts a call, and answers whether it is to fail.
    fn is_failing(&mut self) -> bool
        ensures fails { result ≡ fails_next self.old }
        ensures calls { calls_of self.new ≡ counted (calls_of self.old) }
        ensures failures { failures_of self.new ≡ failures_after self.old }
        ensures rises { failures_of self.old ≤ failures_of self.new }
        ensures same { SameNames (held_by self.old) (held_by self.new) }
        ensures named { (call : ℕ) → is_named self.new call ≡ is_named self.old call }
        ensures taken { taken_from self.new ≡ taken_from self.old }
    {
        if self.calls == u64::MAX {
            return false;
        }
        self.calls += 1;
        let fails = self.failing.contains_key(&self.calls);
        if fails {
            self.failures = self.failures.saturating_add(1);
        }
        fails
    }
}

impl Shelf for MemoryShelf {
    ghost tells = { λ _. true };

    ghost held = { held_by };

    ghost faults = { failures_of };

    ghost taken = { taken_from };

    fn take(&mut self, alloc: Global, name: &str, most: u64) -> Result<Vec<u8>, ShelfError>
        ensures fails { IsErrOf result ShelfError.Failed ↔ IsTrue (fails_next self.old) }
        ensures failures { failures_of self.new ≡ failures_after self.old }
        ensures rises { failures_of self.old ≤ failures_of self.new }
        ensures calls { calls_of self.new ≡ counted (calls_of self.old) }
        ensures named { (call : ℕ) → is_named self.new call ≡ is_named self.old call }
        ensures same { SameNames (held_by self.old) (held_by self.new) }
        ensures taken { taken_from self.old ≤ taken_from self.new }

        ensures ok { IfOk result (λ bytes. held_by self.old name.now ≡ Some bytes.items) }
        ensures at_most { IfOk result (λ bytes. length bytes.items ≤ most) }
        ensures absent { IsErrOf result ShelfError.Absent ↔ (IsFalse (fails_next self.old) × (held_by self.old name.now ≡ None)) }
        ensures too_large { IsErrOf result ShelfError.TooLarge ↔ (IsFalse (fails_next self.old) × HoldsMore (held_by self.old name.now) most) }
    {
        if self.is_failing() {
            Err(ShelfError::Failed)
        } else {
            self.files.take(alloc, name, most)
        }
    }

    fn put(&mut self, name: &str, bytes: &[u8]) -> Result<(), ShelfError>
        ensures fails { IsErrOf result ShelfError.Failed ↔ IsTrue (fails_next self.old) }
        ensures failures { failures_of self.new ≡ failures_after self.old }
        ensures rises { failures_of self.old ≤ failures_of self.new }
        ensures calls { calls_of self.new ≡ counted (calls_of self.old) }
        ensures named { (call : ℕ) → is_named self.new call ≡ is_named self.old call }
        ensures others { SameOthers name.now (held_by self.old) (held_by self.new) }
        ensures taken { taken_from self.new ≡ taken_from self.old }

        ensures ok { OnOk result (held_by self.new name.now ≡ Some bytes.now) }
        ensures err { OnErr result (SameNames (held_by self.old) (held_by self.new)) }
        ensures only { IsErrOf result ShelfError.Absent ⊎ IsErrOf result ShelfError.TooLarge → ⊥ }
    {
        if self.is_failing() {
            return Err(ShelfError::Failed);
        }
        match self.files.hold(name, bytes) {
            Ok(()) => Ok(()),
            Err(OutOfMemory) => Err(ShelfError::OutOfMemory),
        }
    }
}
