//! A sink in memory.

ghost use Rattle.std.specs.Prelude.{◌≡◌, ◌≢◌, ◌+◌, ◌-◌, ◌≤◌, ◌↔◌, ◌++◌, ℕ, true, [], Some, None, IsTrue, length, IfOk, OnOk, OnErr, IsErr, vec_len, vec_capacity, if◌then◌else◌};

use crate::sink::{Sink, SinkFault};
use hard_words::OutOfMemory;
use std::alloc::Global;
use std::collections::BTreeMap;

/// A sink in memory, which has a room of its own, tells what was written, counts its writes, and fails in those that it was
/// told to fail in. Writes are counted from 1; once 18446744073709551615 writes are counted, none fails by its number.
#[derive(Drop)]
pub struct MemorySink {
    bytes: Vec<u8>,
    room: u64,
    failing: BTreeMap<u64, u64>,
    calls: u64,
    faults: u64,
    ghost reserved: { vec_len bytes + room ≤ vec_capacity bytes },
}

impl MemorySink {
    ghost use Rattle.hard_shelf.specs.Held.{written_to, room_in, faults_of, writes_of, keeps_at, keeps_next, counted};

    /// A sink with the room of so many bytes, which fails in no write but by its room. It takes all the memory for them now.
    pub fn new(alloc: Global, room: u64) -> Result<MemorySink, OutOfMemory>
        ensures empty { IfOk result (λ sink. written_to sink ≡ []) }
        ensures room { IfOk result (λ sink. room_in sink ≡ room) }
        ensures never { IfOk result (λ sink. (call : ℕ) → keeps_at sink call ≡ None) }
        ensures counts { IfOk result (λ sink. (writes_of sink ≡ 0) × (faults_of sink ≡ 0)) }
    {
        let bytes = Vec::with_capacity(alloc, room as usize)?;
        Ok(MemorySink {
            bytes,
            room,
            failing: BTreeMap::new(alloc),
            calls: 0,
            faults: 0,
        })
    }

    /// The bytes written so far.
    pub fn written(&self) -> &[u8]
        ensures { result.now ≡ written_to self.now }
    {
        self.bytes.as_slice()
    }

    /// The write of this number is to fail, and to keep the first `keep` of its bytes, or all where there are fewer. Of a number
    /// that was named before, the `keep` given last counts. A number of a write that was made already changes nothing.
    pub fn fail_at(&mut self, call: u64, keep: u64) -> Result<(), OutOfMemory>
        ensures ok { OnOk result (keeps_at self.new call ≡ Some keep) }
        ensures others { (n : ℕ) → n ≢ call → keeps_at self.new n ≡ keeps_at self.old n }
        ensures err { OnErr result ((n : ℕ) → keeps_at self.new n ≡ keeps_at self.old n) }
        ensures same { (written_to self.new ≡ written_to self.old) × (room_in self.new ≡ room_in self.old) }
        ensures counts { (writes_of self.new ≡ writes_of self.old) × (faults_of self.new ≡ faults_of self.old) }
    {
        match self.failing.insert(call, keep) {
            Ok(_) => Ok(()),
            Err(_) => Err(OutOfMemory),
        }
    }

    // Counts a write, and answers how many bytes it keeps, where it is to fail.
    fn keeping(&mut self) -> Option<u64>
        ensures keeps { result ≡ keeps_next self.old }
        ensures calls { writes_of self.new ≡ counted (writes_of self.old) }
        ensures named { (call : ℕ) → keeps_at self.new call ≡ keeps_at self.old call }
        ensures same { (written_to self.new ≡ written_to self.old) × (room_in self.new ≡ room_in self.old) × (faults_of self.new ≡ faults_of self.old) }
    {
        if self.calls == u64::MAX {
            return None;
        }
        self.calls += 1;
        self.failing.get(&self.calls).copied()
    }

    // Appends bytes that the room is enough for.
    fn append(&mut self, bytes: &[u8]) -> bool
        requires { length bytes.now ≤ room_in self.old }
        ensures done { result ≡ true }
        ensures written { written_to self.new ≡ written_to self.old ++ bytes.now }
        ensures room { room_in self.new ≡ room_in self.old - length bytes.now }
        ensures counts { (writes_of self.new ≡ writes_of self.old) × (faults_of self.new ≡ faults_of self.old) }
        ensures named { (call : ℕ) → keeps_at self.new call ≡ keeps_at self.old call }
    {
        self.room -= bytes.len() as u64;
        self.bytes.extend_from_slice(bytes).is_ok()
    }
}

impl Sink for MemorySink {
    ghost use Rattle.hard_shelf.specs.Held.{written_to, room_in, faults_of, writes_of, keeps_at, appended_next, is_fault_next, counted};

    ghost tells = { λ _. true };

    ghost written = { written_to };

    ghost faults = { faults_of };

    /// Writes bytes. It takes no memory, and fails exactly where they are more than the room left, or the write was named by
    /// [`MemorySink::fail_at`].
    fn write(&mut self, bytes: &[u8]) -> Result<(), SinkFault>
        ensures fault { IsErr result ↔ IsTrue (is_fault_next self.old bytes.now) }
        ensures written { written_to self.new ≡ written_to self.old ++ appended_next self.old bytes.now }
        ensures room { room_in self.new ≡ room_in self.old - length (appended_next self.old bytes.now) }
        ensures faults { faults_of self.new ≡ (if is_fault_next self.old bytes.now then counted (faults_of self.old) else faults_of self.old) }
        ensures rises { faults_of self.old ≤ faults_of self.new }
        ensures calls { writes_of self.new ≡ counted (writes_of self.old) }
        ensures named { (call : ℕ) → keeps_at self.new call ≡ keeps_at self.old call }
    {
        let keeping = self.keeping();
        if bytes.len() as u64 > self.room {
            self.faults = self.faults.saturating_add(1);
            return Err(SinkFault);
        }
        match keeping {
            None => {
                self.append(bytes);
                Ok(())
            }
            Some(keep) => {
                let kept = keep.min(bytes.len() as u64) as usize;
                self.append(&bytes[..kept]);
                self.faults = self.faults.saturating_add(1);
                Err(SinkFault)
            }
        }
    }
}
