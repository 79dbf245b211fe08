//! Shelves and sinks: that calls succeed with ample memory, and what the outside does in mid-stream.

ghost use Rattle.std.specs.Prelude.{Some};

use hard_shelf::{
    DirShelf, MemoryShelf, MemorySink, NeverFails, OutSink, Shelf, ShelfError, Sink, read_all,
    write_all,
};
use std::io;
use std::io::{ErrorKind, Read, Write};
use std::test::Fail;

/// What the reader gives.
const TWELVE: [u8; 12] = [0, 1, 2, 3, 4, 5, 6, 7, 8, 9, 10, 11];

// A reader that gives twelve bytes, at most 3 of them a call, is interrupted in its second call, and fails in one of a number.
#[derive(Drop)]
struct Dripping {
    calls: u32,
    fails_at: u32,
    given: usize,
}

impl Read for Dripping {
    fn read(&mut self, buf: &mut [u8]) -> io::Result<usize> {
        self.calls = self.calls.saturating_add(1);
        if self.calls == self.fails_at {
            return Err(io::Error::from(ErrorKind::Other));
        }
        if self.calls == 2 {
            return Err(io::Error::from(ErrorKind::Interrupted));
        }
        let left = &TWELVE[self.given.min(12)..];
        let count = left.len().min(buf.len()).min(3);
        buf[..count].copy_from_slice(&left[..count]);
        self.given = self.given.saturating_add(count);
        Ok(count)
    }
}

// A writer that takes one byte a call, and none once it is full.
#[derive(Drop)]
struct Narrow {
    bytes: Vec<u8>,
    room: usize,
}

impl Write for Narrow {
    fn write(&mut self, buf: &[u8]) -> io::Result<usize> {
        if self.bytes.len() >= self.room || buf.is_empty() {
            return Ok(0);
        }
        match self.bytes.push(buf[0]) {
            Ok(()) => Ok(1),
            Err(_) => Ok(0),
        }
    }

    fn flush(&mut self) -> io::Result<()> {
        Ok(())
    }
}

#[test]
fn memory_holds_and_gives(rt: HostRuntime) -> Result<(), Fail> {
    let mut shelf = MemoryShelf::new(rt.alloc());
    shelf.fail_at(2)?;
    shelf.fail_at(5)?;
    shelf.hold("a", b"four")?;
    let mut kept = NeverFails::new(rt.alloc());
    kept.hold("a", b"four")?;
    let names = [("a", 4), ("a", 4), ("b", 4), ("a", 3), ("a", 4), ("a", 4)];
    let wants = [
        Ok(4),
        Err(ShelfError::Failed),
        Err(ShelfError::Absent),
        Err(ShelfError::TooLarge),
        Err(ShelfError::Failed),
        Ok(4),
    ];
    for at in 0..6 {
        let (name, most) = names[at];
        let got = shelf.take(rt.alloc(), name, most).map(|bytes| bytes.len());
        assert!(rt; got == wants[at], "call {at}");
    }
    let same = kept.take(rt.alloc(), "a", 4)?.as_slice() == b"four".as_slice();
    let put = shelf.put("b", b"").is_ok() && kept.put("b", b"x").is_ok();
    let held = shelf.held("b") == Some(b"".as_slice())
        && kept.held("b") == Some(b"x".as_slice())
        && shelf.held("c").is_none();
    assert!(rt; same && put && held);
    Ok(())
}

#[test]
fn a_sink_fails_where_it_is_told_to(rt: HostRuntime) -> Result<(), Fail> {
    let mut sink = MemorySink::new(rt.alloc(), 8)?;
    sink.fail_at(2, 9)?;
    sink.fail_at(2, 2)?;
    sink.fail_at(4, 9)?;
    let cases: [(&[u8], bool, &[u8]); 5] = [
        (b"abc", true, b"abc"),
        (b"def", false, b"abcde"),
        (b"ghij", false, b"abcde"),
        (b"kl", false, b"abcdekl"),
        (b"m", true, b"abcdeklm"),
    ];
    for (bytes, is_written, stands) in cases {
        let right = sink.write(bytes).is_ok() == is_written && sink.written() == stands;
        assert!(rt; right);
    }
    Ok(())
}

#[test]
fn loops_go_on_and_stop(rt: HostRuntime) -> Result<(), Fail> {
    // the call that fails, how much is asked for, what is answered, faults and bytes read
    let reads = [
        (0, 100, Ok(12), 1, 12),
        (5, 100, Err(ShelfError::Failed), 2, 9),
        (0, 11, Err(ShelfError::TooLarge), 1, 12),
        (0, 12, Ok(12), 1, 12),
    ];
    for (fails_at, most, want, faulty, read) in reads {
        let mut reader = Dripping {
            calls: 0,
            fails_at,
            given: 0,
        };
        let (mut faults, mut taken) = (0, 0);
        let got = read_all(rt.alloc(), &mut reader, most, &mut faults, &mut taken);
        let right = match got {
            Ok(bytes) => { want == Ok(bytes.len()) && bytes.as_slice() == TWELVE.as_slice() }
            Err(error) => want == Err(error),
        };
        let counted = faults == faulty && taken == read;
        assert!(rt; right && counted, "at {fails_at} {most}");
    }
    for (room, done, count) in [(4, true, 0), (3, false, 1)] {
        let mut faults = 0;
        let mut writer = Narrow {
            bytes: Vec::new(rt.alloc()),
            room,
        };
        let got = write_all(&mut writer, b"four", &mut faults).is_ok();
        let right = got == done && faults == count && writer.bytes.len() == room;
        assert!(rt; right, "with {room}");
    }
    Ok(())
}

#[test]
fn folder_and_output_are_real(rt: HostRuntime) -> Result<(), Fail> {
    let mut shelf = DirShelf::new(&rt);
    let mut bytes = Vec::new(rt.alloc());
    for at in 0..10_000_u32 {
        bytes.push((at % 251) as u8)?;
    }
    let put = shelf.put("machine_tests.bin", &bytes).is_ok();
    let given = match shelf.take(rt.alloc(), "machine_tests.bin", 10_000) {
        Ok(found) => found.as_slice() == bytes.as_slice(),
        Err(_) => false,
    };
    let large = shelf.take(rt.alloc(), "machine_tests.bin", 9_999).err();
    let absent = shelf.take(rt.alloc(), "machine_tests.absent", 2).err();
    let refused = large == Some(ShelfError::TooLarge) && absent == Some(ShelfError::Absent);
    std::fs::remove_file(&rt, "machine_tests.bin")?;
    let written = OutSink::new(&rt).write(b"written\n").is_ok();
    assert!(rt; put && given && refused && written);
    Ok(())
}
