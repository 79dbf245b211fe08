//! What each instruction leaves, by the MIPS I manual (Kane and Heinrich, *MIPS RISC Architecture*,
//! appendix A). All expected values are worked out by hand.

use elf_image::{Aliases, Image, Windows, fits};
use hard_words::{Change, ChangeKind, SetPlace, Words};
use mips_machine::{End, Machine};
use std::alloc::Global;
use std::process::Abort;
use std::test::*;

// A machine about to execute words that stand at 0x00400000, with one word of memory.
fn laid(rt: &impl Abort, alloc: Global, words: &[u32], feed: &[u32]) -> Result<Machine, Fail> {
    let image = Image {
        entry: 0x0040_0000,
        text: Words::from_vec(Vec::from_slice(alloc, words)?),
        initial: Words::new(alloc),
        memory_words: 1,
        windows: Windows::new(alloc),
        aliases: Aliases::new(alloc),
    };
    let ready = fits(&image) && feed.len() <= 1_000_000;
    assert!(rt; ready);
    let machine = Machine::boot(alloc, &image, Vec::from_slice(alloc, feed)?)?;
    Ok(machine)
}

// Makes steps, and keeps what they put out.
fn ran(alloc: Global, machine: &mut Machine, steps: u64) -> Result<Vec<u32>, Fail> {
    let mut output = Vec::new(alloc);
    for _ in 0..steps {
        if let Some(word) = machine.step() {
            output.push(word)?;
        }
    }
    Ok(output)
}

// The registers that the next test looks at.
const SHOWN: [usize; 6] = [6, 7, 8, 9, 10, 31];

#[test]
fn goes_on(rt: HostRuntime) -> Result<(), Fail> {
    // Words, steps, registers 6 to 10 and 31, and the address of the next step.
    let cases: [(&[u32], u64, [u32; 6], u32); 8] = [
        // A taken branch: its delay slot is executed, the word behind it isn't.
        (
            &[0x1000_0002, 0x2408_0001, 0x2409_0002, 0x240A_0003],
            3,
            [0, 0, 1, 0, 3, 0],
            0x0040_0010,
        ),
        // A branch that isn't taken.
        (
            &[0x1400_0002, 0x2408_0001, 0x2409_0002, 0x240A_0003],
            3,
            [0, 0, 1, 2, 0, 0],
            0x0040_000C,
        ),
        // A branch back to itself, counted from its delay slot.
        (
            &[0x1000_FFFF, 0x2508_0001],
            5,
            [0, 0, 2, 0, 0, 0],
            0x0040_0004,
        ),
        // A call and the return behind its delay slot.
        (
            &[
                0x0C10_0004,
                0x2408_0001,
                0x2409_0002,
                0x0000_018D,
                0x03E0_0008,
                0x240A_0003,
            ],
            5,
            [0, 0, 1, 2, 3, 0x0040_0008],
            0x0040_000C,
        ),
        // A jump.
        (
            &[0x0810_0003, 0x2408_0001, 0x2409_0002, 0x240A_0003],
            3,
            [0, 0, 1, 0, 3, 0],
            0x0040_0010,
        ),
        // A store, a load, and a use two words later.
        (
            &[
                0x3C05_1001,
                0x2404_0007,
                0xACA4_0000,
                0x8CA6_0000,
                0x0000_0000,
                0x00C6_3821,
            ],
            6,
            [7, 14, 0, 0, 0, 0],
            0x0040_0018,
        ),
        // A load into register 0 stays without effect.
        (
            &[0x3C05_1001, 0x8CA0_0000, 0x2408_0005],
            3,
            [0, 0, 5, 0, 0, 0],
            0x0040_000C,
        ),
        // A product, its high word, and two steps until the next product.
        (
            &[
                0x2404_FFFF,
                0x0084_0019,
                0x0000_3010,
                0x0000_0000,
                0x0000_0000,
                0x0084_0018,
                0x0000_3812,
            ],
            7,
            [0xFFFF_FFFE, 1, 0, 0, 0, 0],
            0x0040_001C,
        ),
    ];
    for (words, steps, registers, at) in cases {
        let mut machine = laid(&rt, rt.alloc(), words, &[])?;
        let _ = ran(rt.alloc(), &mut machine, steps)?;
        let mut same = machine.end.is_none() && machine.pc == at;
        for place in 0..6 {
            let found = machine.regs.as_slice().get(SHOWN[place]);
            same = same && found == Some(&registers[place]);
        }
        assert!(rt; same, "at {at}");
    }
    Ok(())
}

// A machine that has put a into register 4, b into register 5, and executed one word more.
fn worked(rt: &impl Abort, alloc: Global, word: u32, a: u32, b: u32) -> Result<Machine, Fail> {
    let words = [
        0x3C04_0000 | a >> 16,
        0x3484_0000 | a & 0xFFFF,
        0x3C05_0000 | b >> 16,
        0x34A5_0000 | b & 0xFFFF,
        word,
    ];
    let mut machine = laid(rt, alloc, &words, &[])?;
    let _ = ran(alloc, &mut machine, 5)?;
    Ok(machine)
}

#[test]
fn works_out(rt: HostRuntime) -> Result<(), Fail> {
    // A word that writes register 6, registers 4 and 5, and register 6.
    let cases: [(u32, u32, u32, u32); 43] = [
        (0x0005_3040, 0, 0x8000_0001, 2),
        (0x0005_37C0, 0, 3, 0x8000_0000),
        (0x0005_3000, 0, 0xDEAD_BEEF, 0xDEAD_BEEF),
        (0x0005_3042, 0, 0x8000_0001, 0x4000_0000),
        (0x0005_37C2, 0, 0xFFFF_FFFF, 1),
        (0x0005_3043, 0, 0x8000_0000, 0xC000_0000),
        (0x0005_37C3, 0, 0x8000_0000, 0xFFFF_FFFF),
        (0x0005_37C3, 0, 0x7FFF_FFFF, 0),
        (0x0085_3004, 33, 1, 2),
        (0x0085_3004, 32, 0x1234_5678, 0x1234_5678),
        (0x0085_3006, 31, 0x8000_0000, 1),
        (0x0085_3006, 0xFFFF_FFE0, 0x8000_0000, 0x8000_0000),
        (0x0085_3007, 4, 0x8000_0000, 0xF800_0000),
        (0x0085_3007, 36, 0x7FFF_FFFF, 0x07FF_FFFF),
        (0x0085_3020, 0x7FFF_FFFF, 0x8000_0000, 0xFFFF_FFFF),
        (0x0085_3021, 0xFFFF_FFFF, 2, 1),
        (0x0085_3022, 0, 0x7FFF_FFFF, 0x8000_0001),
        (0x0085_3022, 0x8000_0000, 0x8000_0000, 0),
        (0x0085_3023, 0, 1, 0xFFFF_FFFF),
        (0x0085_3024, 0xF0F0_F0F0, 0xFF00_FF00, 0xF000_F000),
        (0x0085_3025, 0xF0F0_F0F0, 0xFF00_FF00, 0xFFF0_FFF0),
        (0x0085_3026, 0xF0F0_F0F0, 0xFF00_FF00, 0x0FF0_0FF0),
        (0x0085_3027, 0xF0F0_F0F0, 0xFF00_FF00, 0x000F_000F),
        (0x0085_302A, 0x8000_0000, 0x7FFF_FFFF, 1),
        (0x0085_302A, 0x7FFF_FFFF, 0x8000_0000, 0),
        (0x0085_302A, 0xFFFF_FFFF, 0xFFFF_FFFF, 0),
        (0x0085_302B, 0x8000_0000, 0x7FFF_FFFF, 0),
        (0x0085_302B, 0x7FFF_FFFF, 0x8000_0000, 1),
        (0x2086_8000, 0x0000_8000, 0, 0),
        (0x2486_FFFF, 0, 0, 0xFFFF_FFFF),
        (0x2486_7FFF, 0x7FFF_FFFF, 0, 0x8000_7FFE),
        (0x2886_8000, 0xFFFF_7FFF, 0, 1),
        (0x2886_8000, 0xFFFF_8000, 0, 0),
        (0x2886_0000, 0x8000_0000, 0, 1),
        (0x2C86_FFFF, 0xFFFF_FFFE, 0, 1),
        (0x2C86_FFFF, 0xFFFF_FFFF, 0, 0),
        (0x2C86_7FFF, 0x0000_8000, 0, 0),
        (0x3086_FFFF, 0x1234_ABCD, 0, 0x0000_ABCD),
        (0x3486_8000, 0x1234_0000, 0, 0x1234_8000),
        (0x3886_FFFF, 0xFFFF_FFFF, 0, 0xFFFF_0000),
        (0x3C06_8000, 0, 0, 0x8000_0000),
        (0x0085_0021, 1, 2, 0),
        (0x0000_3021, 1, 2, 0),
    ];
    for (word, a, b, value) in cases {
        let machine = worked(&rt, rt.alloc(), word, a, b)?;
        let same = machine.end.is_none()
            && machine.regs.get(6) == value
            && machine.regs.get(0) == 0;
        assert!(rt; same, "{word} of {a} and {b}");
    }
    // Sums and differences that don't fit.
    let cases = [
        (0x0085_3020, 0x7FFF_FFFF, 1),
        (0x0085_3020, 0x8000_0000, 0xFFFF_FFFF),
        (0x0085_3022, 0x8000_0000, 1),
        (0x0085_3022, 0, 0x8000_0000),
        (0x2086_FFFF, 0x8000_0000, 0),
        (0x2086_0001, 0x7FFF_FFFF, 0),
    ];
    for (word, a, b) in cases {
        let machine = worked(&rt, rt.alloc(), word, a, b)?;
        let overflow = End::Exception {
            code: 12,
            at: 0x0040_0010,
        };
        let ended = machine.end == Some(overflow) && machine.regs.get(6) == 0;
        assert!(rt; ended, "{word} of {a} and {b}");
    }
    Ok(())
}

#[test]
fn multiplies_and_divides(rt: HostRuntime) -> Result<(), Fail> {
    // A word, registers 4 and 5, and HI and LO.
    let cases: [(u32, u32, u32, u32, u32); 13] = [
        (0x0085_0018, 0xFFFF_FFFF, 0xFFFF_FFFF, 0, 1),
        (0x0085_0018, 0x8000_0000, 0x8000_0000, 0x4000_0000, 0),
        (0x0085_0018, 0x8000_0000, 1, 0xFFFF_FFFF, 0x8000_0000),
        (
            0x0085_0018,
            0x7FFF_FFFF,
            0x8000_0000,
            0xC000_0000,
            0x8000_0000,
        ),
        (0x0085_0019, 0xFFFF_FFFF, 0xFFFF_FFFF, 0xFFFF_FFFE, 1),
        (0x0085_0019, 0x8000_0000, 2, 1, 0),
        (0x0085_001A, 0xFFFF_FFF9, 2, 0xFFFF_FFFF, 0xFFFF_FFFD),
        (0x0085_001A, 7, 0xFFFF_FFFE, 1, 0xFFFF_FFFD),
        (0x0085_001A, 0x8000_0000, 0xFFFF_FFFF, 0, 0x8000_0000),
        (0x0085_001A, 5, 0, 5, 0xFFFF_FFFF),
        (0x0085_001A, 0xFFFF_FFFB, 0, 0xFFFF_FFFB, 0xFFFF_FFFF),
        (0x0085_001B, 0xFFFF_FFFF, 2, 1, 0x7FFF_FFFF),
        (0x0085_001B, 9, 0, 9, 0xFFFF_FFFF),
    ];
    for (word, a, b, hi, lo) in cases {
        let machine = worked(&rt, rt.alloc(), word, a, b)?;
        let same = machine.end.is_none() && machine.hi == hi && machine.lo == lo;
        assert!(rt; same, "{word} of {a} and {b}");
    }
    Ok(())
}

#[test]
fn takes_the_feed_and_changes(rt: HostRuntime) -> Result<(), Fail> {
    let words = [
        0x2402_0005,
        0x0000_000C,
        0x1000_0002,
        0x2408_0001,
        0x2409_0002,
        0x240A_0003,
    ];
    let mut machine = laid(&rt, rt.alloc(), &words, &[9, 8])?;
    let _ = ran(rt.alloc(), &mut machine, 2)?;
    let fed = machine.regs.get(2) == 9 && machine.fed == 1;
    assert!(rt; fed);
    for kind in [
        ChangeKind::Flip { reg: 2, bit: 31 },
        ChangeKind::Flip { reg: 0, bit: 3 },
        ChangeKind::Divert { to: 0x0040_0010 },
    ] {
        machine.apply(Change { step: 2, kind });
    }
    let flipped = machine.regs.get(2) == 0x8000_0009 && machine.regs.get(0) == 0;
    let on_its_way = machine.npc == 0x0040_000C;
    assert!(rt; flipped && on_its_way);
    let _ = ran(rt.alloc(), &mut machine, 1)?;
    machine.apply(Change {
        step: 2,
        kind: ChangeKind::Divert { to: 0x0040_0010 },
    });
    let led = machine.npc == 0x0040_0010;
    assert!(rt; led);
    let _ = ran(rt.alloc(), &mut machine, 2)?;
    let went = machine.regs.get(8) == 1 && machine.regs.get(9) == 2;
    assert!(rt; went);
    Ok(())
}

#[test]
fn puts_words_in_places(rt: HostRuntime) -> Result<(), Fail> {
    let mut machine = laid(&rt, rt.alloc(), &[0], &[])?;
    for (place, word) in [
        (SetPlace::Reg(7), 70),
        (SetPlace::Reg(0), 1),
        (SetPlace::Hi, 2),
        (SetPlace::Lo, 3),
        (SetPlace::Memory(0x1001_0000), 4),
        (SetPlace::Memory(0x1001_0002), 5),
        (SetPlace::Memory(0x1001_0004), 6),
        (SetPlace::Memory(0), 7),
    ] {
        machine.apply(Change {
            step: 0,
            kind: ChangeKind::Set { place, word },
        });
    }
    let put = machine.regs.get(7) == 70
        && machine.regs.get(0) == 0
        && machine.hi == 2
        && machine.lo == 3
        && machine.memory.as_slice().first() == Some(&4);
    assert!(rt; put);
    Ok(())
}
