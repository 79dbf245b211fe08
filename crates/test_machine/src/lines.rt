//! What texts of numbers stand for.

use hard_lines::{number_up_to, print_word, read_fault, read_inputs};
use hard_words::{Change, ChangeKind, SetPlace};
use std::test::*;

#[test]
fn reads_numbers(rt: HostRuntime) -> Result<(), Fail> {
    let cases: [(&[u8], &[u32]); 9] = [
        (b"", &[]),
        (b" \t\r\n", &[]),
        (b"7", &[7]),
        (b"4294967295", &[0xffff_ffff]),
        (b"-2147483648", &[0x8000_0000]),
        (b"1 -1\r\n2\t3\r\n", &[1, 0xffff_ffff, 2, 3]),
        (b"\n\n 5\n6", &[5, 6]),
        (b"000000000000000000000000000042", &[42]),
        (b"-0 0 -000000000000000000000000001", &[0, 0, 0xffff_ffff]),
    ];
    for (text, want) in cases {
        if text.len() <= 100 {
            let numbers = read_inputs(rt.alloc(), text)?;
            assert!(rt; numbers.as_slice() == want);
        }
    }
    Ok(())
}

#[test]
fn reads_words_of_a_command_line(rt: HostRuntime) {
    let cases: [(&[u8], u64, Option<u64>); 14] = [
        (b"0", 0, Some(0)),
        (b"1", 0, None),
        (b"65535", 65535, Some(65535)),
        (b"65536", 65535, None),
        (b"00000000000000000042", 42, Some(42)),
        (b"000000000000000000042", 42, None),
        (
            b"18446744073709551614",
            u64::MAX - 1,
            Some(18_446_744_073_709_551_614),
        ),
        (b"18446744073709551615", u64::MAX - 1, None),
        (b"18446744073709551615", u64::MAX, Some(u64::MAX)),
        (b"18446744073709551616", u64::MAX, None),
        (b"", 9, None),
        (b"-1", 9, None),
        (b"+1", 9, None),
        (b"1 ", 9, None),
    ];
    for (text, most, want) in cases {
        assert!(rt; number_up_to(text, most) == want);
    }
}

#[test]
fn prints_words(rt: HostRuntime) {
    let cases: [(u32, &[u8]); 6] = [
        (0, b"0"),
        (5, b"5"),
        (0x7fff_ffff, b"2147483647"),
        (0x8000_0000, b"-2147483648"),
        (0xffff_ffff, b"-1"),
        (0xffff_fff6, b"-10"),
    ];
    for (word, want) in cases {
        let mut text = [0; 12];
        let length = print_word(word, &mut text);
        let same = length <= 12 && &text[..length] == want;
        assert!(rt; same);
    }
}

#[test]
fn reads_faults(rt: HostRuntime) {
    let flip = ChangeKind::Flip { reg: 4, bit: 31 };
    let word = |place, word| ChangeKind::Set { place, word };
    let cases: [(&[u8], u64, ChangeKind); 9] = [
        (b"flip 7 4 31", 7, flip),
        (b"flip 007\t4  31 \r\n", 7, flip),
        (
            b"divert 10000000 4294967295\n",
            10_000_000,
            ChangeKind::Divert { to: 0xffff_ffff },
        ),
        (
            b"divert 0 0x00aBCdeF",
            0,
            ChangeKind::Divert { to: 0x00ab_cdef },
        ),
        (b"set 1 $31 -1", 1, word(SetPlace::Reg(31), 0xffff_ffff)),
        (
            b"set 1 $04 4294967295",
            1,
            word(SetPlace::Reg(4), 0xffff_ffff),
        ),
        (b"set 1 hi -2147483648", 1, word(SetPlace::Hi, 0x8000_0000)),
        (b"set 1 lo 0x0", 1, word(SetPlace::Lo, 0)),
        (
            b"set 0 0x10010004 6",
            0,
            word(SetPlace::Memory(0x1001_0004), 6),
        ),
    ];
    for (text, step, kind) in cases {
        assert!(rt; read_fault(text) == Ok(Change { step, kind }));
    }
}
