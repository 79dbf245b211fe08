//! The windows and the rows of texts that the lint accepts.

use crate::texts::{FIVE, INPUT, JUMP, MEMORY};
use harden_lint::lint;
use std::test::Fail;
use window_lister::windows;

const ENTRY: u32 = 0x0040_0000;

// A text and its windows: a register that was checked, from behind the check to its use, and the service's number and answer.
#[test]
fn lists_windows(rt: HostRuntime) -> Result<(), Fail> {
    let cases: [(&[u32], &[(u32, u8)]); 4] = [
        (
            &FIVE,
            &[
                (0x0040_0030, 4),
                (0x0040_0034, 4),
                (0x0040_0038, 2),
                (0x0040_0038, 4),
                (0x0040_0048, 4),
                (0x0040_004C, 4),
                (0x0040_0050, 2),
                (0x0040_0050, 4),
            ],
        ),
        (
            &JUMP,
            &[
                (0x0040_004C, 4),
                (0x0040_0050, 4),
                (0x0040_0054, 2),
                (0x0040_0054, 4),
            ],
        ),
        (
            &INPUT,
            &[
                (0x0040_0020, 4),
                (0x0040_0024, 4),
                (0x0040_0028, 4),
                (0x0040_002C, 2),
                (0x0040_002C, 4),
                (0x0040_0030, 2),
                (0x0040_0044, 4),
                (0x0040_0048, 4),
                (0x0040_004C, 2),
                (0x0040_004C, 4),
            ],
        ),
        (
            &MEMORY,
            &[
                (0x0040_0040, 5),
                (0x0040_0040, 15),
                (0x0040_0044, 5),
                (0x0040_0044, 15),
                (0x0040_0048, 5),
                (0x0040_0048, 15),
                (0x0040_004C, 15),
                (0x0040_0054, 4),
                (0x0040_0058, 4),
                (0x0040_005C, 2),
                (0x0040_005C, 4),
                (0x0040_006C, 4),
                (0x0040_0070, 4),
                (0x0040_0074, 2),
                (0x0040_0074, 4),
            ],
        ),
    ];
    for (text, want) in cases {
        assert!(rt; text.len() <= 100);
        let typing = lint(rt.alloc(), text, ENTRY)?;
        let list = windows(rt.alloc(), text, &typing)?;
        let listed = typing.rows.len() == text.len() && list.as_slice() == want;
        assert!(rt; listed);
    }
    Ok(())
}

// The registers that are guarded at words of the first text: from behind the check to the service that it guards, but not at the break
// that the check skips.
#[test]
fn tells_guarded_registers(rt: HostRuntime) -> Result<(), Fail> {
    let text: &[u32] = &FIVE;
    assert!(rt; text.len() <= 100);
    let typing = lint(rt.alloc(), text, ENTRY)?;
    let cases: [(usize, u32); 6] = [(11, 0), (12, 16), (13, 0), (14, 16), (15, 0), (20, 16)];
    for (at, guarded) in cases {
        let told = match typing.rows.as_slice().get(at) {
            Some(row) => row.guarded == guarded,
            None => false,
        };
        assert!(rt; told);
    }
    Ok(())
}
