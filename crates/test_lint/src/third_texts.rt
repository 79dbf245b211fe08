//! A text of three streams laid by hand, which begins at 0x00400000, its entry: its rows and its windows; and texts that break one
//! rule each.

use std::test::Fail;
use third_lint::{
    ThirdError, ThirdRow, few_windows, four_registers, lint_third, masks_flips, masks_sets,
    masks_sets_within, never_reported, windows_inside, windows_third,
};

const ENTRY: u32 = 0x0040_0000;

// Calls a function and exits with what it leaves. The function takes a word, multiplies it by a word of memory, stores the product,
// puts the word out where the product is 0, and returns.
const THREE: [u32; 74] = [
    0x3C1D_1001, // 000 lui $29,0x1001
    0x3C1E_1001, // 004 lui $30,0x1001
    0x3C1C_1001, // 008 lui $28,0x1001
    0x3C19_0040, // 00c lui $25,0x40
    0x3739_0024, // 010 ori $25,$25,0x24
    0x3C18_0040, // 014 lui $24,0x40
    0x3718_0024, // 018 ori $24,$24,0x24
    0x0C10_0012, // 01c jal 0x00400048
    0x0000_0000, // 020 nop
    0x008A_0824, // 024 and $1,$4,$10
    0x008A_1825, // 028 or $3,$4,$10
    0x0070_1824, // 02c and $3,$3,$16
    0x0023_2025, // 030 or $4,$1,$3
    0x0080_5021, // 034 addu $10,$4,$0
    0x0080_8021, // 038 addu $16,$4,$0
    0x3402_0011, // 03c ori $2,$0,0x11
    0x0000_000C, // 040 syscall
    0x0000_000D, // 044 break 0
    0x3402_0005, // 048 ori $2,$0,0x5
    0x0000_000C, // 04c syscall
    0x0040_2021, // 050 addu $4,$2,$0
    0x0040_5021, // 054 addu $10,$2,$0
    0x0040_8021, // 058 addu $16,$2,$0
    0x8FA5_0000, // 05c lw $5,0($29)
    0x8FCB_0004, // 060 lw $11,4($30)
    0x8F91_0008, // 064 lw $17,8($28)
    0x0000_0000, // 068 nop
    0x0085_0019, // 06c multu $4,$5
    0x0000_3012, // 070 mflo $6
    0x0000_0000, // 074 nop
    0x0000_0000, // 078 nop
    0x014B_0019, // 07c multu $10,$11
    0x0000_6012, // 080 mflo $12
    0x0000_0000, // 084 nop
    0x0000_0000, // 088 nop
    0x0211_0019, // 08c multu $16,$17
    0x0000_9012, // 090 mflo $18
    0x0000_0000, // 094 nop
    0x0000_0000, // 098 nop
    0x03BE_0824, // 09c and $1,$29,$30
    0x03BE_1825, // 0a0 or $3,$29,$30
    0x007C_1824, // 0a4 and $3,$3,$28
    0x0023_E825, // 0a8 or $29,$1,$3
    0x03A0_F021, // 0ac addu $30,$29,$0
    0x03A0_E021, // 0b0 addu $28,$29,$0
    0xAFA6_0000, // 0b4 sw $6,0($29)
    0xAFCC_0004, // 0b8 sw $12,4($30)
    0xAF92_0008, // 0bc sw $18,8($28)
    0x00CC_0824, // 0c0 and $1,$6,$12
    0x00CC_1825, // 0c4 or $3,$6,$12
    0x0072_1824, // 0c8 and $3,$3,$18
    0x0023_3025, // 0cc or $6,$1,$3
    0x00C0_6021, // 0d0 addu $12,$6,$0
    0x00C0_9021, // 0d4 addu $18,$6,$0
    0x10C0_0003, // 0d8 beq $6,$0,+3
    0x0000_0000, // 0dc nop
    0x0810_0042, // 0e0 j 0x00400108
    0x0000_0000, // 0e4 nop
    0x008A_0824, // 0e8 and $1,$4,$10
    0x008A_1825, // 0ec or $3,$4,$10
    0x0070_1824, // 0f0 and $3,$3,$16
    0x0023_2025, // 0f4 or $4,$1,$3
    0x0080_5021, // 0f8 addu $10,$4,$0
    0x0080_8021, // 0fc addu $16,$4,$0
    0x3402_0001, // 100 ori $2,$0,0x1
    0x0000_000C, // 104 syscall
    0x03F9_0824, // 108 and $1,$31,$25
    0x03F9_1825, // 10c or $3,$31,$25
    0x0078_1824, // 110 and $3,$3,$24
    0x0023_F825, // 114 or $31,$1,$3
    0x03E0_C821, // 118 addu $25,$31,$0
    0x03E0_C021, // 11c addu $24,$31,$0
    0x03E0_0008, // 120 jr $31
    0x0000_0000, // 124 nop
];

// The voted registers of each word, as a mask, and the stream of its HI and LO.
const ROWS: [(u32, u8); 74] = [
    (0, 0),
    (0, 0),
    (0, 0),
    (0, 0),
    (0, 0),
    (0, 0),
    (0, 0),
    (0, 0),
    (0, 0),
    (0, 0),
    (0, 0),
    (0, 0),
    (0, 0),
    (0, 0),
    (0, 0),
    (0x0000_0010, 0),
    (0x0000_0010, 0),
    (0, 0),
    (0, 0),
    (0, 0),
    (0, 0),
    (0, 0),
    (0, 0),
    (0, 0),
    (0, 0),
    (0, 0),
    (0, 0),
    (0, 0),
    (0, 1),
    (0, 0),
    (0, 0),
    (0, 0),
    (0, 2),
    (0, 0),
    (0, 0),
    (0, 0),
    (0, 3),
    (0, 0),
    (0, 0),
    (0, 0),
    (0, 0),
    (0, 0),
    (0, 0),
    (0, 0),
    (0, 0),
    (0x7000_0000, 0),
    (0x5000_0000, 0),
    (0x1000_0000, 0),
    (0, 0),
    (0, 0),
    (0, 0),
    (0, 0),
    (0, 0),
    (0, 0),
    (0x0000_0040, 0),
    (0, 0),
    (0, 0),
    (0, 0),
    (0, 0),
    (0, 0),
    (0, 0),
    (0, 0),
    (0, 0),
    (0, 0),
    (0x0000_0010, 0),
    (0x0000_0010, 0),
    (0, 0),
    (0, 0),
    (0, 0),
    (0, 0),
    (0, 0),
    (0, 0),
    (0x8000_0000, 0),
    (0, 0),
];

// Its windows: in the midst of each vote, from there to the use, and the number and the answer of a service.
const WINDOWS: [(u32, u8); 48] = [
    (0x0040_0028, 1),
    (0x0040_002C, 1),
    (0x0040_0030, 1),
    (0x0040_0030, 3),
    (0x0040_0034, 4),
    (0x0040_0038, 4),
    (0x0040_003C, 4),
    (0x0040_0040, 2),
    (0x0040_0040, 4),
    (0x0040_004C, 2),
    (0x0040_0050, 2),
    (0x0040_0054, 2),
    (0x0040_00A0, 1),
    (0x0040_00A4, 1),
    (0x0040_00A8, 1),
    (0x0040_00A8, 3),
    (0x0040_00AC, 29),
    (0x0040_00B0, 29),
    (0x0040_00B0, 30),
    (0x0040_00B4, 28),
    (0x0040_00B4, 29),
    (0x0040_00B4, 30),
    (0x0040_00B8, 28),
    (0x0040_00B8, 30),
    (0x0040_00BC, 28),
    (0x0040_00C4, 1),
    (0x0040_00C8, 1),
    (0x0040_00CC, 1),
    (0x0040_00CC, 3),
    (0x0040_00D0, 6),
    (0x0040_00D4, 6),
    (0x0040_00D8, 6),
    (0x0040_00EC, 1),
    (0x0040_00F0, 1),
    (0x0040_00F4, 1),
    (0x0040_00F4, 3),
    (0x0040_00F8, 4),
    (0x0040_00FC, 4),
    (0x0040_0100, 4),
    (0x0040_0104, 2),
    (0x0040_0104, 4),
    (0x0040_010C, 1),
    (0x0040_0110, 1),
    (0x0040_0114, 1),
    (0x0040_0114, 3),
    (0x0040_0118, 31),
    (0x0040_011C, 31),
    (0x0040_0120, 31),
];

#[test]
fn accepts_three_streams(rt: HostRuntime) -> Result<(), Fail> {
    let text: &[u32] = &THREE;
    assert!(rt; text.len() <= 100);
    let typing = lint_third(rt.alloc(), text, ENTRY)?;
    let list = windows_third(rt.alloc(), text, &typing)?;
    let windows: &[(u32, u8)] = &WINDOWS;
    let listed = typing.rows.len() == text.len() && list.as_slice() == windows;
    assert!(rt; listed);
    for k in 0..ROWS.len() {
        let (voted, products) = ROWS[k];
        let want = ThirdRow {
            a: 0xA000_03F0,
            b: 0x4200_FC00,
            c: 0x113F_0000,
            voted,
            products,
        };
        let told = match typing.rows.as_slice().get(k) {
            Some(row) => *row == want,
            None => false,
        };
        assert!(rt; told);
    }
    masks_flips();
    masks_sets();
    masks_sets_within();
    never_reported();
    windows_inside();
    four_registers();
    few_windows();
    Ok(())
}

// The text with one word put in at a place, behind its end too, breaks this rule at this address, and no rule at a lower one.
#[test]
fn refuses_each_rule(rt: HostRuntime) -> Result<(), Fail> {
    let cases: [(usize, u32, u32, u8); 9] = [
        // a word that is no instruction
        (26, 0xFFFF_FFFF, 0x0040_0068, 1),
        // addu $5,$11,$0: two streams
        (26, 0x0160_2821, 0x0040_0068, 2),
        // sw $6,0($5), whose base no vote is on
        (26, 0xACA6_0000, 0x0040_0068, 3),
        // addu $17,$17,$0 right behind lw $17,8($28)
        (26, 0x0220_8821, 0x0040_0064, 4),
        // a last word that goes on
        (74, 0x0000_0000, 0x0040_0128, 5),
        // lw $0,0($29)
        (26, 0x8FA0_0000, 0x0040_0068, 6),
        // ori $2,$0,5 outside the forms of services
        (26, 0x3402_0005, 0x0040_0068, 7),
        // break 1
        (17, 0x0000_004D, 0x0040_0044, 8),
        // j 0x0040010c, into a vote
        (56, 0x0810_0043, 0x0040_010C, 9),
    ];
    for (at, word, address, rule) in cases {
        let whole: &[u32] = &THREE;
        let mut text = Vec::from_slice(rt.alloc(), whole)?;
        if at < text.len() {
            text[at] = word;
        } else {
            text.push(word)?;
        }
        assert!(rt; text.len() <= 100);
        let refused = lint_third(rt.alloc(), text.as_slice(), ENTRY).err()
            == Some(ThirdError::BadAt { address, rule });
        assert!(rt; refused, "{address:x} {rule}");
    }
    Ok(())
}
