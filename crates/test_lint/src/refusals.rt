//! Texts that break a rule, against a table.

use crate::texts::{FIVE, INPUT, JUMP};
use harden_lint::{LintError, lint, typed_or_bad};
use std::test::Fail;

const ENTRY: u32 = 0x0040_0000;

// A text with the words that are put in it from a place on, behind its end too; its entry, and the lowest address at which a rule is
// broken with the lowest rule there.
#[test]
fn refuses_at_the_lowest_address(rt: HostRuntime) -> Result<(), Fail> {
    let cases: [(&[u32], usize, &[u32], u32, u32, u8); 26] = [
        // a word that is no instruction
        (&FIVE, 9, &[0xFFFF_FFFF], ENTRY, 0x0040_0024, 1),
        // a start without its head; its first word would also break rule 8
        (&FIVE, 2, &[0x0000_0000], ENTRY, 0x0040_0000, 2),
        // an entry outside the text: the words of the head are of none
        (&FIVE, 0, &[], 0x0050_0000, 0x0040_0000, 8),
        // a jump to 0, below the text
        (
            &FIVE,
            22,
            &[0x0800_0000, 0x0000_0000],
            ENTRY,
            0x0000_0000,
            2,
        ),
        // ori $4,$14,5
        (&FIVE, 9, &[0x35C4_0005], ENTRY, 0x0040_0024, 3),
        // addu $3,$0,$0: a register of no stream
        (&FIVE, 7, &[0x0000_1821], ENTRY, 0x0040_001C, 3),
        // mflo $4 with no product before it
        (&FIVE, 7, &[0x0000_2012], ENTRY, 0x0040_001C, 3),
        // mflo $2: rule 3 before rule 9
        (&FIVE, 7, &[0x0000_1012], ENTRY, 0x0040_001C, 3),
        // mult $14,$15 and mflo $4
        (&FIVE, 7, &[0x01CF_0018, 0x0000_2012], ENTRY, 0x0040_0020, 3),
        // sw $4,0($5) without a check
        (&FIVE, 8, &[0xACA4_0000], ENTRY, 0x0040_0020, 4),
        // the output without its check
        (&FIVE, 11, &[0x0000_0000], ENTRY, 0x0040_0030, 9),
        // addu $6,$5,$0, a check of two registers of one stream, and sw $4,0($5)
        (
            &FIVE,
            7,
            &[
                0x00A0_3021,
                0x10A6_0002,
                0x0000_0000,
                0x0000_004D,
                0xACA4_0000,
                0x0000_0000,
                0x0000_0000,
                0x0000_0000,
                0x3C04_0000,
                0x3C0E_0000,
                0x108E_0002,
                0x3402_0011,
                0x0000_004D,
                0x0000_000C,
                0x0000_004D,
            ],
            ENTRY,
            0x0040_002C,
            4,
        ),
        // lw $4,0($5) right before ori $4,$4,0
        (&FIVE, 7, &[0x8CA4_0000, 0x3484_0000], ENTRY, 0x0040_001C, 5),
        // mult, mflo, mult: broken at the second product
        (
            &FIVE,
            7,
            &[0x0085_0018, 0x0000_3012, 0x0085_0018],
            ENTRY,
            0x0040_0024,
            5,
        ),
        // jr $0 in a delay slot: rule 5 before rule 10
        (&JUMP, 8, &[0x0000_0008], ENTRY, 0x0040_0020, 5),
        // a last word that goes on
        (&FIVE, 22, &[0x3C04_0000], ENTRY, 0x0040_0058, 6),
        // a jump whose delay slot is outside
        (&FIVE, 22, &[0x0810_0000], ENTRY, 0x0040_0058, 6),
        // lw $29,0($4)
        (&FIVE, 7, &[0x8C9D_0000], ENTRY, 0x0040_001C, 7),
        // ori $1,$0,1 outside a head
        (&FIVE, 7, &[0x3401_0001], ENTRY, 0x0040_001C, 8),
        // ori $2,$0,1 outside a form
        (&FIVE, 7, &[0x3402_0001], ENTRY, 0x0040_001C, 9),
        // the service of no form
        (&FIVE, 12, &[0x3402_0002], ENTRY, 0x0040_0030, 9),
        // addu $15,$2,$0 where the second move of an input goes elsewhere
        (&INPUT, 13, &[0x0040_7821], ENTRY, 0x0040_0028, 9),
        // lui $4,0 in a delay slot
        (&JUMP, 8, &[0x3C04_0000], ENTRY, 0x0040_0020, 10),
        // break 1 in the delay slot of a jump
        (&JUMP, 8, &[0x0000_004D], ENTRY, 0x0040_0020, 10),
        // break 1 in the delay slot of an output's check
        (&FIVE, 12, &[0x0000_004D], ENTRY, 0x0040_0030, 10),
        // a jump into a delay slot, which is a start without a head
        (&JUMP, 7, &[0x0810_0008], ENTRY, 0x0040_0020, 2),
    ];
    for (base, at, put, entry, address, rule) in cases {
        let mut text = Vec::from_slice(rt.alloc(), base)?;
        text.truncate(at);
        text.extend_from_slice(put)?;
        let behind = at.saturating_add(put.len());
        if behind < base.len() {
            text.extend_from_slice(&base[behind..])?;
        }
        assert!(rt; text.len() <= 100);
        let refused = lint(rt.alloc(), text.as_slice(), entry).err()
            == Some(LintError::BadAt { address, rule });
        assert!(rt; refused, "{address:x} {rule}");
    }
    typed_or_bad();
    Ok(())
}
