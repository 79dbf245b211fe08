//! Texts laid by hand. Each begins at 0x00400000, its entry.

/// Puts out 5 and exits with 0: a head, a word in both streams, the output with its check, and the exit with its own.
pub(crate) const FIVE: [u32; 22] = [
    0x3B18_0001, // 00 xori $24,$24,1
    0x0000_0000, // 04 nop
    0x3401_0001, // 08 ori $1,$0,1
    0x341C_0000, // 0c ori $28,$0,0
    0x1301_0002, // 10 beq $24,$1,+2
    0x0000_0000, // 14 nop
    0x0000_008D, // 18 break 2
    0x3C04_0000, // 1c lui $4,0
    0x3C0E_0000, // 20 lui $14,0
    0x3484_0005, // 24 ori $4,$4,5
    0x35CE_0005, // 28 ori $14,$14,5
    0x108E_0002, // 2c beq $4,$14,+2
    0x3402_0001, // 30 ori $2,$0,1
    0x0000_004D, // 34 break 1
    0x0000_000C, // 38 syscall
    0x3C04_0000, // 3c lui $4,0
    0x3C0E_0000, // 40 lui $14,0
    0x108E_0002, // 44 beq $4,$14,+2
    0x3402_0011, // 48 ori $2,$0,17
    0x0000_004D, // 4c break 1
    0x0000_000C, // 50 syscall
    0x0000_004D, // 54 break 1
];

/// Jumps from its first block to its second, at 0x00400024, which exits with 0.
pub(crate) const JUMP: [u32; 23] = [
    0x3B18_0001, // 00 xori $24,$24,1
    0x0000_0000, // 04 nop
    0x3401_0001, // 08 ori $1,$0,1
    0x341C_0000, // 0c ori $28,$0,0
    0x1301_0002, // 10 beq $24,$1,+2
    0x0000_0000, // 14 nop
    0x0000_008D, // 18 break 2
    0x0810_0009, // 1c j 0x00400024
    0x0000_0000, // 20 nop
    0x3B18_0003, // 24 xori $24,$24,3
    0x0000_0000, // 28 nop
    0x3401_0002, // 2c ori $1,$0,2
    0x341C_0000, // 30 ori $28,$0,0
    0x1301_0002, // 34 beq $24,$1,+2
    0x0000_0000, // 38 nop
    0x0000_008D, // 3c break 2
    0x3C04_0000, // 40 lui $4,0
    0x3C0E_0000, // 44 lui $14,0
    0x108E_0002, // 48 beq $4,$14,+2
    0x3402_0011, // 4c ori $2,$0,17
    0x0000_004D, // 50 break 1
    0x0000_000C, // 54 syscall
    0x0000_004D, // 58 break 1
];

/// Takes a word of the input behind a check of `$4` and `$14`, and exits with it.
pub(crate) const INPUT: [u32; 21] = [
    0x3B18_0001, // 00 xori $24,$24,1
    0x0000_0000, // 04 nop
    0x3401_0001, // 08 ori $1,$0,1
    0x341C_0000, // 0c ori $28,$0,0
    0x1301_0002, // 10 beq $24,$1,+2
    0x0000_0000, // 14 nop
    0x0000_008D, // 18 break 2
    0x108E_0002, // 1c beq $4,$14,+2
    0x0000_0000, // 20 nop
    0x0000_004D, // 24 break 1
    0x3402_0005, // 28 ori $2,$0,5
    0x0000_000C, // 2c syscall
    0x0040_2021, // 30 addu $4,$2,$0
    0x0040_7021, // 34 addu $14,$2,$0
    0x0000_0000, // 38 nop
    0x0000_0000, // 3c nop
    0x108E_0002, // 40 beq $4,$14,+2
    0x3402_0011, // 44 ori $2,$0,17
    0x0000_004D, // 48 break 1
    0x0000_000C, // 4c syscall
    0x0000_004D, // 50 break 1
];

/// Puts out the first word of memory, and stores a sum in its place, which is not to overflow.
pub(crate) const MEMORY: [u32; 31] = [
    0x3B18_0001, // 00 xori $24,$24,1
    0x0000_0000, // 04 nop
    0x3401_0001, // 08 ori $1,$0,1
    0x341C_0000, // 0c ori $28,$0,0
    0x1301_0002, // 10 beq $24,$1,+2
    0x0000_0000, // 14 nop
    0x0000_008D, // 18 break 2
    0x3C05_1001, // 1c lui $5,0x1001
    0x3C0F_1001, // 20 lui $15,0x1001
    0x8CA4_0000, // 24 lw $4,0($5)
    0x8DEE_0004, // 28 lw $14,4($15)
    0x3C06_2000, // 2c lui $6,0x2000
    0x3C10_2000, // 30 lui $16,0x2000
    0x00C6_3020, // 34 add $6,$6,$6
    0x0210_8020, // 38 add $16,$16,$16
    0x10AF_0002, // 3c beq $5,$15,+2
    0x0000_0000, // 40 nop
    0x0000_004D, // 44 break 1
    0xACA6_0000, // 48 sw $6,0($5)
    0xADF0_0004, // 4c sw $16,4($15)
    0x108E_0002, // 50 beq $4,$14,+2
    0x3402_0001, // 54 ori $2,$0,1
    0x0000_004D, // 58 break 1
    0x0000_000C, // 5c syscall
    0x3C04_0000, // 60 lui $4,0
    0x3C0E_0000, // 64 lui $14,0
    0x108E_0002, // 68 beq $4,$14,+2
    0x3402_0011, // 6c ori $2,$0,17
    0x0000_004D, // 70 break 1
    0x0000_000C, // 74 syscall
    0x0000_004D, // 78 break 1
];
