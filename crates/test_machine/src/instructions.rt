//! Words and instructions by hand, from the table of opcodes of the manual (Kane and Heinrich, *MIPS RISC Architecture*,
//! appendix A).

use mips_isa::{
    Instr, decode, encode, in_range, is_jump, is_product, reads, reads_register, writes,
};

// A word, its instruction, and the masks of what it reads and writes. The words are those of tests/peers/objdump.sh, which a
// disassembler reads as these instructions: rs is 9, rt is 5, rd is 7.
#[test]
fn words_with_different_fields(rt: HostRuntime) {
    for (word, instr, reading, writing) in [
        (
            0x00053F40,
            Instr::Sll {
                rd: 7,
                rt: 5,
                sh: 29,
            },
            0x00000020,
            0x00000080,
        ),
        (
            0x00053F42,
            Instr::Srl {
                rd: 7,
                rt: 5,
                sh: 29,
            },
            0x00000020,
            0x00000080,
        ),
        (
            0x00053F43,
            Instr::Sra {
                rd: 7,
                rt: 5,
                sh: 29,
            },
            0x00000020,
            0x00000080,
        ),
        (
            0x01253804,
            Instr::Sllv {
                rd: 7,
                rt: 5,
                rs: 9,
            },
            0x00000220,
            0x00000080,
        ),
        (
            0x01253806,
            Instr::Srlv {
                rd: 7,
                rt: 5,
                rs: 9,
            },
            0x00000220,
            0x00000080,
        ),
        (
            0x01253807,
            Instr::Srav {
                rd: 7,
                rt: 5,
                rs: 9,
            },
            0x00000220,
            0x00000080,
        ),
        (0x01200008, Instr::Jr { rs: 9 }, 0x00000200, 0x00000000),
        (0x0000000C, Instr::Syscall, 0x00000014, 0x00000004),
        (0x0000004D, Instr::Break { code: 1 }, 0x00000000, 0x00000000),
        (0x00003810, Instr::Mfhi { rd: 7 }, 0x00000000, 0x00000080),
        (0x00003812, Instr::Mflo { rd: 7 }, 0x00000000, 0x00000080),
        (
            0x01250018,
            Instr::Mult { rs: 9, rt: 5 },
            0x00000220,
            0x00000000,
        ),
        (
            0x01250019,
            Instr::Multu { rs: 9, rt: 5 },
            0x00000220,
            0x00000000,
        ),
        (
            0x0125001A,
            Instr::Div { rs: 9, rt: 5 },
            0x00000220,
            0x00000000,
        ),
        (
            0x0125001B,
            Instr::Divu { rs: 9, rt: 5 },
            0x00000220,
            0x00000000,
        ),
        (
            0x01253820,
            Instr::Add {
                rd: 7,
                rs: 9,
                rt: 5,
            },
            0x00000220,
            0x00000080,
        ),
        (
            0x01253821,
            Instr::Addu {
                rd: 7,
                rs: 9,
                rt: 5,
            },
            0x00000220,
            0x00000080,
        ),
        (
            0x01253822,
            Instr::Sub {
                rd: 7,
                rs: 9,
                rt: 5,
            },
            0x00000220,
            0x00000080,
        ),
        (
            0x01253823,
            Instr::Subu {
                rd: 7,
                rs: 9,
                rt: 5,
            },
            0x00000220,
            0x00000080,
        ),
        (
            0x01253824,
            Instr::And {
                rd: 7,
                rs: 9,
                rt: 5,
            },
            0x00000220,
            0x00000080,
        ),
        (
            0x01253825,
            Instr::Or {
                rd: 7,
                rs: 9,
                rt: 5,
            },
            0x00000220,
            0x00000080,
        ),
        (
            0x01253826,
            Instr::Xor {
                rd: 7,
                rs: 9,
                rt: 5,
            },
            0x00000220,
            0x00000080,
        ),
        (
            0x01253827,
            Instr::Nor {
                rd: 7,
                rs: 9,
                rt: 5,
            },
            0x00000220,
            0x00000080,
        ),
        (
            0x0125382A,
            Instr::Slt {
                rd: 7,
                rs: 9,
                rt: 5,
            },
            0x00000220,
            0x00000080,
        ),
        (
            0x0125382B,
            Instr::Sltu {
                rd: 7,
                rs: 9,
                rt: 5,
            },
            0x00000220,
            0x00000080,
        ),
        (
            0x08100003,
            Instr::J { target: 0x100003 },
            0x00000000,
            0x00000000,
        ),
        (
            0x0C100003,
            Instr::Jal { target: 0x100003 },
            0x00000000,
            0x80000000,
        ),
        (
            0x11250002,
            Instr::Beq {
                rs: 9,
                rt: 5,
                imm: 2,
            },
            0x00000220,
            0x00000000,
        ),
        (
            0x15250002,
            Instr::Bne {
                rs: 9,
                rt: 5,
                imm: 2,
            },
            0x00000220,
            0x00000000,
        ),
        (
            0x2125FFFE,
            Instr::Addi {
                rt: 5,
                rs: 9,
                imm: 0xFFFE,
            },
            0x00000200,
            0x00000020,
        ),
        (
            0x2525FFFE,
            Instr::Addiu {
                rt: 5,
                rs: 9,
                imm: 0xFFFE,
            },
            0x00000200,
            0x00000020,
        ),
        (
            0x2925FFFE,
            Instr::Slti {
                rt: 5,
                rs: 9,
                imm: 0xFFFE,
            },
            0x00000200,
            0x00000020,
        ),
        (
            0x2D25FFFE,
            Instr::Sltiu {
                rt: 5,
                rs: 9,
                imm: 0xFFFE,
            },
            0x00000200,
            0x00000020,
        ),
        (
            0x3125FFFE,
            Instr::Andi {
                rt: 5,
                rs: 9,
                imm: 0xFFFE,
            },
            0x00000200,
            0x00000020,
        ),
        (
            0x3525FFFE,
            Instr::Ori {
                rt: 5,
                rs: 9,
                imm: 0xFFFE,
            },
            0x00000200,
            0x00000020,
        ),
        (
            0x3925FFFE,
            Instr::Xori {
                rt: 5,
                rs: 9,
                imm: 0xFFFE,
            },
            0x00000200,
            0x00000020,
        ),
        (
            0x3C05FFFE,
            Instr::Lui { rt: 5, imm: 0xFFFE },
            0x00000000,
            0x00000020,
        ),
        (
            0x8D25FFFE,
            Instr::Lw {
                rt: 5,
                rs: 9,
                imm: 0xFFFE,
            },
            0x00000200,
            0x00000020,
        ),
        (
            0xAD25FFFE,
            Instr::Sw {
                rt: 5,
                rs: 9,
                imm: 0xFFFE,
            },
            0x00000220,
            0x00000000,
        ),
    ] {
        let same = decode(word) == Some(instr)
            && in_range(&instr)
            && encode(instr) == word
            && reads(&instr) == reading
            && writes(&instr) == writing;
        assert!(rt; same, "the instruction of {word}");
    }
}

// Words with a bit in a field that their instruction does not name, and one whose opcode names none.
#[test]
fn words_of_no_instruction(rt: HostRuntime) {
    for word in [
        0x00210840, 0x00210842, 0x00210843, 0x00210844, 0x00210846, 0x00210847, 0x00210008,
        0x00200808, 0x00200048, 0x0000004C, 0x00200810, 0x00010810, 0x00000850, 0x00200812,
        0x00010812, 0x00000852, 0x00210818, 0x00210058, 0x00210819, 0x00210059, 0x0021081A,
        0x0021005A, 0x0021081B, 0x0021005B, 0x00210860, 0x00210861, 0x00210862, 0x00210863,
        0x00210864, 0x00210865, 0x00210866, 0x00210867, 0x0021086A, 0x0021086B, 0x3C210001,
        0xFFFFFFFF,
    ] {
        assert!(rt; decode(word).is_none(), "the word {word}");
    }
    let wide = in_range(&Instr::Sll {
        rd: 1,
        rt: 2,
        sh: 32,
    }) || in_range(&Instr::Break { code: 0x100000 })
        || in_range(&Instr::Jal { target: 0x4000000 });
    assert!(rt; !wide);
}

#[test]
fn kinds(rt: HostRuntime) {
    let store = Instr::Sw {
        rt: 4,
        rs: 29,
        imm: 0,
    };
    let right = reads_register(&store, 29)
        && !reads_register(&store, 5)
        && is_product(&Instr::Divu { rs: 4, rt: 5 })
        && !is_product(&Instr::Mflo { rd: 4 })
        && is_jump(&Instr::Jal { target: 0 })
        && !is_jump(&Instr::Syscall);
    assert!(rt; right);
}
