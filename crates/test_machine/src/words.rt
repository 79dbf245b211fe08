//! Values at the edges of words, by hand and by the integers of another language.

use hard_words::{
    OutOfMemory, Words, add, divide, divide_signed, flip_bit, less, less_signed, mul, product,
    product_signed, shift_left, shift_right, shift_right_signed, sign16, sub,
};

#[test]
fn words_of_two_words(rt: HostRuntime) {
    // two words, and their sum, difference, product, and the first shifted by the second to the left, to the right, and to
    // the right with its sign
    for (a, b, sum, difference, times, left, right, signed) in [
        (0, 0, 0, 0, 0, 0, 0, 0),
        (5, 0, 5, 5, 0, 5, 5, 5),
        (
            0xFFFFFFFF, 1, 0, 0xFFFFFFFE, 0xFFFFFFFF, 0xFFFFFFFE, 0x7FFFFFFF, 0xFFFFFFFF,
        ),
        (
            0x7FFFFFFF, 0xFFFFFFFF, 0x7FFFFFFE, 0x80000000, 0x80000001, 0x80000000, 0, 0,
        ),
        (
            0x80000000, 0xFFFFFFFF, 0x7FFFFFFF, 0x80000001, 0x80000000, 0, 1, 0xFFFFFFFF,
        ),
        (
            0x80000000, 0x80000000, 0, 0, 0, 0x80000000, 0x80000000, 0x80000000,
        ),
        (
            0xFFFFFFF9, 2, 0xFFFFFFFB, 0xFFFFFFF7, 0xFFFFFFF2, 0xFFFFFFE4, 0x3FFFFFFE, 0xFFFFFFFE,
        ),
        (7, 0xFFFFFFFE, 5, 9, 0xFFFFFFF2, 0xC0000000, 0, 0),
        (
            0x92345678, 36, 0x9234569C, 0x92345654, 0x8F5C28E0, 0x23456780, 0x9234567, 0xF9234567,
        ),
        (
            0x12345678, 32, 0x12345698, 0x12345658, 0x468ACF00, 0x12345678, 0x12345678, 0x12345678,
        ),
    ] {
        let found = (
            add(a, b),
            sub(a, b),
            mul(a, b),
            shift_left(a, b),
            shift_right(a, b),
            shift_right_signed(a, b),
        );
        let same = found == (sum, difference, times, left, right, signed);
        assert!(rt; same, "{a} and {b}");
    }
}

#[test]
fn pairs_of_two_words(rt: HostRuntime) {
    // two words, whether the first is below, without sign and with it, their products, high and low, and their remainders
    // and quotients
    for (a, b, is_below, is_below_signed, whole, whole_signed, parts, parts_signed) in [
        (
            0,
            0,
            false,
            false,
            (0, 0),
            (0, 0),
            (0, 0xFFFFFFFF),
            (0, 0xFFFFFFFF),
        ),
        (
            5,
            0,
            false,
            false,
            (0, 0),
            (0, 0),
            (5, 0xFFFFFFFF),
            (5, 0xFFFFFFFF),
        ),
        (
            0xFFFFFFFF,
            1,
            false,
            true,
            (0, 0xFFFFFFFF),
            (0xFFFFFFFF, 0xFFFFFFFF),
            (0, 0xFFFFFFFF),
            (0, 0xFFFFFFFF),
        ),
        (
            0x7FFFFFFF,
            0xFFFFFFFF,
            true,
            false,
            (0x7FFFFFFE, 0x80000001),
            (0xFFFFFFFF, 0x80000001),
            (0x7FFFFFFF, 0),
            (0, 0x80000001),
        ),
        (
            0x80000000,
            0xFFFFFFFF,
            true,
            true,
            (0x7FFFFFFF, 0x80000000),
            (0, 0x80000000),
            (0x80000000, 0),
            (0, 0x80000000),
        ),
        (
            0x80000000,
            0x80000000,
            false,
            false,
            (0x40000000, 0),
            (0x40000000, 0),
            (0, 1),
            (0, 1),
        ),
        (
            0xFFFFFFF9,
            2,
            false,
            true,
            (1, 0xFFFFFFF2),
            (0xFFFFFFFF, 0xFFFFFFF2),
            (1, 0x7FFFFFFC),
            (0xFFFFFFFF, 0xFFFFFFFD),
        ),
        (
            7,
            0xFFFFFFFE,
            true,
            false,
            (6, 0xFFFFFFF2),
            (0xFFFFFFFF, 0xFFFFFFF2),
            (7, 0),
            (1, 0xFFFFFFFD),
        ),
        (
            0x92345678,
            36,
            false,
            true,
            (0x14, 0x8F5C28E0),
            (0xFFFFFFF0, 0x8F5C28E0),
            (0x14, 0x40FAD11),
            (0xFFFFFFEC, 0xFCF33B4B),
        ),
    ] {
        let orders = less(a, b) == is_below && less_signed(a, b) == is_below_signed;
        let products = product(a, b) == whole && product_signed(a, b) == whole_signed;
        let quotients = divide(a, b) == parts && divide_signed(a, b) == parts_signed;
        let same = orders && products && quotients;
        assert!(rt; same, "{a} and {b}");
    }
}

#[test]
fn bits_and_halves(rt: HostRuntime) {
    for (half, word) in [
        (0, 0),
        (0x7FFF, 0x7FFF),
        (0x8000, 0xFFFF8000),
        (0xFFFF, 0xFFFFFFFF),
    ] {
        assert!(rt; sign16(half) == word, "the sign of {half}");
    }
    let flips = flip_bit(0, 31) == 0x80000000
        && flip_bit(0xFFFFFFFF, 0) == 0xFFFFFFFE
        && flip_bit(0x80000000, 31) == 0;
    assert!(rt; flips);
}

#[test]
fn a_list_grows(rt: HostRuntime) -> Result<(), OutOfMemory> {
    let mut words = Words::new(rt.alloc());
    words.push(7)?;
    words.push(8)?;
    words.set(0, 9);
    let grown = words.len() == 2 && !words.is_empty();
    assert!(rt; grown);
    let again = Words::from_vec(words.into_vec());
    let kept = again.len() == 2 && again.get(0) == 9 && again.as_slice() == [9, 8].as_slice();
    assert!(rt; kept);
    Ok(())
}
