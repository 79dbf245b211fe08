//! Decimal numbers of any number of digits.

ghost use Rattle.std.specs.Prelude.{◌≡◌, ◌<◌, ◌+◌, ◌-◌, ◌*◌, ◌^◌, min};
ghost use Rattle.hard_lines.specs.Numbers.{is_digit, are_digits, digits_value, unsigned_value, negative_value, value_of, number_up_to};

/// The number of a word of a command line: 1 to 20 decimal digits, leading zeros among them, and
/// nothing else, with a value of at most `most`. `None` for any other text.
pub fn number_up_to(text: &[u8], most: u64) -> Option<u64>
    ensures { result ≡ number_up_to most text.now }
{
    let value = digits_value(text);
    if text.len() <= 20 && are_digits(text) && value <= most as u128 {
        Some(value as u64)
    } else {
        None
    }
}

/// The word of 32 bits that a piece of text stands for, if it is a number in range.
pub(crate) fn value_of(piece: &[u8]) -> Option<u32>
    ensures { result ≡ value_of piece.now }
{
    match piece {
        [] => None,
        [b'-', digits @ ..] => negative_value(digits),
        _ => unsigned_value(piece),
    }
}

fn unsigned_value(digits: &[u8]) -> Option<u32>
    ensures { result ≡ unsigned_value digits.now }
{
    let value = digits_value(digits);
    if are_digits(digits) && value < 1 << 32 {
        Some(value as u32)
    } else {
        None
    }
}

fn negative_value(digits: &[u8]) -> Option<u32>
    ensures { result ≡ negative_value digits.now }
{
    let value = digits_value(digits);
    if are_digits(digits) && value <= 1 << 31 {
        Some((value as u32).wrapping_neg())
    } else {
        None
    }
}

/// One decimal digit or more, and nothing else.
#[tactic(auto, using(std::proofs::lemmas::List::Folds::list_all_more, std::proofs::lemmas::List::Folds::list_all_at))]
pub(crate) fn are_digits(bytes: &[u8]) -> bool
    ensures { result ≡ are_digits bytes.now }
{
    if bytes.is_empty() {
        return false;
    }
    for b in bytes {
        if !is_digit(*b) {
            return false;
        }
    }
    true
}

fn is_digit(b: u8) -> bool
    ensures { result ≡ is_digit b }
{
    48 <= b && b <= 57
}

/// The number that digits stand for, or the greatest number where it is above.
#[tactic(auto, using(crate::proofs::Digits::digits_more))]
pub(crate) fn digits_value(digits: &[u8]) -> u128
    ensures { result ≡ min (digits_value digits.now) (2 ^ 128 - 1) }
{
    let mut value = 0;
    for b in digits {
        value = with_digit(value, *b);
    }
    value
}

fn with_digit(value: u128, b: u8) -> u128
    ensures { result ≡ min (value * 10 + (b - 48)) (2 ^ 128 - 1) }
{
    let digit = b.saturating_sub(48);
    value.saturating_mul(10).saturating_add(digit as u128)
}
