//! Hexadecimal numbers of at most 32 bits.

ghost use Rattle.std.specs.Prelude.{◌≡◌, ◌≤◌, ◌<◌, ◌^◌, ◌*◌, ◌+◌, length, IsTrue};
ghost use Rattle.std.specs.List.{list_all};
ghost use Rattle.hard_lines.specs.Faults.{is_hex_digit, hex_digit_value, hex_value, are_hex_digits, hex_of};

/// The number of `0x` and 1 to 8 hexadecimal digits, small or capital.
pub(crate) fn hex_of(word: &[u8]) -> Option<u32>
    ensures { result ≡ hex_of word.now }
{
    match word {
        [b'0', b'x', digits @ ..] => {
            if are_hex_digits(digits) {
                Some(hex_value(digits))
            } else {
                None
            }
        }
        _ => None,
    }
}

// 1 to 8 hexadecimal digits.
#[tactic(auto, using(std::proofs::lemmas::List::Folds::list_all_more, std::proofs::lemmas::List::Folds::list_all_at))]
fn are_hex_digits(digits: &[u8]) -> bool
    ensures { result ≡ are_hex_digits digits.now }
{
    if digits.is_empty() || digits.len() > 8 {
        return false;
    }
    for b in digits {
        if !is_hex_digit(*b) {
            return false;
        }
    }
    true
}

fn is_hex_digit(b: u8) -> bool
    ensures { result ≡ is_hex_digit b }
{
    (48 <= b && b <= 57) || ((97 <= b && b <= 102) || (65 <= b && b <= 70))
}

// The number that hexadecimal digits stand for.
#[tactic(auto, using(crate::proofs::Digits::hex_more))]
fn hex_value(digits: &[u8]) -> u32
    requires few { length digits.now ≤ 8 }
    requires digits { IsTrue (list_all is_hex_digit digits.now) }
    ensures { result ≡ hex_value digits.now }
{
    let mut value = 0;
    for b in digits {
        value = value * 16 + hex_digit_value(*b) as u32;
    }
    value
}

fn hex_digit_value(b: u8) -> u8
    requires { IsTrue (is_hex_digit b) }
    ensures value { result ≡ hex_digit_value b }
    ensures digit { result < 16 }
{
    if b <= 57 {
        b - 48
    } else if 97 <= b {
        b - 87
    } else {
        b - 55
    }
}
