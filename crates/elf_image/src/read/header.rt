//! The header's checks.
ghost use Rattle.std.specs.Prelude.{◌≡◌, ◌+◌, ◌*◌, ◌≤◌, length, IsTrue};
ghost use Rattle.elf_image.specs.Held.{number_at};
ghost use Rattle.elf_image.specs.Refusal.{header_checks, field_checks, table_checks, first_fault, field_fits, fields_fit};

use super::ImageError;
use super::numbers::{byte_at, half_at, word_at};
use crate::layout::{Field, HEADER};

/// The first fault of the header, the entry and the place of the sections not looked at.
#[tactic(auto, unfolding(crate::specs::Refusal::header_checks))]
pub(crate) fn header_fault(bytes: &[u8]) -> Option<ImageError>
    ensures { result ≡ first_fault (header_checks bytes.now) }
{
    if bytes.len() < 52 {
        return Some(ImageError::Truncated {
            need: 52,
            have: bytes.len() as u64,
        });
    }
    if word_at(bytes, 0) != 0x7f45_4c46 {
        return Some(ImageError::NotElf);
    }
    if half_at(bytes, 18) != 8 {
        return Some(ImageError::NotMips);
    }
    table_fault(bytes)
}

/// The first of the header's fixed fields whose value differs.
#[tactic(auto, unfolding(crate::specs::Refusal::table_checks))]
fn table_fault(bytes: &[u8]) -> Option<ImageError>
    requires { 52 ≤ length bytes.now }
    ensures { result ≡ first_fault (table_checks bytes.now) }
{
    field_fault(bytes, &HEADER)
}

/// The first field whose value differs.
#[tactic(auto, unfolding(crate::specs::Refusal::field_checks))]
fn field_fault(bytes: &[u8], fields: &[Field]) -> Option<ImageError>
    requires size { 52 ≤ length bytes.now }
    requires fields { IsTrue (fields_fit fields.now) }
    ensures { result ≡ first_fault (field_checks fields.now bytes.now) }
{
    for f in fields {
        if field_value(bytes, *f) != f.value {
            return Some(ImageError::BadHeader { field: f.at });
        }
    }
    None
}

/// The value that the file has in a field.
fn field_value(bytes: &[u8], field: Field) -> u32
    requires size { 52 ≤ length bytes.now }
    requires field { IsTrue (field_fits field) }
    ensures { result ≡ number_at field.size field.at bytes.now }
{
    let at = field.at as usize;
    match field.size {
        1 => byte_at(bytes, at) as u32,
        2 => half_at(bytes, at) as u32,
        _ => word_at(bytes, at),
    }
}
