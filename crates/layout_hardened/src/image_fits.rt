//! Laws on the size of a hardened image: it fits a file. Nothing here runs.

ghost use Rattle.layout_hardened.specs.Law.{AliasesAreFew, HardenedFits, PreparedHasStarts};

use layout_law::starts_are_blocks;
use mips_isa::encodes_decoded;

/// A small hardened image fits a file. The call does nothing; its contract is the law.
pub fn hardened_fits()
    ensures { HardenedFits }
{
    encodes_decoded();
}

/// A hardened image has few aliases where it has few blocks. The call does nothing; its contract is the law.
pub fn aliases_are_few()
    ensures { AliasesAreFew }
{}

/// The blocks of a prepared program, laid out, begin at their addresses, in the text. The call does nothing; its contract is the
/// law.
pub fn prepared_has_starts()
    ensures { PreparedHasStarts }
{
    starts_are_blocks();
}
