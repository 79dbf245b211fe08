//! What holds of audits. Each call does nothing; its contract is the law.

ghost use Rattle.run_audit.specs.Audits.{NeverBoth, PassesOrRefused};

use harden_lint::typed_or_bad;
use mips_laws::end_stays;

/// No run passes and is refused.
pub fn never_both()
    ensures { NeverBoth }
{}

/// Each run, of an image whose text has at most 66,060,288 words, passes or is refused.
pub fn passes_or_refused()
    ensures { PassesOrRefused }
{
    end_stays();
    typed_or_bad();
}
