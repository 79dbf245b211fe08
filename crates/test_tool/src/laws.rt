//! Laws of sources that are compiled or refused, and of audits.

use compile_chain::{accepted_or_refused, names_agree, never_both};
use run_audit::passes_or_refused;

#[test]
fn the_laws_are_there(_rt: HostRuntime) {
    names_agree();
    accepted_or_refused();
    never_both();
    passes_or_refused();
}
