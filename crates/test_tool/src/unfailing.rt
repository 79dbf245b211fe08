//! The tool over files in memory that never fail.

use hard_shelf::NeverFails;
use hardcc_core::run_unfailing;
use std::alloc::Global;
use std::test::Fail;

// The status of words over a shelf.
fn status(alloc: Global, words: &[&str], shelf: &mut NeverFails) -> Result<u8, Fail> {
    let mut owned = Vec::new(alloc);
    for word in words {
        owned.push(String::from_str(alloc, word)?)?;
    }
    Ok(run_unfailing(alloc, &owned, shelf))
}

#[test]
fn an_accepted_source_is_compiled(rt: HostRuntime) -> Result<(), Fail> {
    let alloc = rt.alloc();
    let mut shelf = NeverFails::new(alloc);
    shelf.hold("a.c", b"int main(void){return 0;}")?;
    let compiled = status(alloc, &["compile", "a.c", "a.img"], &mut shelf)?;
    let missed = status(alloc, &["list", "b.img"], &mut shelf)?;
    assert!(rt; compiled == 0 && shelf.held("a.img").is_some() && missed == 7);
    Ok(())
}
