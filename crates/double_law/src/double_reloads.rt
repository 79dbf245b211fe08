//! How often a doubled program loads through the stack pointers.

ghost use Rattle.double_law.specs.DoubleReloadsLaw.{FewReloads};

/// Where no variable is in a slot, a doubled program loads through the stack pointers twice for each parameter and each return.
/// The call does nothing; its contract is the law.
pub fn doubled_reloads()
    ensures { FewReloads }
{}
