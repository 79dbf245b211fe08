//! What is counted of the words of a signed program. Each call does nothing; its contract is the law.

ghost use Rattle.layout_facts.specs.Counted.{WindowsAreFew, ReloadsAreLoads};

/// There are at most as many windows as words.
pub fn windows_are_few()
    ensures { WindowsAreFew }
{}

/// There are as many loads through the stack pointers as in the items.
pub fn reloads_are_loads()
    ensures { ReloadsAreLoads }
{}
