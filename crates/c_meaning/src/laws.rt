//! Laws of the meaning of C programs.

ghost use Rattle.c_meaning.specs.Laws.{CallsReturn, LevelsAgree, MoreFuel, OutputIsAdded, RecursiveIsChain};

/// More fuel never changes an end that stands, and only adds to the output of a run that is going.
pub fn more_fuel()
    ensures { MoreFuel }
{}

/// At every level of calls above the fuel a part of a program does the same.
pub fn levels_agree()
    ensures { LevelsAgree }
{}

/// What was put out before changes nothing but stays in front of the output.
pub fn output_is_added()
    ensures { OutputIsAdded }
{}

/// As many calls of recursive functions are active after each part of a program as before it.
pub fn calls_return()
    ensures { CallsReturn }
{}

/// A function is recursive exactly where a chain of calls leads from it back to it.
pub fn recursive_is_chain()
    ensures { RecursiveIsChain }
{}
