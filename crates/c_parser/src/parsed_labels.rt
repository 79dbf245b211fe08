//! The law that the grammar makes no clause of a `switch` without a label.

ghost use Rattle.c_parser.specs.Laws.{ParsedIsLabelled};

/// No clause of a `switch` in a program that tokens spell is without a label.
pub fn parsed_is_labelled()
    ensures { ParsedIsLabelled }
{}
