//! What a well typed text promises of its runs under one fault, and where the windows of a text are. Each call does nothing; its
//! contract is the law.
ghost use Rattle.third_lint.specs.Theorems.{MasksFlips, MasksSets, MasksSetsWithin, NeverReported};
ghost use Rattle.third_lint.specs.WindowList.{WindowsInside, FourRegisters, FewWindows};

/// Of a well typed text whose run is placed and agrees: a bit inverted in a register outside the windows is masked.
pub fn masks_flips()
    ensures { MasksFlips }
{}

/// The same for any word put in any register, HI, LO or word of memory.
pub fn masks_sets()
    ensures { MasksSets }
{}

/// The same within the steps for which the premises hold.
pub fn masks_sets_within()
    ensures { MasksSetsWithin }
{}

/// The run without a change does not end in a report.
pub fn never_reported()
    ensures { NeverReported }
{}

/// Of any text: a window is at a word of the text, and of one of the registers 1 to 31.
pub fn windows_inside()
    ensures { WindowsInside }
{}

/// Of any text, accepted or not: the windows at an address are of register 2 and of three others at most.
pub fn four_registers()
    ensures { FourRegisters }
{}

/// Of any text, accepted or not: there are at most four windows a word.
pub fn few_windows()
    ensures { FewWindows }
{}
