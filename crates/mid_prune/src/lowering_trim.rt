//! A program in blocks without its last globals, which no step uses, does the same.

ghost use Rattle.mid_prune.specs.Trimmed.{TrimmedStays};

/// A program in blocks without globals that no step uses runs as before, stays proper, and its calls keep their room.
pub fn trimmed_stays()
    ensures { TrimmedStays }
{}
