//! Smooth programs, in which no edge is critical, have no aliases. Each call does nothing; its contract is the law.

ghost use Rattle.layout_moves_law.specs.Smooth.{SmoothByGraph, SmoothByWays, GroupsAreOne, SmoothHasNoAlias, SmoothListsNone, SmoothWordsHaveNoAlias};

/// No edge is critical exactly where a block that leads to one with at least two predecessors leads to no other.
pub fn smooth_by_graph()
    ensures { SmoothByGraph }
{}

/// In a well-formed program the edges are those along which a block may follow another.
pub fn smooth_by_ways()
    ensures { SmoothByWays }
{}

/// In a smooth program each group of blocks is one block.
pub fn groups_are_one()
    ensures { GroupsAreOne }
{}

/// A smooth program with the marks of its graph has no alias.
pub fn smooth_has_no_alias()
    ensures { SmoothHasNoAlias }
{}

/// The list of its aliases is empty.
pub fn smooth_lists_none()
    ensures { SmoothListsNone }
{}

/// Nor do its words have an alias.
pub fn smooth_words_have_no_alias()
    ensures { SmoothWordsHaveNoAlias }
{}
