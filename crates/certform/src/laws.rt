//! The laws of what is written.
ghost use Rattle.certform.specs.Faithful.{FaithfulIsAccepted, TablesFit, WrittenIsFaithful};

/// What is written for a canonical tour, its length and a sound tree is of the grammar, sound, and has the same tree: its splits, and in
/// each leaf the same duals of cities, cuts and conditions. Only the order of a leaf's cuts may differ.
pub fn written_is_faithful()
    ensures { WrittenIsFaithful }
{}

/// The tree of a table is one that a proof can be written for, and a faithful proof without an open leaf is accepted.
pub fn tables_fit()
    ensures fit { TablesFit }
    ensures accepted { FaithfulIsAccepted }
{}
