//! The laws of tables of nodes.
ghost use Rattle.treebook.specs.Laws.{FreshIsTable, PathsArePaths, OpenNodesAreOpenLeaves, ClosingKeepsTables, SplittingKeepsTables, ClosingKeepsCovers, SplittingKeepsCovers, ClosingKeepsSound, SplittingKeepsSound, ClosedTablesAreSound, SoundTablesClose, LessIsKept};

use tspdef::{bound_is_below, trees_cover};

/// A table of nodes stands for a tree: its open nodes are the open leaves, with their paths.
pub fn tables_are_trees()
    ensures fresh { FreshIsTable }
    ensures paths { PathsArePaths }
    ensures leaves { OpenNodesAreOpenLeaves }
{}

/// Closing and splitting an open node change the tree at the node's place alone.
pub fn tables_grow()
    ensures closing { ClosingKeepsTables }
    ensures splitting { SplittingKeepsTables }
{}

/// Splitting keeps that each tour obeys an open leaf or has length l at least, for each l; closing keeps it where the
/// bound exceeds what l needs.
pub fn tables_cover()
    ensures closing { ClosingKeepsCovers }
    ensures splitting { SplittingKeepsCovers }
{
    bound_is_below();
    trees_cover();
}

/// Closing and splitting keep a tree sound, and a table is sound exactly where its closed nodes have bounds that exceed what l needs.
/// What is so for a length is so for a lesser one.
pub fn tables_are_sound()
    ensures closing { ClosingKeepsSound }
    ensures splitting { SplittingKeepsSound }
    ensures closed { ClosedTablesAreSound }
    ensures closes { SoundTablesClose }
    ensures less { LessIsKept }
{
    bound_is_below();
}
