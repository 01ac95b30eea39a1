//! A node to work on.
use branchx::Path;

/// A node that was lent: its lease and number, its path, and the length of the best tour then.
#[derive(Drop)]
pub(crate) struct Order {
    pub lease: u32,
    pub node: u32,
    pub path: Path,
    pub best: u64,
}
