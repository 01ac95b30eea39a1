//! Where grunts pass on their way: a place for tests to hold them up, and for programs to say how far they are.

/// A point on the way of a grunt.
#[derive(Clone, Copy, Debug, PartialEq, Eq)]
pub enum Point {
    BeforeAsk,
    BeforeWork,
    BeforeReport,
    AfterReport,
}

/// What a search passes on its way. It is told what happens, and can hold a grunt up; a search is right whatever it does.
pub trait Gate {
    /// A grunt passes a point. The lease is its newest, 0 before its first.
    fn pass(&self, grunt: u32, lease: u32, point: Point);

    /// How the search stands: the length of the best tour, the open nodes and the settled ones, and the least key of an open node
    /// that nobody works on, if there is one. A key is a worker's guess of a bound on the node, as a whole length; it is not
    /// trusted.
    fn stands(&self, _best: u64, _open: u32, _settled: u32, _least_key: Option<i64>) {}
}

/// A gate that holds nobody up and says nothing.
#[derive(Clone, Copy, Debug, PartialEq, Eq)]
pub struct OpenGate;

impl Gate for OpenGate {
    fn pass(&self, _grunt: u32, _lease: u32, _point: Point) {}
}
