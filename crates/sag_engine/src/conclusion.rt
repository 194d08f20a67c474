//! How work that was done ended.

/// How work that was done ended.
#[derive(Clone, Copy, Debug, PartialEq, Eq)]
pub enum Conclusion {
    /// All was done.
    Done,
    /// The certificate is readable and not valid, or the recorded run is not legal.
    No,
    /// The graph exceeds the budget: at this level, with so many states and edges.
    Spent { level: u64, states: u64, edges: u64 },
}
