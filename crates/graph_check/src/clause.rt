//! The clauses of valid certificates.

/// A clause that a valid certificate keeps.
#[derive(Clone, Copy, PartialEq, Eq, Debug)]
pub enum Clause {
    /// The head names the number of jobs and of cores.
    K1,
    /// The lines stand in order, with their counts and numbers.
    K2,
    /// Level 0 has one state, and it widens the root.
    K3,
    /// A state names a parent in the level before it, and a candidate of that parent.
    K4,
    /// A state has the shape of a state.
    K5,
    /// The edges into a level are those of the jobs that may be the next, in order.
    K6,
    /// An edge has the window of its job.
    K7,
    /// An edge leads to a state that widens the next state.
    K8,
    /// The interval of a job is in order, and covers the finish interval of each of its edges.
    K9,
    /// A job is marked ok exactly where its interval ends by its deadline.
    K10,
    /// The verdict is ok exactly where each mark is.
    K11,
}
