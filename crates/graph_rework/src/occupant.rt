//! What stands at the places of a level.

/// What stands at a place of a level: a state that was there before the edit, or one that the edit made.
#[derive(Clone, Copy, PartialEq, Eq, Debug)]
pub enum Occupant {
    /// One of the states that stay, counted among them from 0.
    Stayed(u32),
    /// One of the states that were made, counted among them from 0.
    Remade(u32),
}
