//! Places of jobs in time and on cores.

use std::marker::Model;

/// Where and when a job starts.
#[derive(Clone, Copy, PartialEq, Eq, Debug)]
pub struct Place {
    /// When it starts.
    pub start: u64,
    /// The number of its core, from 0.
    pub core: u16,
}

/// A place for each job, by its number.
#[derive(Drop)]
pub struct Schedule {
    /// The places, by job number.
    pub places: Vec<Place>,
}

impl Model for Schedule {
    ghost use Rattle.std.specs.Prelude.{List};
    ghost use Rattle.run_meaning.specs.declared.places.Place.{Place};

    ghost Value = { List Place };

    ghost view = { λ s. s.places.items };
}
