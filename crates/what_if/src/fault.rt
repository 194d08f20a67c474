//! Why a table is not taken, or not edited.

ghost use Rattle.std.specs.Prelude.{◌≡◌};
ghost use Rattle.what_if.specs.Faults.{refusal_of};

use graph_builder::LevelFault;

/// Why a table is not taken, or not with its edits.
#[derive(Clone, Copy, PartialEq, Eq, Debug)]
pub enum WhatIfFault {
    /// After an offer that leads to this level a graph has more states or edges than the budget allows.
    Spent { level: u16, states: u64, edges: u64 },
    /// Memory ran out.
    Memory,
}

/// Why an edit is refused.
#[derive(Clone, Copy, PartialEq, Eq, Debug)]
pub enum EditFault {
    /// No job may have these costs.
    Cost,
    /// After an offer that leads to this level the graph of the edited table has more states or edges than the budget
    /// allows.
    Spent { level: u16, states: u64, edges: u64 },
    /// Memory ran out.
    Memory,
}

impl From<LevelFault> for EditFault {
    ghost from_gives = { λ e fault. fault ≡ refusal_of e };

    fn from(e: LevelFault) -> EditFault {
        match e {
            LevelFault::Spent {
                level,
                states,
                edges,
            } => EditFault::Spent {
                level,
                states,
                edges,
            },
            LevelFault::Memory => EditFault::Memory,
        }
    }
}
