//! The first rule that a recorded schedule breaks.
#![tactic(auto)]

mod answer_texts;
mod broken;
mod entries;
mod held;
mod judging;
mod laws;
mod orders;
mod starts;
mod sweep;
mod waits;

pub use answer_texts::broken_text;
pub use broken::{Break, Rule};
pub use judging::audit;
pub use laws::{one_first_break, unbroken_is_legal};
