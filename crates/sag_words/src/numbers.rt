//! The numbers of places and options.

ghost use Rattle.std.specs.Prelude.{ℕ, MatchOption, Option, option_map};
ghost use Rattle.sag_words.specs.Numbers.{GivesBudget, GivesCores, GivesHorizon, GivesNumber, GivesTrial};

use csv_numbers::read_number;
use job_model::MOST_CORES;
use sag_graph::MOST_BUDGET;
use task_unroll::MOST_HORIZON;

/// The budget of states where none is given.
pub const DEFAULT_BUDGET: u32 = 100_000;

/// The number of cores that an option gives: from 1 to `MOST_CORES`, and 1 where it is not given.
pub(crate) fn cores_of(text: Option<&str>) -> Option<u16>
    ensures { MatchOption result
        ((cores : ℕ) → ¬ GivesCores (option_map (λ text. text.now) text.entry) cores)
        (GivesCores (option_map (λ text. text.now) text.entry)) }
{
    let Some(text) = text else {
        return Some(1);
    };
    let number = read_number(text.as_bytes()).ok()?;
    if 1 <= number && number <= u64::from(MOST_CORES) {
        Some(number as u16)
    } else {
        None
    }
}

/// The budget that an option gives: from 1 to `MOST_BUDGET`, and `DEFAULT_BUDGET` where it is not given.
pub(crate) fn budget_of(text: Option<&str>) -> Option<u32>
    ensures { MatchOption result
        ((budget : ℕ) → ¬ GivesBudget (option_map (λ text. text.now) text.entry) budget)
        (GivesBudget (option_map (λ text. text.now) text.entry)) }
{
    let Some(text) = text else {
        return Some(DEFAULT_BUDGET);
    };
    let number = read_number(text.as_bytes()).ok()?;
    if 1 <= number && number <= u64::from(MOST_BUDGET) {
        Some(number as u32)
    } else {
        None
    }
}

/// The number that a place gives.
pub(crate) fn number_of(text: Option<&str>) -> Option<u64>
    ensures { MatchOption result
        ((number : ℕ) → ¬ GivesNumber (option_map (λ text. text.now) text.entry) number)
        (GivesNumber (option_map (λ text. text.now) text.entry)) }
{
    read_number(text?.as_bytes()).ok()
}

/// The horizon that a place gives: a moment from 1 to `MOST_HORIZON`.
pub(crate) fn horizon_of(text: Option<&str>) -> Option<u64>
    ensures { MatchOption result
        ((horizon : ℕ) → ¬ GivesHorizon (option_map (λ text. text.now) text.entry) horizon)
        (GivesHorizon (option_map (λ text. text.now) text.entry)) }
{
    let horizon = read_number(text?.as_bytes()).ok()?;
    if 1 <= horizon && horizon <= MOST_HORIZON {
        Some(horizon)
    } else {
        None
    }
}

/// The number of a trial that an option gives: one of 32 bits, and none where it is not given.
pub(crate) fn trial_of(text: Option<&str>) -> Option<Option<u32>>
    ensures { MatchOption result
        ((trial : Option ℕ) → ¬ GivesTrial (option_map (λ text. text.now) text.entry) trial)
        (GivesTrial (option_map (λ text. text.now) text.entry)) }
{
    let Some(text) = text else {
        return Some(None);
    };
    let number = read_number(text.as_bytes()).ok()?;
    if number <= u64::from(u32::MAX) {
        Some(Some(number as u32))
    } else {
        None
    }
}
