//! The policies of priorities, by their words.

ghost use Rattle.std.specs.Prelude.{MatchOption, option_map};
ghost use Rattle.task_unroll.specs.declared.task.Policy.{Policy};
ghost use Rattle.sag_words.specs.Policies.{GivesPolicy};

use task_unroll::Policy;

/// The policy that a place gives: `rate`, `deadline` or `edf`.
pub(crate) fn policy_of(text: Option<&str>) -> Option<Policy>
    ensures { MatchOption result
        ((policy : Policy) → ¬ GivesPolicy (option_map (λ text. text.now) text.entry) policy)
        (GivesPolicy (option_map (λ text. text.now) text.entry)) }
{
    match text? {
        "rate" => Some(Policy::Rate),
        "deadline" => Some(Policy::Deadline),
        "edf" => Some(Policy::Edf),
        _ => None,
    }
}
