//! The ends of intervals, by their words.

ghost use Rattle.std.specs.Prelude.{MatchOption, option_map};
ghost use Rattle.job_model.specs.declared.interval_end.End.{End};
ghost use Rattle.sag_words.specs.Ends.{GivesEnd};

use job_model::End;

/// The end that a place gives: `best` or `worst`.
pub(crate) fn end_of(text: Option<&str>) -> Option<End>
    ensures { MatchOption result
        ((end : End) → ¬ GivesEnd (option_map (λ text. text.now) text.entry) end)
        (GivesEnd (option_map (λ text. text.now) text.entry)) }
{
    match text? {
        "best" => Some(End::Best),
        "worst" => Some(End::Worst),
        _ => None,
    }
}
