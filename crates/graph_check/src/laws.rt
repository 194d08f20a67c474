// Laws of certificates.

ghost use Rattle.graph_check.specs.Laws.{FailureIsFirst, JobEntriesAreSpans, KeptAreSpans, OldIsValid, SpansHold, ValidIsKept, ValidIsUnbroken, YesIsSound};

/// A failure is at the first line that breaks a clause.
pub fn failure_is_first()
    ensures { FailureIsFirst }
{}

/// Lines are valid exactly where all of them pass, and no other is due.
pub fn valid_is_kept()
    ensures { ValidIsKept }
{}

/// Lines that end with an end line are valid exactly where none breaks a clause.
pub fn valid_is_unbroken()
    ensures { ValidIsUnbroken }
{}

/// A certificate of the old version that is valid by its steps is valid.
pub fn old_is_valid()
    ensures { OldIsValid }
{}

/// What is kept of the jobs of valid lines are their intervals and marks.
pub fn kept_are_spans()
    ensures { KeptAreSpans }
{}

/// The intervals and marks of a certificate are those of its job lines.
pub fn job_entries_are_spans()
    ensures { JobEntriesAreSpans }
{}

/// In each legal run each job finishes within its interval of a valid certificate, and by its deadline where its mark is
/// ok.
pub fn spans_hold()
    ensures { SpansHold }
{
    run_cover::root_covers();
    run_cover::steps_cover();
    run_cover::wider_states_cover();
}

/// So it does within the interval that is kept of it, once all lines have passed and no other is due.
pub fn a_yes_is_sound()
    ensures { YesIsSound }
{
    spans_hold();
}
