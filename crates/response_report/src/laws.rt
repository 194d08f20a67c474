//! Laws of reports.

ghost use Rattle.response_report.specs.Laws.{ResponsesWithinWcrt};

/// A job that finishes within its span responds within the worst-case response time that the report has for its task.
pub fn responses_within_wcrt()
    ensures { ResponsesWithinWcrt }
{}
