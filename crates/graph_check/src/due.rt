//! Which kind of line is due.

ghost use Rattle.std.specs.Prelude.{◌≡◌, ◌↔◌, IsTrue};
ghost use Rattle.graph_check.specs.Comings.{due_for};

use cert_text::CertLine;

/// The kind of line that is due.
#[derive(Clone, Copy, PartialEq, Eq, Debug)]
pub enum Due {
    Head,
    Level,
    Root,
    State,
    Edge,
    Job,
    Verdict,
    End,
    /// No line: the end line has come.
    Nothing,
}

/// The kind of line that it is.
pub(crate) fn kind_of(line: &CertLine) -> Due
    ensures { result ≡ due_for line.now }
{
    match line {
        CertLine::Head { .. } => Due::Head,
        CertLine::Level { .. } => Due::Level,
        CertLine::Root { .. } => Due::Root,
        CertLine::State { .. } => Due::State,
        CertLine::Edge { .. } => Due::Edge,
        CertLine::Job { .. } => Due::Job,
        CertLine::Verdict { .. } => Due::Verdict,
        CertLine::End => Due::End,
    }
}

/// Whether a line of this kind is due.
pub(crate) fn is_due(due: Due, kind: Due) -> bool
    ensures { IsTrue result ↔ (due ≡ kind) }
{
    due == kind
}
