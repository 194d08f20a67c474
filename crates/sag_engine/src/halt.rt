//! Why work stops before its end.

ghost use Rattle.std.specs.Prelude.{◌≡◌, Err};
ghost use Rattle.sag_texts.specs.FaultTexts.{HasText};

use sag_texts::{Fault, FileKind};
use std::marker::Model;

/// Why an input is refused: a fault with a text of its own.
#[derive(Drop)]
pub struct Refusal {
    fault: Fault,
}

impl Model for Refusal {
    ghost use Rattle.sag_texts.specs.declared.fault.Fault.{Fault};
    ghost use Rattle.sag_texts.specs.FaultTexts.{HasText};

    ghost Value = { Fault };

    ghost view = { λ refusal. refusal.fault };

    ghost invariant = { λ refusal. HasText refusal.fault };
}

impl Refusal {
    /// The refusal for this fault.
    pub fn new(fault: Fault) -> Refusal
        requires { HasText fault }
        ensures { result ≡ fault }
    {
        Refusal { fault }
    }

    /// The fault.
    pub fn fault(&self) -> &Fault
        ensures fault { result.now ≡ self.now }
        ensures text { HasText self.now }
    {
        &self.fault
    }
}

/// Why the work stopped.
#[derive(Drop)]
pub enum Halt {
    /// The words ask for no command.
    Usage,
    /// An input breaks a rule.
    Refused(Refusal),
    /// A file cannot be read.
    Read(FileKind),
    /// The output takes no more.
    Write,
    /// Memory ran out.
    Memory,
}

/// Stops at a fault that has a text.
pub(crate) fn refused<T>(fault: Fault) -> Result<T, Halt>
    requires { HasText fault }
    ensures { result ≡ Err (Halt.Refused fault) }
{
    Err(Halt::Refused(Refusal::new(fault)))
}
