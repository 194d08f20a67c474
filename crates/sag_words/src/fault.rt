//! Why the words of a command line are refused.

ghost use Rattle.std.specs.Prelude.{◌≡◌};
ghost use Rattle.sag_words.specs.declared.fault.WordFault.TheVariants as fault;

use std::alloc::AllocError;

/// Why there is no command.
#[derive(Clone, Copy, PartialEq, Eq, Debug)]
pub enum WordFault {
    /// The words ask for no command.
    Usage,
    /// Memory ran out.
    Memory,
}

impl From<AllocError> for WordFault {
    ghost from_gives = { λ _ e. e ≡ fault.Memory };

    fn from(_: AllocError) -> WordFault {
        WordFault::Memory
    }
}
