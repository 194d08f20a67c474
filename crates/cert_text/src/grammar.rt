//! The versions of the format, and its numbers.

ghost use Rattle.std.specs.Prelude.{◌≡◌};
ghost use Rattle.cert_text.specs.Grammar.{first_version, second_version};

/// The greatest number of a certificate.
pub const MOST_NUMBER: u64 = 4_611_686_018_427_387_903;

/// A version of the format.
#[derive(Clone, Copy)]
pub struct Grammar {
    /// The digit of the head line.
    pub version: u8,
    /// The most pairs of a root or a state line.
    pub most_pairs: usize,
    /// The most ends of a state line, and the most of its last jobs.
    pub most_items: usize,
    /// Whether a state line ends with a second bar and its last jobs.
    pub has_last: bool,
}

/// The old version, which is read alone.
pub fn first_version() -> Grammar
    ensures { result ≡ first_version }
{
    Grammar {
        version: b'1',
        most_pairs: 64,
        most_items: 4096,
        has_last: false,
    }
}

/// The version that is read and written.
pub fn second_version() -> Grammar
    ensures { result ≡ second_version }
{
    Grammar {
        version: b'2',
        most_pairs: 256,
        most_items: 16384,
        has_last: true,
    }
}
