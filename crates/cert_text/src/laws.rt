//! Laws of readable certificates.

ghost use Rattle.cert_text.specs.Laws.{OneSpelling, OneReading, NoProperPrefix, OldLinesFit, OneHeld, SpelledLines, TakesPrefixes};

/// A list of lines has one spelling.
pub fn one_spelling()
    ensures { OneSpelling }
{}

/// Bytes have one reading.
pub fn one_reading()
    ensures { OneReading }
{}

/// No readable certificate is a proper prefix of another.
pub fn no_proper_prefix()
    ensures { NoProperPrefix }
{}

/// Lines that spell a readable certificate are its lines.
pub fn spelled_lines()
    ensures { SpelledLines }
{}

/// What is held after some bytes of a certificate is a function of the bytes.
pub fn one_held()
    ensures { OneHeld }
{}

/// The machine takes bytes exactly where they are a prefix of a readable certificate.
pub fn takes_prefixes()
    ensures { TakesPrefixes }
{}

/// A line of the old version is one of the new, without last jobs.
pub fn old_lines_fit()
    ensures { OldLinesFit }
{}
