//! Flags.

ghost use Rattle.std.specs.Prelude.{◌≡◌, option_map};
ghost use Rattle.sag_words.specs.Flags.{is_given};

/// Whether a flag is given, by its value.
pub(crate) fn is_given(value: Option<&str>) -> bool
    ensures { result ≡ is_given (option_map (λ text. text.now) value.entry) }
{
    match value {
        Some(text) => text == "true",
        None => false,
    }
}
