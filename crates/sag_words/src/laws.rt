//! Laws of words.

ghost use Rattle.sag_words.specs.Laws.{OneCommand};

/// Words ask for at most one command.
pub fn one_command()
    ensures { OneCommand }
{}
