//! Lines that are written in the new version as they are taken.

ghost use Rattle.std.specs.Prelude.{◌≡◌, ◌++◌, []};
ghost use Rattle.cert_text.specs.Grammar.{first_version};
ghost use Rattle.cert_convert.specs.Conversions.{converted_text};

use cert_stream::TakeLine;
use cert_text::laws::old_lines_fit;
use cert_text::{CertLine, write_line};
use std::alloc::{AllocError, Global};
use std::marker::Model;

/// The text of lines of the old version in the new one.
#[derive(Drop)]
pub(crate) struct ConvertedLines {
    text: Vec<u8>,
}

impl Model for ConvertedLines {
    ghost use Rattle.std.specs.Prelude.{List, ℕ};

    ghost Value = { List ℕ };

    ghost view = { λ lines. lines.text.items };
}

impl TakeLine for ConvertedLines {
    ghost grammar = { first_version };

    ghost count = { λ now. 0 };

    ghost takes = { λ start lines now. now ≡ start ++ converted_text lines };

    fn take_line(&mut self, line: CertLine) -> Result<(), AllocError> {
        old_lines_fit();
        write_line(&line, &mut self.text)
    }
}

impl ConvertedLines {
    /// No lines.
    pub(crate) fn new(alloc: Global) -> ConvertedLines
        ensures { result ≡ [] }
    {
        ConvertedLines {
            text: Vec::new(alloc),
        }
    }

    /// Their text.
    pub(crate) fn into_text(self) -> Vec<u8>
        ensures { result.items ≡ self }
    {
        self.text
    }
}
