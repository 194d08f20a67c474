//! A certificate of the old version that is written in the new one as its bytes come.

ghost use Rattle.std.specs.Prelude.{◌≡◌, ℕ, List, []};
ghost use Rattle.cert_text.specs.Reader.{count_of_lines};
ghost use Rattle.cert_convert.specs.Conversions.{ConvertsBytes, EndsConversion, fresh_conversion};

use crate::converted_lines::ConvertedLines;
use cert_stream::{close_lines, feed_lines};
use cert_text::{CertReader, FeedFault};
use sag_edge::TakePiece;
use std::alloc::{AllocError, Global};
use std::marker::Model;

/// A certificate of the old version that is written in the new one as its bytes come: `new`, a `take_piece` for each piece,
/// and `finish`. After want of memory nothing is known of the bytes.
#[derive(Drop)]
pub struct Conversion {
    reader: CertReader,
    lines: ConvertedLines,
}

impl Model for Conversion {
    ghost use Rattle.std.specs.Prelude.{◌≡◌, None};
    ghost use Rattle.cert_text.specs.Grammar.{first_version};
    ghost use Rattle.cert_convert.specs.Conversions.{SeenConversion};

    ghost Value = { SeenConversion };

    ghost view = { λ c. record { reader = c.reader; text = c.lines } };

    ghost invariant = { λ c. (c.reader.grammar ≡ first_version) × (c.reader.waiting ≡ None) };
}

impl TakePiece for Conversion {
    ghost count = { λ c. count_of_lines c.reader.held };

    ghost takes = { λ start bytes now. ConvertsBytes start bytes now };

    fn take_piece(&mut self, piece: &[u8]) -> Result<(), AllocError> {
        feed_lines(&mut self.reader, &mut self.lines, piece)
    }
}

impl Conversion {
    /// A conversion before the first byte.
    pub fn new(alloc: Global) -> Conversion
        ensures fresh { result ≡ fresh_conversion }
        ensures start { ConvertsBytes result [] result }
    {
        Conversion {
            reader: CertReader::old(alloc),
            lines: ConvertedLines::new(alloc),
        }
    }

    /// The text of the certificate in the new version, or the place of a text fault. Where a piece was not taken for want of
    /// memory, it says nothing of the bytes.
    pub fn finish(self) -> Result<Vec<u8>, FeedFault>
        ensures { (bytes : List ℕ)
            → ConvertsBytes fresh_conversion bytes self → EndsConversion bytes result }
    {
        match close_lines(self.reader) {
            Ok(()) => Ok(self.lines.into_text()),
            Err(fault) => Err(fault),
        }
    }
}
