//! Laws of conversions.

ghost use Rattle.cert_convert.specs.Laws.{ConvertedIsReadable, OneConversion};

use cert_text::laws::{old_lines_fit, one_reading};

/// The converted text is a readable certificate of the new version, of the same lines.
pub fn converted_is_readable()
    ensures { ConvertedIsReadable }
{
    old_lines_fit();
}

/// Bytes convert to one text.
pub fn one_conversion()
    ensures { OneConversion }
{
    one_reading();
}
