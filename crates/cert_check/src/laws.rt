//! Laws of checks: the bytes fix what a check of them comes to.

ghost use Rattle.cert_check.specs.Laws.{NoFaultOfReadable, OneEnd, OneTextFault};

use cert_text::laws::{one_held, one_reading};
use graph_check::valid_is_kept;

/// Readable bytes come to one end.
pub fn one_end()
    ensures { OneEnd }
{
    one_reading();
    valid_is_kept();
}

/// Bytes have one text fault at most.
pub fn one_text_fault()
    ensures { OneTextFault }
{
    one_held();
}

/// Readable bytes have no text fault.
pub fn no_fault_of_readable()
    ensures { NoFaultOfReadable }
{}
