//! The command `convert`.

ghost use Rattle.sag_engine.specs.Convert.{conversion_plan, convert_plan};
ghost use Rattle.sag_engine.specs.RunEnds.{Follows, Runs};

use crate::conclusion::Conclusion;
use crate::fetch::{MOST_CERTIFICATE_BYTES, pour_file};
use crate::halt::{Halt, Refusal};
use crate::outputs::print;
use cert_convert::Conversion;
use cert_text::FeedFault;
use sag_edge::{FileName, Files, Sink};
use sag_texts::{Fault, FileKind};
use std::alloc::Global;

// Reads a certificate of the old version to its end, and converts it on the way.
fn convert_certificate<F: Files>(
    alloc: Global,
    files: &mut F,
    name: FileName,
) -> Result<Vec<u8>, Halt>
    ensures { Follows (λ text. text.items) (conversion_plan name) (F.seen files.old) (F.seen files.new) result }
{
    let mut conversion = Conversion::new(alloc);
    match pour_file(
        alloc,
        files,
        FileKind::Certificate,
        name,
        MOST_CERTIFICATE_BYTES,
        &mut conversion,
    ) {
        Ok(()) => match conversion.finish() {
            Ok(text) => Ok(text),
            Err(FeedFault::Text { line, byte }) => {
                Err(Halt::Refused(Refusal::new(Fault::Text { line, byte })))
            }
            Err(FeedFault::Memory) => Err(Halt::Memory),
        },
        Err(halt) => Err(halt),
    }
}

/// `convert CERT`: prints a certificate of the old version in the new one.
pub(crate) fn run_convert<F: Files, O: Sink>(
    alloc: Global,
    files: &mut F,
    out: &mut O,
    cert: FileName,
) -> Result<Conclusion, Halt>
    ensures { Runs (convert_plan cert) (F.seen files.old) (F.seen files.new)
        (O.seen out.old) (O.seen out.new) result }
{
    let text = convert_certificate(alloc, files, cert)?;
    print(out, &text, Conclusion::Done)
}
