//! The certificate, read and checked as its bytes come.

ghost use Rattle.std.specs.Prelude.{◌≡◌, ◌≤◌};
ghost use Rattle.job_model.specs.declared.limits.TheConstants.{MOST_CORES};
ghost use Rattle.cert_check.specs.Checks.{end_told};
ghost use Rattle.sag_engine.specs.Certificates.{certificate_plan};
ghost use Rattle.sag_engine.specs.RunEnds.{Follows};

use crate::fetch::{MOST_CERTIFICATE_BYTES, pour_file};
use crate::halt::{Halt, Refusal};
use cert_check::{CertCheck, CertEnd};
use cert_text::FeedFault;
use job_model::JobTable;
use sag_edge::{FileName, Files};
use sag_texts::{Fault, FileKind};
use std::alloc::Global;

/// Reads the certificate of a table to its end, and checks it on the way. A text fault is a refusal also where an earlier line
/// breaks a clause.
pub(crate) fn check_certificate<F: Files>(
    alloc: Global,
    files: &mut F,
    table: &JobTable,
    cores: u16,
    name: FileName,
) -> Result<CertEnd, Halt>
    requires some_core { 1 ≤ cores }
    requires few_cores { cores ≤ MOST_CORES }
    ensures { Follows (λ end. end_told end) (certificate_plan table.now cores name)
        (F.seen files.old) (F.seen files.new) result }
{
    let Ok(mut check) = CertCheck::new(alloc, table, cores) else {
        return Err(Halt::Memory);
    };
    match pour_file(
        alloc,
        files,
        FileKind::Certificate,
        name,
        MOST_CERTIFICATE_BYTES,
        &mut check,
    ) {
        Ok(()) => match check.finish() {
            Ok(end) => Ok(end),
            Err(FeedFault::Text { line, byte }) => {
                Err(Halt::Refused(Refusal::new(Fault::Text { line, byte })))
            }
            Err(FeedFault::Memory) => Err(Halt::Memory),
        },
        Err(halt) => Err(halt),
    }
}
