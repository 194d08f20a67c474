//! A certificate that is checked as its bytes come.

ghost use Rattle.std.specs.Prelude.{◌≡◌, ◌≤◌, ℕ, List, [], IfOk, max};
ghost use Rattle.job_model.specs.declared.limits.TheConstants.{MOST_CORES};
ghost use Rattle.job_model.specs.Table.{Table};
ghost use Rattle.cert_text.specs.Reader.{count_of_lines};
ghost use Rattle.cert_check.specs.Checks.{EndsBytes, TakesBytes, checked_lines, fresh_check};

use crate::cert_end::CertEnd;
use crate::line_checker::LineChecker;
use cert_stream::{close_lines, feed_lines};
use cert_text::{CertReader, FeedFault};
use job_model::JobTable;
use sag_edge::TakePiece;
use std::alloc::{AllocError, Global};
use std::marker::Model;

/// A certificate that is checked as its bytes come: `new`, a `take_piece` for each piece, and `finish`.
///
/// Behind the first line that breaks a clause, and behind a text fault, it takes the bytes and looks only for what they may
/// still change: a text fault wins over a broken clause. After want of memory nothing is known of the bytes.
#[derive(Drop)]
pub struct CertCheck<'a> {
    reader: CertReader,
    lines: LineChecker<'a>,
}

impl<'a> Model for CertCheck<'a> {
    ghost use Rattle.std.specs.Prelude.{◌≡◌, None};
    ghost use Rattle.cert_text.specs.Grammar.{second_version};
    ghost use Rattle.cert_check.specs.Checks.{SeenCheck};

    ghost Value = { SeenCheck };

    ghost view = { λ c. record { reader = c.reader; checker = c.lines } };

    ghost invariant = { λ c. (c.reader.grammar ≡ second_version) × (c.reader.waiting ≡ None) };
}

impl<'a> TakePiece for CertCheck<'a> {
    ghost count = { λ c. max (count_of_lines c.reader.held) (checked_lines c.checker.kept) };

    ghost takes = { λ start bytes now. TakesBytes start bytes now };

    fn take_piece(&mut self, piece: &[u8]) -> Result<(), AllocError> {
        feed_lines(&mut self.reader, &mut self.lines, piece)
    }
}

impl<'a> CertCheck<'a> {
    /// A check for the table on so many cores, before the first byte.
    pub fn new(alloc: Global, table: &'a JobTable, cores: u16) -> Result<CertCheck<'a>, AllocError>
        requires some { 1 ≤ cores }
        requires few { cores ≤ MOST_CORES }
        ensures fresh { IfOk result (λ c. c ≡ fresh_check table.now cores) }
        ensures start { IfOk result (λ c. TakesBytes c [] c) }
    {
        Ok(CertCheck {
            reader: CertReader::new(alloc),
            lines: LineChecker::new(alloc, table, cores)?,
        })
    }

    /// What the bytes come to: a text fault, or a readable certificate, which is valid or breaks a clause. Where a piece was not
    /// taken for want of memory, it says nothing of the bytes.
    pub fn finish(self) -> Result<CertEnd, FeedFault>
        ensures { (table : Table) (m : ℕ) (bytes : List ℕ)
            → TakesBytes (fresh_check table m) bytes self.entry → EndsBytes table m bytes result }
    {
        match close_lines(self.reader) {
            Ok(()) => self.lines.end(),
            Err(fault) => Err(fault),
        }
    }
}
