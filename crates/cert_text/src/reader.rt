//! A reader of certificates, over any pieces.

ghost use Rattle.std.specs.Prelude.{◌≡◌, ◌≤◌, ◌<◌, ◌+◌, ◌^◌, ℕ, List, [], length, false, None, IfOk, IfSome};
ghost use Rattle.cert_text.specs.Grammar.{first_version, second_version, IsVersion};
ghost use Rattle.cert_text.specs.Reader.{AfterPiece, Closes, HasPlace, IfFault, IfOpen, IfReady, IfWaiting, IsOpen, fault_behind, is_end, count_of_lines, standing_at};
ghost use Rattle.cert_text.specs.Spelling.{FitsLine};
ghost use Rattle.cert_text.specs.Taken.{Open, HoldsAfter};

use crate::fault::FeedFault;
use crate::feed::{LineFault, PieceEnd, no_draft, take_piece};
use crate::grammar::{Grammar, first_version, second_version};
use crate::line::CertLine;
use crate::spot::{Draft, Spot, Standing};
use std::alloc::Global;
use std::marker::Model;

/// Reads the lines of a certificate from its bytes, in pieces that may be cut anywhere. A line that came whole waits
/// until it is taken out; the next one is read then. A fault is kept.
#[derive(Drop)]
pub struct CertReader {
    alloc: Global,
    grammar: Grammar,
    // whole lines so far, and whether the last was the end line
    lines: u64,
    ended: bool,
    // the line that is being read, and how many of its bytes have come
    draft: Draft,
    spot: Spot,
    at: u64,
    waiting: Option<CertLine>,
    fault: Option<FeedFault>,
}

impl Model for CertReader {
    ghost use Rattle.std.specs.Prelude.{◌≤◌, ◌^◌, IfSome};
    ghost use Rattle.cert_text.specs.Machine.{shown};
    ghost use Rattle.cert_text.specs.Reader.{HeldReader, StandsInLine, held_or_fault};
    ghost use Rattle.cert_text.specs.Grammar.{IsVersion};
    ghost use Rattle.cert_text.specs.Spelling.{FitsLine};

    ghost Value = { HeldReader };

    ghost view = { λ r. record {
      grammar = r.grammar;
      held = held_or_fault r.fault r.lines (shown r.grammar r.draft r.spot) r.ended;
      waiting = r.waiting;
    } };

    ghost invariant = { λ r. StandsInLine r.grammar r.lines r.ended r.draft r.spot r.at × (r.lines ≤ 2 ^ 63)
        × IfSome r.waiting (λ line. FitsLine r.grammar line) × IsVersion r.grammar };
}

// Whether a line is the end.
fn is_end_line(line: &CertLine) -> bool
    ensures { result ≡ is_end line.now }
{
    matches!(line, CertLine::End)
}

// Which lines may come behind so many.
fn standing_behind(lines: u64, ended: bool) -> Standing
    ensures { result ≡ standing_at lines ended }
{
    if ended {
        Standing::Over
    } else if lines == 0 {
        Standing::First
    } else {
        Standing::Inside
    }
}

// The fault of a reader that holds so many lines, and so many bytes of the next.
fn feed_fault(lines: u64, at: u64, fault: LineFault) -> FeedFault
    requires lines { lines ≤ 2 ^ 63 }
    requires place { HasPlace at fault }
    ensures { result ≡ fault_behind lines at fault }
{
    match fault {
        LineFault::Wrong(index) => FeedFault::Text {
            line: lines + 1,
            byte: at + index as u64 + 1,
        },
        LineFault::Memory => FeedFault::Memory,
    }
}

impl CertReader {
    /// A reader of no bytes, of the version that is written.
    pub fn new(alloc: Global) -> CertReader
        ensures empty { result ≡ record { grammar = second_version; held = Open 0 [] false; waiting = None } }
        ensures start { HoldsAfter second_version [] result.held }
    {
        CertReader::of_version(alloc, second_version())
    }

    /// A reader of no bytes, of the old version.
    pub fn old(alloc: Global) -> CertReader
        ensures empty { result ≡ record { grammar = first_version; held = Open 0 [] false; waiting = None } }
        ensures start { HoldsAfter first_version [] result.held }
    {
        CertReader::of_version(alloc, first_version())
    }

    // A reader of no bytes.
    fn of_version(alloc: Global, grammar: Grammar) -> CertReader
        requires { IsVersion grammar }
        ensures empty { result ≡ record { grammar = grammar; held = Open 0 [] false; waiting = None } }
        ensures start { HoldsAfter grammar [] result.held }
    {
        CertReader {
            alloc,
            grammar,
            lines: 0,
            ended: false,
            draft: no_draft(alloc),
            spot: Spot::Start,
            at: 0,
            waiting: None,
            fault: None,
        }
    }

    /// Takes a piece through its first LF, or whole where it has none, and gives the number of bytes taken: 0 while a line
    /// waits. A fault, also want of memory, is kept, and told each time from then on.
    pub fn feed(&mut self, piece: &[u8]) -> Result<usize, FeedFault>
        requires few_lines { count_of_lines self.old.held < 2 ^ 63 }
        ensures kept { IfFault self.old.held (λ fault. (result ≡ Err fault) × (self.new ≡ self.old)) }
        ensures waits { IfWaiting self.old.held self.old.waiting ((result ≡ Ok 0) × (self.new ≡ self.old)) }
        ensures takes { IfReady self.old.held self.old.waiting (λ rest.
            AfterPiece self.old.grammar self.old.held rest piece.now result self.new) }
        ensures same { self.new.grammar ≡ self.old.grammar }
        ensures within { IfOk result (λ count. count ≤ length piece.now) }
        ensures lines { count_of_lines self.new.held ≤ count_of_lines self.old.held + 1 }
        ensures few { IfOk result (λ count.
            count_of_lines self.new.held ≤ count_of_lines self.old.held + count) }
    {
        if let Some(fault) = self.fault {
            return Err(fault);
        }
        if self.waiting.is_some() {
            return Ok(0);
        }
        self.read_on(piece)
    }

    // The same, where no fault is kept and no line waits.
    fn read_on(&mut self, piece: &[u8]) -> Result<usize, FeedFault>
        requires few_lines { count_of_lines self.old.held < 2 ^ 63 }
        requires no_fault { IsOpen self.old.held }
        ensures takes { IfReady self.old.held self.old.waiting (λ rest.
            AfterPiece self.old.grammar self.old.held rest piece.now result self.new) }
        ensures same { self.new.grammar ≡ self.old.grammar }
        ensures within { IfOk result (λ count. count ≤ length piece.now) }
        ensures lines { count_of_lines self.new.held ≤ count_of_lines self.old.held + 1 }
        ensures few { IfOk result (λ count.
            count_of_lines self.new.held ≤ count_of_lines self.old.held + count) }
    {
        match take_piece(
            self.alloc,
            self.grammar,
            standing_behind(self.lines, self.ended),
            &mut self.draft,
            &mut self.spot,
            piece,
        ) {
            Ok(PieceEnd::Part { count }) => {
                self.at += count as u64;
                Ok(count)
            }
            Ok(PieceEnd::Line { count, line }) => {
                self.at = 0;
                self.lines += 1;
                self.ended = is_end_line(&line);
                self.waiting = Some(line);
                Ok(count)
            }
            Err(fault) => {
                let fault = feed_fault(self.lines, self.at, fault);
                self.draft = no_draft(self.alloc);
                self.spot = Spot::Start;
                self.at = 0;
                self.fault = Some(fault);
                Err(fault)
            }
        }
    }

    /// Takes out the line that waits.
    pub fn take(&mut self) -> Option<CertLine>
        ensures line { result ≡ self.old.waiting }
        ensures left { self.new ≡ record { grammar = self.old.grammar; held = self.old.held; waiting = None } }
        ensures fits { IfSome result (λ line. FitsLine self.old.grammar line) }
    {
        self.waiting.take()
    }

    /// Ends the certificate: a kept fault, or the place of the missing byte where an end line has not come.
    pub fn close(self) -> Result<(), FeedFault>
        ensures kept { IfFault self.held (λ fault. result ≡ Err fault) }
        ensures closes { IfOpen self.held
            ((bytes : List ℕ) → HoldsAfter self.grammar bytes self.held → Closes self.grammar bytes result) }
    {
        if let Some(fault) = self.fault {
            Err(fault)
        } else if self.ended {
            Ok(())
        } else {
            Err(FeedFault::Text {
                line: self.lines + 1,
                byte: self.at + 1,
            })
        }
    }
}
