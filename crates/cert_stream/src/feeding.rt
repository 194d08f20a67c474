//! From bytes to lines.

ghost use Rattle.std.specs.Prelude.{◌≡◌, ◌+◌, ◌++◌, ◌∷◌, ◌<◌, ◌≤◌, ◌^◌, ℕ, List, [], IfOk, None, OnOk, length, take};
ghost use Rattle.cert_text.specs.declared.grammar.Grammar.{Grammar};
ghost use Rattle.cert_text.specs.declared.line.CertLine.{CertLine as Line};
ghost use Rattle.cert_text.specs.Reader.{count_of_lines};
ghost use Rattle.cert_text.specs.Spelling.{FitsLine};
ghost use Rattle.cert_stream.specs.Lines.{AfterBytes, ClosesLines, HasLines};

use cert_text::laws::spelled_lines;
use cert_text::{CertLine, CertReader, FeedFault};
use std::alloc::AllocError;

/// What takes the lines of a certificate one by one.
pub trait TakeLine {
    /// The version of the lines that it takes.
    ghost grammar: { Grammar };

    /// How many lines it took at most.
    ghost count: { Self → ℕ };

    /// From the first value it came to the second by taking these lines.
    ghost takes: { Self → List Line → Self → Type 0 };

    /// Takes the next line. Where there is no memory, the value is of no more use.
    fn take_line(&mut self, line: CertLine) -> Result<(), AllocError>
        requires fits { FitsLine grammar line }
        requires few { count self.old < 2 ^ 63 }
        ensures count { OnOk result (count self.new ≤ count self.old + 1) }
        ensures takes { OnOk result ((start : Self) (lines : List Line)
            → takes start lines self.old → takes start (lines ++ line ∷ []) self.new) };
}

// Takes the first bytes of a piece: through the end of a line, or all where no line ends in it or the text is at fault.
fn feed_line<T: TakeLine>(
    reader: &mut CertReader,
    taker: &mut T,
    piece: &[u8],
) -> Result<usize, AllocError>
    requires version { reader.old.grammar ≡ T.grammar }
    requires none { reader.old.waiting ≡ None }
    requires some { 0 < length piece.now }
    requires few_lines { count_of_lines reader.old.held < 2 ^ 63 }
    requires few_taken { T.count taker.old < 2 ^ 63 }
    ensures version { reader.new.grammar ≡ reader.old.grammar }
    ensures bound { IfOk result (λ n. n ≤ length piece.now) }
    ensures goes { IfOk result (λ n. 0 < n) }
    ensures none { reader.new.waiting ≡ None }
    ensures lines { OnOk result (count_of_lines reader.new.held ≤ count_of_lines reader.old.held + 1) }
    ensures count { OnOk result (T.count taker.new ≤ T.count taker.old + 1) }
    ensures read { IfOk result (λ n. (start : T) (bytes : List ℕ)
        → AfterBytes T.grammar bytes reader.old (λ lines. T.takes start lines taker.old)
        → AfterBytes T.grammar (bytes ++ take n piece.now) reader.new (λ lines. T.takes start lines taker.new)) }
{
    match reader.feed(piece) {
        Ok(count) => match reader.take() {
            Some(line) => match taker.take_line(line) {
                Ok(()) => Ok(count),
                Err(error) => Err(error),
            },
            None => Ok(count),
        },
        Err(FeedFault::Text { .. }) => Ok(piece.len()),
        Err(FeedFault::Memory) => Err(AllocError),
    }
}

/// Takes a piece of a certificate, and hands on each line that comes whole in it. Behind a text fault it takes the bytes,
/// and hands on none; the reader tells the fault in the end. Where there is no memory, a line may have left the reader and not
/// have come to the taker: both are of no more use.
pub fn feed_lines<T: TakeLine>(
    reader: &mut CertReader,
    taker: &mut T,
    piece: &[u8],
) -> Result<(), AllocError>
    requires version { reader.old.grammar ≡ T.grammar }
    requires none { reader.old.waiting ≡ None }
    requires few_lines { count_of_lines reader.old.held + length piece.now < 2 ^ 63 }
    requires few_taken { T.count taker.old + length piece.now < 2 ^ 63 }
    ensures version { reader.new.grammar ≡ reader.old.grammar }
    ensures none { reader.new.waiting ≡ None }
    ensures lines { OnOk result (count_of_lines reader.new.held ≤ count_of_lines reader.old.held + length piece.now) }
    ensures count { OnOk result (T.count taker.new ≤ T.count taker.old + length piece.now) }
    ensures read { OnOk result ((start : T) (bytes : List ℕ)
        → AfterBytes T.grammar bytes reader.old (λ lines. T.takes start lines taker.old)
        → AfterBytes T.grammar (bytes ++ piece.now) reader.new (λ lines. T.takes start lines taker.new)) }
{
    let mut rest = piece;
    while !rest.is_empty() {
        match feed_line(reader, taker, rest) {
            Ok(count) => (_, rest) = rest.split_at(count),
            Err(error) => return Err(error),
        }
    }
    Ok(())
}

/// Ends a certificate: its bytes are a readable one of the lines that were taken out, or there is a text fault.
pub fn close_lines(reader: CertReader) -> Result<(), FeedFault>
    ensures { (bytes : List ℕ) (lines : List Line)
        → HasLines reader.grammar bytes reader lines → ClosesLines reader.grammar bytes lines result }
{
    spelled_lines();
    reader.close()
}
