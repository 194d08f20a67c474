//! Whole edge and state lines, read at once. Where a piece does not begin with one, the machine takes its bytes.

ghost use Rattle.std.specs.Prelude.{◌≡◌, ◌<◌, ◌≤◌, ◌+◌, length, get_or, true, false, IsTrue, IfSome};
ghost use Rattle.cert_text.specs.Machine.{On};
ghost use Rattle.cert_text.specs.Kept.{KeptSpot, TakesPiece};
ghost use Rattle.cert_text.specs.WholeLines.{ReadsNumber, ReadsField, ReadsPairs, ReadsEnds, ReadsLast, IsWholeLine};

use crate::digit::{is_digit_byte, take_digits};
use crate::feed::PieceEnd;
use crate::grammar::Grammar;
use crate::line::{CertLine, EndList, Numbers, Pair, Pairs};
use crate::separators::end_of;
use crate::spot::{Draft, Spot, Standing};
use std::alloc::Global;

// Passes this byte, where it comes next.
fn pass_byte(piece: &[u8], at: &mut usize, byte: u8) -> bool
    requires { at.old ≤ length piece.now }
    ensures passed { IsTrue result → (at.old < length piece.now) × (at.new ≡ at.old + 1) × (get_or piece.now at.old 0 ≡ byte) }
    ensures left { (result ≡ false) → at.new ≡ at.old }
    ensures within { at.new ≤ length piece.now }
{
    if *at < piece.len() && piece[*at] == byte {
        *at += 1;
        true
    } else {
        false
    }
}

// Reads a number: where one comes next that is not too long.
fn number_at(piece: &[u8], at: &mut usize) -> Option<u64>
    requires { at.old ≤ length piece.now }
    ensures within { at.new ≤ length piece.now }
    ensures reads { IfSome result (λ n. ReadsNumber piece.now at.old at.new n) }
{
    if *at == piece.len() || !is_digit_byte(piece[*at]) {
        return None;
    }
    let mut value = (piece[*at] - b'0') as u64;
    *at += 1;
    *at += take_digits(&mut value, &piece[*at..]);
    Some(value)
}

// Reads a number and the byte behind it.
fn field_at(piece: &[u8], at: &mut usize, after: u8) -> Option<u64>
    requires { at.old ≤ length piece.now }
    ensures within { at.new ≤ length piece.now }
    ensures reads { IfSome result (λ n. ReadsField piece.now at.old at.new after n) }
{
    let number = number_at(piece, at)?;
    if pass_byte(piece, at, after) {
        Some(number)
    } else {
        None
    }
}

// Reads an edge line, where the piece begins with one.
fn edge_line(piece: &[u8]) -> Option<PieceEnd>
    ensures { (g : Grammar) → IfSome result (λ end. IsWholeLine g piece.now end) }
{
    if !piece.starts_with(b"edge ") {
        return None;
    }
    let mut at = 5;
    let from = field_at(piece, &mut at, b' ')?;
    let job = field_at(piece, &mut at, b' ')?;
    let est = field_at(piece, &mut at, b' ')?;
    let lst = field_at(piece, &mut at, b' ')?;
    let to = field_at(piece, &mut at, b'\n')?;
    let line = CertLine::Edge {
        from,
        job,
        est,
        lst,
        to,
    };
    Some(PieceEnd::Line { count: at, line })
}

// Reads the pairs of a state line, with the first bar.
fn pairs_at(alloc: Global, grammar: Grammar, piece: &[u8], at: &mut usize) -> Option<Pairs>
    requires { at.old ≤ length piece.now }
    ensures within { at.new ≤ length piece.now }
    ensures reads { IfSome result (λ pairs. ReadsPairs grammar piece.now at.old at.new pairs) }
{
    let mut pairs = Pairs::new(alloc);
    for turn in 0..grammar.most_pairs {
        let lo = field_at(piece, at, b':')?;
        let hi = field_at(piece, at, b' ')?;
        let Ok(()) = pairs.push(Pair { lo, hi }) else {
            return None;
        };
        if pass_byte(piece, at, b'|') {
            return Some(pairs);
        }
    }
    None
}

// Reads the ends of a state line, with the second bar.
fn ends_at(alloc: Global, grammar: Grammar, piece: &[u8], at: &mut usize) -> Option<EndList>
    requires within { at.old ≤ length piece.now }
    requires has { grammar.has_last ≡ true }
    ensures within { at.new ≤ length piece.now }
    ensures reads { IfSome result (λ ends. ReadsEnds grammar piece.now at.old at.new ends) }
{
    if !pass_byte(piece, at, b' ') {
        return None;
    }
    let mut ends = EndList::new(alloc);
    for turn in 0..grammar.most_items {
        if pass_byte(piece, at, b'|') {
            return Some(ends);
        }
        let job = field_at(piece, at, b':')?;
        let lo = field_at(piece, at, b':')?;
        let hi = field_at(piece, at, b' ')?;
        let Ok(()) = ends.push(end_of(job, lo, hi)) else {
            return None;
        };
    }
    None
}

// Reads the last jobs of a state line, with its LF.
fn last_at(alloc: Global, grammar: Grammar, piece: &[u8], at: &mut usize) -> Option<Numbers>
    requires { at.old ≤ length piece.now }
    ensures within { at.new ≤ length piece.now }
    ensures reads { IfSome result (λ last. ReadsLast grammar piece.now at.old at.new last) }
{
    let mut last = Numbers::new(alloc);
    for turn in 0..grammar.most_items {
        if pass_byte(piece, at, b'\n') {
            return Some(last);
        }
        if !pass_byte(piece, at, b' ') {
            return None;
        }
        let number = number_at(piece, at)?;
        let Ok(()) = last.push(number) else {
            return None;
        };
    }
    None
}

// Reads a state line with last jobs, where the piece begins with one.
fn state_line(alloc: Global, grammar: Grammar, piece: &[u8]) -> Option<PieceEnd>
    requires { grammar.has_last ≡ true }
    ensures { IfSome result (λ end. IsWholeLine grammar piece.now end) }
{
    if !piece.starts_with(b"state ") {
        return None;
    }
    let mut at = 6;
    let parent = field_at(piece, &mut at, b' ')?;
    let job = field_at(piece, &mut at, b' ')?;
    let pairs = pairs_at(alloc, grammar, piece, &mut at)?;
    let ends = ends_at(alloc, grammar, piece, &mut at)?;
    let last = last_at(alloc, grammar, piece, &mut at)?;
    let line = CertLine::State {
        parent,
        job,
        pairs,
        ends,
        last,
    };
    Some(PieceEnd::Line { count: at, line })
}

// Reads an edge line or a state line with last jobs, where the piece begins with one.
fn frequent_line(alloc: Global, grammar: Grammar, piece: &[u8]) -> Option<PieceEnd>
    ensures { IfSome result (λ end. IsWholeLine grammar piece.now end) }
{
    if piece.is_empty() {
        None
    } else if piece[0] == b'e' {
        edge_line(piece)
    } else if grammar.has_last {
        state_line(alloc, grammar, piece)
    } else {
        None
    }
}

/// Takes a whole line at once, where a line of a certificate begins and one of the frequent kinds is there.
pub fn whole_line(
    alloc: Global,
    grammar: Grammar,
    standing: Standing,
    spot: Spot,
    piece: &[u8],
) -> Option<PieceEnd>
    ensures { IfSome result (λ end. (d : Draft) → KeptSpot grammar d spot
        → TakesPiece grammar standing (On d spot) piece.now (Ok end) d spot) }
{
    if let (Standing::Inside, Spot::Start) = (standing, spot) {
        frequent_line(alloc, grammar, piece)
    } else {
        None
    }
}
