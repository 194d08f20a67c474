//! Lines as bytes.

ghost use Rattle.std.specs.Prelude.{◌≡◌, ◌++◌, [], ◌∷◌, decimal, length, take, OnOk, OnErr};
ghost use Rattle.std.specs.List.{flat_map};
ghost use Rattle.cert_text.specs.Grammar.{second_version};
ghost use Rattle.cert_text.specs.Spelling.{line_text, FitsLine, end_item_text, head_word, last_item_text, mark_text, pair_item_text, state_ends, state_pairs};

use crate::grammar::second_version;
use crate::line::{CertLine, EndList, EndOf, Mark, Numbers, Pair, Pairs};
use itoa::Buffer;
use std::alloc::AllocError;

// A byte.
fn put_byte(into: &mut Vec<u8>, byte: u8) -> Result<(), AllocError>
    ensures ok { OnOk result (into.new.items ≡ into.old.items ++ byte ∷ []) }
    ensures begins { take (length into.old.items) into.new.items ≡ into.old.items }
{
    into.push(byte)?;
    Ok(())
}

// Some bytes.
fn put_text(into: &mut Vec<u8>, text: &[u8]) -> Result<(), AllocError>
    ensures ok { OnOk result (into.new.items ≡ into.old.items ++ text.now) }
    ensures begins { take (length into.old.items) into.new.items ≡ into.old.items }
{
    into.extend_from_slice(text)
}

// A number.
fn put_number(into: &mut Vec<u8>, number: u64) -> Result<(), AllocError>
    ensures ok { OnOk result (into.new.items ≡ into.old.items ++ decimal number) }
    ensures begins { take (length into.old.items) into.new.items ≡ into.old.items }
{
    let mut buffer = Buffer::new();
    into.extend_from_slice(buffer.format(number).as_bytes())
}

// An interval.
fn put_span(into: &mut Vec<u8>, lo: u64, hi: u64) -> Result<(), AllocError>
    ensures ok { OnOk result (into.new.items ≡ into.old.items ++ decimal lo ++ 58 ∷ [] ++ decimal hi) }
    ensures begins { take (length into.old.items) into.new.items ≡ into.old.items }
{
    put_number(into, lo)?;
    put_byte(into, b':')?;
    put_number(into, hi)
}

// A pair, with a space before it.
fn put_pair(into: &mut Vec<u8>, pair: Pair) -> Result<(), AllocError>
    ensures ok { OnOk result (into.new.items ≡ into.old.items ++ pair_item_text pair) }
    ensures begins { take (length into.old.items) into.new.items ≡ into.old.items }
{
    put_byte(into, b' ')?;
    put_span(into, pair.lo, pair.hi)
}

// The pairs.
fn put_pairs(into: &mut Vec<u8>, pairs: &[Pair]) -> Result<(), AllocError>
    ensures ok { OnOk result (into.new.items ≡ into.old.items ++ flat_map pair_item_text pairs.now) }
    ensures begins { take (length into.old.items) into.new.items ≡ into.old.items }
{
    for pair in pairs {
        put_pair(into, *pair)?;
    }
    Ok(())
}

// An end, with a space before it.
fn put_end(into: &mut Vec<u8>, end: EndOf) -> Result<(), AllocError>
    ensures ok { OnOk result (into.new.items ≡ into.old.items ++ end_item_text end) }
    ensures begins { take (length into.old.items) into.new.items ≡ into.old.items }
{
    put_byte(into, b' ')?;
    put_number(into, end.job)?;
    put_byte(into, b':')?;
    put_span(into, end.lo, end.hi)
}

// The ends.
fn put_ends(into: &mut Vec<u8>, ends: &[EndOf]) -> Result<(), AllocError>
    ensures ok { OnOk result (into.new.items ≡ into.old.items ++ flat_map end_item_text ends.now) }
    ensures begins { take (length into.old.items) into.new.items ≡ into.old.items }
{
    for end in ends {
        put_end(into, *end)?;
    }
    Ok(())
}

// A number, with a space before it.
fn put_last_item(into: &mut Vec<u8>, number: u64) -> Result<(), AllocError>
    ensures ok { OnOk result (into.new.items ≡ into.old.items ++ last_item_text number) }
    ensures begins { take (length into.old.items) into.new.items ≡ into.old.items }
{
    put_byte(into, b' ')?;
    put_number(into, number)
}

// The numbers.
fn put_numbers(into: &mut Vec<u8>, numbers: &[u64]) -> Result<(), AllocError>
    ensures ok { OnOk result (into.new.items ≡ into.old.items ++ flat_map last_item_text numbers.now) }
    ensures begins { take (length into.old.items) into.new.items ≡ into.old.items }
{
    for number in numbers {
        put_last_item(into, *number)?;
    }
    Ok(())
}

// A mark with its LF.
fn put_mark(into: &mut Vec<u8>, mark: Mark) -> Result<(), AllocError>
    ensures ok { OnOk result (into.new.items ≡ into.old.items ++ mark_text mark) }
    ensures begins { take (length into.old.items) into.new.items ≡ into.old.items }
{
    match mark {
        Mark::Ok => put_text(into, b"ok\n"),
        Mark::Miss => put_text(into, b"miss\n"),
    }
}

// A number and a space.
fn put_spaced(into: &mut Vec<u8>, number: u64) -> Result<(), AllocError>
    ensures ok { OnOk result (into.new.items ≡ into.old.items ++ decimal number ++ 32 ∷ []) }
    ensures begins { take (length into.old.items) into.new.items ≡ into.old.items }
{
    put_number(into, number)?;
    put_byte(into, b' ')
}

// The word of a line, with the space behind it, and a first number with its space.
fn put_front(into: &mut Vec<u8>, word: &[u8], number: u64) -> Result<(), AllocError>
    ensures ok { OnOk result (into.new.items ≡ into.old.items ++ word.now ++ decimal number ++ 32 ∷ []) }
    ensures begins { take (length into.old.items) into.new.items ≡ into.old.items }
{
    put_text(into, word)?;
    put_spaced(into, number)
}

// Two numbers, each with a space behind it.
fn put_both(into: &mut Vec<u8>, first: u64, second: u64) -> Result<(), AllocError>
    ensures ok { OnOk result (into.new.items ≡
        into.old.items ++ decimal first ++ 32 ∷ [] ++ decimal second ++ 32 ∷ []) }
    ensures begins { take (length into.old.items) into.new.items ≡ into.old.items }
{
    put_spaced(into, first)?;
    put_spaced(into, second)
}

// A number and the LF.
fn put_closing(into: &mut Vec<u8>, number: u64) -> Result<(), AllocError>
    ensures ok { OnOk result (into.new.items ≡ into.old.items ++ decimal number ++ 10 ∷ []) }
    ensures begins { take (length into.old.items) into.new.items ≡ into.old.items }
{
    put_number(into, number)?;
    put_byte(into, b'\n')
}

// A head line up to its first number.
fn put_head_word(into: &mut Vec<u8>) -> Result<(), AllocError>
    ensures ok { OnOk result (into.new.items ≡ into.old.items ++ head_word second_version) }
    ensures begins { take (length into.old.items) into.new.items ≡ into.old.items }
{
    put_text(into, b"sagcert ")?;
    put_byte(into, second_version().version)?;
    put_byte(into, b' ')
}

// A head line.
fn put_head(into: &mut Vec<u8>, jobs: u64, cores: u64) -> Result<(), AllocError>
    ensures ok { OnOk result (into.new.items ≡ into.old.items ++ line_text second_version (CertLine.Head jobs cores)) }
    ensures begins { take (length into.old.items) into.new.items ≡ into.old.items }
{
    put_head_word(into)?;
    put_spaced(into, jobs)?;
    put_closing(into, cores)
}

// A level line.
fn put_level(into: &mut Vec<u8>, number: u64, count: u64) -> Result<(), AllocError>
    ensures ok { OnOk result (into.new.items ≡ into.old.items ++ line_text second_version (CertLine.Level number count)) }
    ensures begins { take (length into.old.items) into.new.items ≡ into.old.items }
{
    put_front(into, b"level ", number)?;
    put_closing(into, count)
}

// A root line.
fn put_root(into: &mut Vec<u8>, pairs: &Pairs) -> Result<(), AllocError>
    ensures ok { OnOk result (into.new.items ≡ into.old.items ++ line_text second_version (CertLine.Root pairs.now)) }
    ensures begins { take (length into.old.items) into.new.items ≡ into.old.items }
{
    put_text(into, b"root")?;
    put_pairs(into, pairs.as_slice())?;
    put_byte(into, b'\n')
}

// A state line up to its first bar.
fn put_state_pairs(
    into: &mut Vec<u8>,
    parent: u64,
    job: u64,
    pairs: &Pairs,
) -> Result<(), AllocError>
    ensures ok { OnOk result (into.new.items ≡ into.old.items ++ state_pairs parent job pairs.now) }
    ensures begins { take (length into.old.items) into.new.items ≡ into.old.items }
{
    put_front(into, b"state ", parent)?;
    put_number(into, job)?;
    put_pairs(into, pairs.as_slice())
}

// A state line up to the end of its ends.
fn put_state_ends(
    into: &mut Vec<u8>,
    parent: u64,
    job: u64,
    pairs: &Pairs,
    ends: &EndList,
) -> Result<(), AllocError>
    ensures ok { OnOk result (into.new.items ≡
        into.old.items ++ state_ends parent job pairs.now ends.now) }
    ensures begins { take (length into.old.items) into.new.items ≡ into.old.items }
{
    put_state_pairs(into, parent, job, pairs)?;
    put_text(into, b" |")?;
    put_ends(into, ends.as_slice())
}

// The last jobs of a state line, with its second bar and its LF.
fn put_last(into: &mut Vec<u8>, last: &Numbers) -> Result<(), AllocError>
    ensures ok { OnOk result (into.new.items ≡
        into.old.items ++ 32 ∷ [] ++ 124 ∷ [] ++ flat_map last_item_text last.now ++ 10 ∷ []) }
    ensures begins { take (length into.old.items) into.new.items ≡ into.old.items }
{
    put_text(into, b" |")?;
    put_numbers(into, last.as_slice())?;
    put_byte(into, b'\n')
}

// An edge line.
fn put_edge(
    into: &mut Vec<u8>,
    from: u64,
    job: u64,
    est: u64,
    lst: u64,
    to: u64,
) -> Result<(), AllocError>
    ensures ok { OnOk result (into.new.items ≡ into.old.items ++ line_text second_version (CertLine.Edge from job est lst to)) }
    ensures begins { take (length into.old.items) into.new.items ≡ into.old.items }
{
    put_front(into, b"edge ", from)?;
    put_spaced(into, job)?;
    put_both(into, est, lst)?;
    put_closing(into, to)
}

// A job line.
fn put_job(into: &mut Vec<u8>, number: u64, lo: u64, hi: u64, mark: Mark) -> Result<(), AllocError>
    ensures ok { OnOk result (into.new.items ≡ into.old.items ++ line_text second_version (CertLine.Job number lo hi mark)) }
    ensures begins { take (length into.old.items) into.new.items ≡ into.old.items }
{
    put_front(into, b"job ", number)?;
    put_both(into, lo, hi)?;
    put_mark(into, mark)
}

// A line with its LF, or a part of it.
fn put_line(into: &mut Vec<u8>, line: &CertLine) -> Result<(), AllocError>
    ensures ok { OnOk result (into.new.items ≡ into.old.items ++ line_text second_version line.now) }
    ensures begins { take (length into.old.items) into.new.items ≡ into.old.items }
{
    match line {
        CertLine::Head { jobs, cores } => put_head(into, *jobs, *cores),
        CertLine::Level { number, count } => put_level(into, *number, *count),
        CertLine::Root { pairs } => put_root(into, pairs),
        CertLine::State {
            parent,
            job,
            pairs,
            ends,
            last,
        } => {
            put_state_ends(into, *parent, *job, pairs, ends)?;
            put_last(into, last)
        }
        CertLine::Edge {
            from,
            job,
            est,
            lst,
            to,
        } => put_edge(into, *from, *job, *est, *lst, *to),
        CertLine::Job {
            number,
            lo,
            hi,
            mark,
        } => put_job(into, *number, *lo, *hi, *mark),
        CertLine::Verdict { mark } => {
            put_text(into, b"verdict ")?;
            put_mark(into, *mark)
        }
        CertLine::End => put_text(into, b"end\n"),
    }
}

/// Appends the line's one spelling, with its LF, or nothing.
pub fn write_line(line: &CertLine, into: &mut Vec<u8>) -> Result<(), AllocError>
    requires { FitsLine second_version line.now }
    ensures ok { OnOk result (into.new.items ≡ into.old.items ++ line_text second_version line.now) }
    ensures err { OnErr result (into.new.items ≡ into.old.items) }
{
    let before = into.len();
    if put_line(into, line).is_err() {
        into.truncate(before);
        return Err(AllocError);
    }
    Ok(())
}
