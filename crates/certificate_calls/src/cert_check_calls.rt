//! Certificates of two jobs on one core, in two pieces.

use cert_check::{CertCheck, CertEnd};
use cert_text::FeedFault;
use graph_check::Clause;
use sag_edge::TakePiece;
use small_tables::blocking;
use std::alloc::Global;
use std::test::Fail;

const CERT: &str =
    "sagcert 2 2 1\nlevel 0 1\nroot 0:0\nlevel 1 2\nstate 0 0 1:2 | |\nstate 0 1 2:3 | |\n\
    edge 0 0 0 0 0\nedge 0 1 0 0 1\nlevel 2 1\nstate 0 1 3:5 | |\nedge 0 1 1 2 0\nedge 1 0 2 3 0\n\
    job 0 1 5 ok\njob 1 2 5 ok\nverdict ok\nend\n";

// Longer than each certificate here.
const LONGEST: usize = 1000;

// How many bytes come first.
const SPLITS: [usize; 3] = [0, 20, 208];

// The clause and the line of a no, or none for a yes of two jobs; or a fault.
type End = Result<Option<(Clause, u64)>, FeedFault>;

// What a certificate comes to, of which so many bytes come first.
fn check(alloc: Global, cert: &[u8], split: usize) -> Result<End, Fail> {
    if cert.len() > LONGEST {
        return Err("it is short")?;
    }
    let table = blocking(alloc)?;
    let mut check = CertCheck::new(alloc, &table, 1)?;
    let (front, rest) = cert.split_at(split.min(cert.len()));
    check.take_piece(front)?;
    check.take_piece(rest)?;
    match check.finish() {
        Ok(CertEnd::Yes(yes)) if yes.spans.len() == 2 && yes.marks.len() == 2 => Ok(Ok(None)),
        Ok(CertEnd::Yes(_)) => Err("it has two jobs")?,
        Ok(CertEnd::No { clause, line }) => Ok(Ok(Some((clause, line)))),
        Err(fault) => Ok(Err(fault)),
    }
}

// Whether it comes to a yes, cut at three places.
fn is_yes(alloc: Global, cert: &[u8]) -> Result<bool, Fail> {
    for split in SPLITS {
        if check(alloc, cert, split)? != Ok(None) {
            return Ok(false);
        }
    }
    Ok(true)
}

// Whether it comes to that no, cut at three places.
fn is_no(alloc: Global, cert: &[u8], clause: Clause, line: u64) -> Result<bool, Fail> {
    for split in SPLITS {
        if check(alloc, cert, split)? != Ok(Some((clause, line))) {
            return Ok(false);
        }
    }
    Ok(true)
}

// Whether it comes to a text fault there, cut at three places.
fn is_no_text(alloc: Global, cert: &[u8], line: u64, byte: u64) -> Result<bool, Fail> {
    for split in SPLITS {
        if check(alloc, cert, split)? != Err(FeedFault::Text { line, byte }) {
            return Ok(false);
        }
    }
    Ok(true)
}

#[test]
fn checks_two_pieces(rt: HostRuntime) -> Result<(), Fail> {
    let alloc = rt.alloc();
    assert!(rt; is_yes(alloc, CERT.as_bytes())?);
    assert!(rt; is_no(alloc, b"sagcert 2 3 1\nend\n", Clause::K1, 1)?);
    assert!(rt; is_no(alloc, b"sagcert 2 2 1\nend\n", Clause::K2, 2)?);
    // a text fault wins over a clause that an earlier line breaks
    assert!(rt; is_no_text(alloc, b"sagcert 2 3 1\nend\nx", 3, 1)?);
    assert!(rt; is_no_text(alloc, b"sagcert 2 3 1\nlevel", 2, 6)?);
    Ok(())
}
