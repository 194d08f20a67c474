//! Reads a certificate of 100 MB, which is made in memory, through `CertReader`, and counts its lines.
#![tactic(auto)]

use cert_text::{CertReader, FeedFault};
use std::alloc::{AllocError, Global};
use std::process::ExitCode;

const HEAD: &[u8] = b"sagcert 2 16384 4\n";

// A state and two edges, as they stand between the head and the end.
const LINES: &[u8] = b"state 12 345 1000:2000 1100:2100 1200:2200 1300:2300 | 17:900:2300 | 17\n\
    edge 12 345 1000 1100 17\nedge 12 346 1000 1250 18\n";

const BYTES: u64 = 100_000_000;

// The lines over and over, to about 64 KiB: a piece of the file.
fn piece(alloc: Global) -> Result<Vec<u8>, AllocError> {
    let mut piece = Vec::new(alloc);
    for _ in 0..560 {
        piece.extend_from_slice(LINES)?;
    }
    Ok(piece)
}

// Reads pieces up to so many bytes, and counts their lines.
fn read_lines(alloc: Global, piece: &[u8]) -> Result<u64, FeedFault> {
    let mut reader = CertReader::new(alloc);
    let mut lines = 0;
    let mut at = 0;
    let mut left = BYTES;
    for turn in 0..1_000_000_000u64 {
        let rest = if turn == 0 { HEAD } else { &piece[at..] };
        let count = reader.feed(rest)?;
        if turn > 0 {
            at += count;
        }
        if at == piece.len() {
            at = 0;
        }
        left = left.saturating_sub(count as u64);
        if reader.take().is_some() {
            lines += 1;
        }
        if left == 0 {
            break;
        }
    }
    Ok(lines)
}

fn main(rt: HostRuntime) -> ExitCode {
    let Ok(piece) = piece(rt.alloc()) else {
        return ExitCode::FAILURE;
    };
    match read_lines(rt.alloc(), &piece) {
        Ok(lines) => {
            let _ = println!(rt; "{BYTES} bytes, {lines} lines");
            ExitCode::SUCCESS
        }
        Err(_) => ExitCode::FAILURE,
    }
}
