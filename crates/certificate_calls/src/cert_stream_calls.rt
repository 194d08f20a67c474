//! Lines that are counted as they are handed on.

ghost use Rattle.std.specs.Prelude.{◌≡◌, ◌+◌, ◌≤◌, length};
ghost use Rattle.cert_text.specs.Grammar.{second_version};

use cert_stream::{TakeLine, close_lines, feed_lines};
use cert_text::{CertLine, CertReader, FeedFault};
use std::alloc::{AllocError, Global};
use std::test::Fail;

// A count of lines.
#[derive(Drop)]
struct LineCount {
    lines: u64,
}

impl TakeLine for LineCount {
    ghost grammar = { second_version };

    ghost count = { λ taker. taker.lines };

    ghost takes = { λ start lines now. now.lines ≡ start.lines + length lines };

    fn take_line(&mut self, _line: CertLine) -> Result<(), AllocError> {
        self.lines += 1;
        Ok(())
    }
}

// How many lines a text has that comes in two pieces, and how it ends.
fn count_lines(
    alloc: Global,
    text: &str,
    split: usize,
) -> Result<(u64, Result<(), FeedFault>), AllocError>
    requires { length text.now ≤ 100 }
{
    let mut reader = CertReader::new(alloc);
    let mut taker = LineCount { lines: 0 };
    let (front, rest) = text.as_bytes().split_at(split.min(text.len()));
    feed_lines(&mut reader, &mut taker, front)?;
    feed_lines(&mut reader, &mut taker, rest)?;
    Ok((taker.lines, close_lines(reader)))
}

#[test]
fn hands_on_lines(rt: HostRuntime) -> Result<(), Fail> {
    let text = |line, byte| Err(FeedFault::Text { line, byte });
    let cases = [
        (
            "sagcert 2 0 1\nlevel 0 1\nroot 0:0\nverdict ok\nend\n",
            5,
            Ok(()),
        ),
        ("sagcert 2 0 1\nlevel 0 1\nroot 0:0\nverdict", 3, text(4, 8)),
        (
            "sagcert 2 0 1\nlevel 0 01\nroot 0:0\nverdict ok\nend\n",
            1,
            text(2, 10),
        ),
        (
            "sagcert 1 0 1\nlevel 0 1\nroot 0:0\nverdict ok\nend\n",
            0,
            text(1, 9),
        ),
    ];
    for (bytes, lines, end) in cases {
        for split in [0, 1, 16, 33, 100] {
            let got = count_lines(rt.alloc(), bytes, split)?;
            assert_eq!(rt; got, (lines, end), "{split}");
        }
    }
    Ok(())
}
