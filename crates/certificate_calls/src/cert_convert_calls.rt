ghost use Rattle.std.specs.Prelude.{◌≤◌, length};

use cert_convert::{Conversion, converted_is_readable, one_conversion};
use cert_text::FeedFault;
use sag_edge::TakePiece;
use std::alloc::{AllocError, Global};
use std::test::Fail;

// Whether a text that comes in two pieces converts to this one, or has this fault.
fn converts(
    alloc: Global,
    text: &str,
    split: usize,
    want: Result<&str, FeedFault>,
) -> Result<bool, AllocError>
    requires { length text.now ≤ 200 }
{
    let mut conversion = Conversion::new(alloc);
    let (front, rest) = text.as_bytes().split_at(split.min(text.len()));
    conversion.take_piece(front)?;
    conversion.take_piece(rest)?;
    match (conversion.finish(), want) {
        (Ok(text), Ok(want)) => Ok(text.as_slice() == want.as_bytes()),
        (Err(fault), Err(want)) => Ok(fault == want),
        _ => Ok(false),
    }
}

#[test]
fn converts_lines(rt: HostRuntime) -> Result<(), Fail> {
    converted_is_readable();
    one_conversion();
    let old =
        "sagcert 1 3 2\nlevel 1 1\nroot 0:0 0:0\nstate 0 0 0:0 2:4 | 0:2:4\nedge 0 0 0 0 0\njob 0 2 4 ok\nverdict ok\nend\n";
    let new =
        "sagcert 2 3 2\nlevel 1 1\nroot 0:0 0:0\nstate 0 0 0:0 2:4 | 0:2:4 |\nedge 0 0 0 0 0\njob 0 2 4 ok\nverdict ok\nend\n";
    let fault = |line, byte| Err(FeedFault::Text { line, byte });
    let cases = [
        (old, Ok(new)),
        (new, fault(1, 9)),
        ("", fault(1, 1)),
        ("sagcert 1 3 2\nend", fault(2, 4)),
    ];
    for (text, want) in cases {
        for split in [0, 9, 52, 200] {
            assert!(rt; converts(rt.alloc(), text, split, want)?, "{text} {split}");
        }
    }
    Ok(())
}
