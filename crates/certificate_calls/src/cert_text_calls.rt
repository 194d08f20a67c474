ghost use Rattle.std.specs.Prelude.{◌≡◌, ◌≤◌, length};

use cert_text::{
    CertLine, CertReader, EndList, EndOf, FeedFault, Mark, Numbers, Pair, Pairs, write_line,
};
use std::alloc::{AllocError, Global};
use std::test::Fail;

// Two jobs on one core.
fn one_core() -> &'static [u8]
    ensures { length result.now ≡ 208 }
{
    b"sagcert 2 2 1\nlevel 0 1\nroot 0:0\nlevel 1 2\nstate 0 0 1:2 | |\nstate 0 1 2:3 | |\nedge 0 0 0 0 0\n\
edge 0 1 0 0 1\nlevel 2 1\nstate 0 1 3:5 | |\nedge 0 1 1 2 0\nedge 1 0 2 3 0\njob 0 1 5 ok\njob 1 2 5 ok\n\
verdict ok\nend\n"
}

// The same in the old version.
fn one_core_old() -> &'static [u8] {
    b"sagcert 1 2 1\nlevel 0 1\nroot 0:0\nlevel 1 2\nstate 0 0 1:2 |\nstate 0 1 2:3 |\nedge 0 0 0 0 0\n\
edge 0 1 0 0 1\nlevel 2 1\nstate 0 1 3:5 |\nedge 0 1 1 2 0\nedge 1 0 2 3 0\njob 0 1 5 ok\njob 1 2 5 ok\n\
verdict ok\nend\n"
}

// The first bytes of it.
fn begun(count: usize) -> &'static [u8]
    requires { count ≤ 208 }
{
    &one_core()[..count]
}

// Three jobs on two cores, with a precedence, so that states have ends and last jobs.
fn with_last() -> &'static [u8] {
    b"sagcert 2 3 2\nlevel 0 1\nroot 0:0 0:0\nlevel 1 1\nstate 0 0 0:0 2:4 | 0:2:4 | 0\nedge 0 0 0 0 0\n\
level 2 1\nstate 0 1 1:1 2:4 | 0:2:4 | 0\nedge 0 1 0 0 0\nlevel 3 1\nstate 0 2 2:4 3:6 | |\nedge 0 2 2 4 0\n\
job 0 2 4 ok\njob 1 1 1 ok\njob 2 3 6 ok\nverdict ok\nend\n"
}

// The same without last jobs, in the new version and in the old.
fn with_ends() -> &'static [u8] {
    b"sagcert 2 3 2\nlevel 0 1\nroot 0:0 0:0\nlevel 1 1\nstate 0 0 0:0 2:4 | 0:2:4 |\nedge 0 0 0 0 0\n\
level 2 1\nstate 0 1 1:1 2:4 | 0:2:4 |\nedge 0 1 0 0 0\nlevel 3 1\nstate 0 2 2:4 3:6 | |\nedge 0 2 2 4 0\n\
job 0 2 4 ok\njob 1 1 1 ok\njob 2 3 6 miss\nverdict miss\nend\n"
}

fn with_ends_old() -> &'static [u8] {
    b"sagcert 1 3 2\nlevel 0 1\nroot 0:0 0:0\nlevel 1 1\nstate 0 0 0:0 2:4 | 0:2:4\nedge 0 0 0 0 0\n\
level 2 1\nstate 0 1 1:1 2:4 | 0:2:4\nedge 0 1 0 0 0\nlevel 3 1\nstate 0 2 2:4 3:6 |\nedge 0 2 2 4 0\n\
job 0 2 4 ok\njob 1 1 1 ok\njob 2 3 6 miss\nverdict miss\nend\n"
}

// The end of the piece that begins here: of the first bytes, or of so many behind them.
fn piece_end(text: &[u8], at: usize, split: usize, cut: usize) -> usize
    requires at { at ≤ length text.now }
    requires split { split ≤ length text.now }
    ensures begins { at ≤ result }
    ensures within { result ≤ length text.now }
{
    if at < split {
        split
    } else {
        at + cut.min(text.len() - at)
    }
}

// Reads a text, the first bytes and then pieces of so many, and writes its lines.
fn copy(
    alloc: Global,
    old: bool,
    text: &[u8],
    split: usize,
    cut: usize,
    copied: &mut Vec<u8>,
) -> Result<(), FeedFault>
    requires { split ≤ length text.now }
{
    let mut reader = if old {
        CertReader::old(alloc)
    } else {
        CertReader::new(alloc)
    };
    let mut at = 0;
    for turn in 0..1000usize {
        let end = piece_end(text, at, split, cut);
        at += reader.feed(&text[at..end])?;
        if let Some(line) = reader.take() {
            if write_line(&line, copied).is_err() {
                return Err(FeedFault::Memory);
            }
        }
    }
    reader.close()
}

// Reads a text in pieces of so many bytes.
fn read(alloc: Global, old: bool, text: &[u8], cut: usize) -> Result<(), FeedFault> {
    let mut copied = Vec::new(alloc);
    copy(alloc, old, text, 0, cut, &mut copied)
}

// Whether what is read of a text, and written in the new version, is another.
fn is_copied(alloc: Global, old: bool, text: &[u8], split: usize, cut: usize, want: &[u8]) -> bool
    requires { split ≤ length text.now }
{
    let mut copied = Vec::new(alloc);
    copy(alloc, old, text, split, cut, &mut copied).is_ok() && copied.as_slice() == want
}

#[test]
fn reads_and_writes_back(rt: HostRuntime) {
    let cases = [
        (false, one_core(), one_core()),
        (false, with_last(), with_last()),
        (false, with_ends(), with_ends()),
        (true, one_core_old(), one_core()),
        (true, with_ends_old(), with_ends()),
    ];
    for (old, text, want) in cases {
        for cut in [1, 7, 1000] {
            assert!(rt; is_copied(rt.alloc(), old, text, 0, cut, want));
        }
    }
}

#[test]
fn reads_at_every_split(rt: HostRuntime) {
    for split in 0..209usize {
        assert!(rt; is_copied(rt.alloc(), false, one_core(), split, 1000, one_core()));
    }
}

// A state line with 01, where one edge before it is missing, too, or not.
fn leading_zero(lacks_edge: bool) -> &'static [u8] {
    if lacks_edge {
        b"sagcert 2 2 1\nlevel 0 1\nroot 0:0\nlevel 1 2\nstate 0 0 1:2 | |\nstate 0 1 2:3 | |\nedge 0 0 0 0 0\n\
level 2 1\nstate 0 01 3:5 | |\nedge 0 1 1 2 0\nend\n"
    } else {
        b"sagcert 2 2 1\nlevel 0 1\nroot 0:0\nlevel 1 2\nstate 0 0 1:2 | |\nstate 0 1 2:3 | |\nedge 0 0 0 0 0\n\
edge 0 1 0 0 1\nlevel 2 1\nstate 0 01 3:5 | |\nedge 0 1 1 2 0\nend\n"
    }
}

#[test]
fn names_the_first_wrong_byte(rt: HostRuntime) {
    let cases = [
        (leading_zero(false), 10, 10),
        (leading_zero(true), 9, 10),
        // The greatest number, and one more.
        (b"sagcert 2 2 4611686018427387903".as_slice(), 1, 32),
        (b"sagcert 2 2 4611686018427387904\n".as_slice(), 1, 31),
        // Two spaces, a CR, a space at the end of a line, a second head line.
        (b"sagcert 2  2 1\n".as_slice(), 1, 11),
        (b"sagcert 2 2 1\r\n".as_slice(), 1, 14),
        (b"sagcert 2 2 1 \n".as_slice(), 1, 14),
        (b"sagcert 2 2 1\nsagcert 2 2 1\n".as_slice(), 2, 2),
        // A root without pairs, a bar before any pair, no second bar, no LF behind the last bar.
        (b"sagcert 2 2 1\nroot\n".as_slice(), 2, 5),
        (b"sagcert 2 2 1\nstate 0 0 |\n".as_slice(), 2, 11),
        (b"sagcert 2 2 1\nstate 0 0 1:2 |\n".as_slice(), 2, 16),
        (b"sagcert 2 2 1\nstate 0 0 1:2 | 3:4:5\n".as_slice(), 2, 22),
        (b"sagcert 2 2 1\nstate 0 0 1:2 | | \n".as_slice(), 2, 19),
        // A last job that is an interval, or has a leading zero.
        (b"sagcert 2 2 1\nstate 0 0 1:2 | | 3:4\n".as_slice(), 2, 20),
        (b"sagcert 2 2 1\nstate 0 0 1:2 | | 03\n".as_slice(), 2, 20),
    ];
    for (text, line, byte) in cases {
        for cut in [1, 7, 1000] {
            let want = Err(FeedFault::Text { line, byte });
            assert_eq!(rt; read(rt.alloc(), false, text, cut), want, "{text:?}");
        }
    }
}

#[test]
fn reads_each_version_alone(rt: HostRuntime) {
    let cases = [
        (false, b"sagcert 1 2 1\n".as_slice(), 1, 9),
        (true, b"sagcert 2 2 1\n".as_slice(), 1, 9),
        (
            true,
            b"sagcert 1 2 1\nstate 0 0 1:2 | |\n".as_slice(),
            2,
            17,
        ),
        (true, b"sagcert 1 2 1\nstate 0 0 1:2 | \n".as_slice(), 2, 17),
    ];
    for (old, text, line, byte) in cases {
        let want = Err(FeedFault::Text { line, byte });
        assert_eq!(rt; read(rt.alloc(), old, text, 1000), want, "{text:?}");
    }
}

#[test]
fn nothing_stands_behind_the_end(rt: HostRuntime) -> Result<(), Fail> {
    for behind in [b"\n".as_slice(), one_core()] {
        let mut text = Vec::from_slice(rt.alloc(), one_core())?;
        text.extend_from_slice(behind)?;
        for cut in [1, 7, 1000] {
            let want = Err(FeedFault::Text { line: 17, byte: 1 });
            assert_eq!(rt; read(rt.alloc(), false, text.as_slice(), cut), want);
        }
    }
    Ok(())
}

// The place of the byte behind a text: its line and its number in the line.
fn place_behind(text: &[u8]) -> (u64, u64) {
    let lines = text.iter().filter(|b| **b == b'\n').count();
    let bytes = text.iter().rev().take_while(|b| **b != b'\n').count();
    (
        (lines as u64).saturating_add(1),
        (bytes as u64).saturating_add(1),
    )
}

#[test]
fn names_the_missing_byte(rt: HostRuntime) {
    for count in 0..208 {
        let (line, byte) = place_behind(begun(count));
        for cut in [1, 7, 1000] {
            let want = Err(FeedFault::Text { line, byte });
            assert_eq!(rt; read(rt.alloc(), false, begun(count), cut), want, "{count}");
        }
    }
}

// A head line, and a line of a front and so many items.
fn with_items(
    alloc: Global,
    old: bool,
    front: &[u8],
    item: &[u8],
    count: usize,
) -> Result<Vec<u8>, AllocError> {
    let head = if old {
        b"sagcert 1 2 1\n"
    } else {
        b"sagcert 2 2 1\n"
    };
    let mut text = Vec::from_slice(alloc, head.as_slice())?;
    text.extend_from_slice(front)?;
    for _ in 0..count {
        text.extend_from_slice(item)?;
    }
    Ok(text)
}

#[test]
fn counts_items(rt: HostRuntime) -> Result<(), Fail> {
    let (root, pair) = (b"root".as_slice(), b" 0:0".as_slice());
    let (state, end) = (b"state 0 0".as_slice(), b" 0:0:0".as_slice());
    let (barred, closed) = (
        b"state 0 0 0:0 |".as_slice(),
        b"state 0 0 0:0 | |".as_slice(),
    );
    let cases = [
        (false, root, pair, 256, 1029),
        (false, root, pair, 257, 1029),
        (false, state, pair, 256, 1034),
        (false, state, pair, 257, 1035),
        (false, barred, end, 16384, 98320),
        (false, barred, end, 16385, 98321),
        (false, closed, b" 0".as_slice(), 16384, 32786),
        (false, closed, b" 0".as_slice(), 16385, 32786),
        (true, root, pair, 64, 261),
        (true, root, pair, 65, 261),
        (true, state, pair, 64, 266),
        (true, state, pair, 65, 267),
        (true, barred, end, 4096, 24592),
        (true, barred, end, 4097, 24592),
    ];
    for (old, front, item, count, byte) in cases {
        let text = with_items(rt.alloc(), old, front, item, count)?;
        let want = Err(FeedFault::Text { line: 2, byte });
        assert_eq!(rt; read(rt.alloc(), old, text.as_slice(), 100000), want);
    }
    Ok(())
}

#[test]
fn keeps_lines_and_faults(rt: HostRuntime) {
    let mut reader = CertReader::new(rt.alloc());
    assert_eq!(rt; reader.feed(b"sagcert 2 3 2\nlevel"), Ok(14));
    assert_eq!(rt; reader.feed(b"level"), Ok(0));
    assert!(rt; matches!(reader.take(), Some(CertLine::Head { jobs: 3, cores: 2 })));
    assert!(rt; reader.take().is_none());
    let fault = FeedFault::Text { line: 2, byte: 6 };
    assert_eq!(rt; reader.feed(b"levelx"), Err(fault));
    assert_eq!(rt; reader.feed(b""), Err(fault));
    assert_eq!(rt; reader.feed(b" 0 1\n"), Err(fault));
    assert!(rt; reader.take().is_none());
    assert_eq!(rt; reader.close(), Err(fault));
}

// A state of one pair, one end and one last job.
fn a_state(alloc: Global) -> Result<CertLine, AllocError> {
    let mut pairs = Pairs::new(alloc);
    pairs.push(Pair { lo: 1, hi: 2 })?;
    let mut ends = EndList::new(alloc);
    ends.push(EndOf {
        job: 7,
        lo: 3,
        hi: 4,
    })?;
    let mut last = Numbers::new(alloc);
    last.push(7)?;
    Ok(CertLine::State {
        parent: 5,
        job: 6,
        pairs,
        ends,
        last,
    })
}

// Whether a state has these items.
fn has_items(line: &CertLine, pair: Pair, end: EndOf, job: u64) -> bool {
    let CertLine::State {
        pairs,
        ends,
        last,
        ..
    } = line
    else {
        return false;
    };
    pairs.as_slice() == [pair].as_slice()
        && ends.as_slice() == [end].as_slice()
        && last.as_slice() == [job].as_slice()
}

#[test]
fn holds_items(rt: HostRuntime) -> Result<(), Fail> {
    let state = a_state(rt.alloc())?;
    let end = EndOf {
        job: 7,
        lo: 3,
        hi: 4,
    };
    assert!(rt; has_items(&state, Pair { lo: 1, hi: 2 }, end, 7));
    Ok(())
}

#[test]
fn writes_lines(rt: HostRuntime) -> Result<(), Fail> {
    let mut text = Vec::new(rt.alloc());
    let line = CertLine::Job {
        number: 0,
        lo: 12,
        hi: 345,
        mark: Mark::Miss,
    };
    write_line(&line, &mut text)?;
    write_line(&CertLine::End, &mut text)?;
    assert_eq!(rt; text.as_slice(), b"job 0 12 345 miss\nend\n".as_slice());
    Ok(())
}
