ghost use Rattle.std.specs.Prelude.{◌≡◌, ◌++◌, vec_len};

use sag_edge::{
    Failed, FileBytes, FileName, Files, MemFiles, MemSink, ReadAnswer, RealFiles, Sink, StdSink,
    SureFiles, SureSink, TakePiece, pour, read_all, write_whole,
};
use std::alloc::{AllocError, Global};
use std::test::Fail;

const TEXT: &str = "sixteen bytes and a few more";

fn named(alloc: Global, text: &str) -> Result<FileName, Fail> {
    Ok(FileName::from_text(alloc, text)?)
}

/// Two files of one name, of which the first counts.
fn two_files(alloc: Global) -> Result<Vec<(FileName, FileBytes)>, Fail> {
    let mut files = Vec::new(alloc);
    for text in [TEXT, "not this one"] {
        let bytes = FileBytes::from_vec(Vec::from_slice(alloc, text.as_bytes())?);
        files.push((named(alloc, "a")?, bytes))?;
    }
    Ok(files)
}

#[test]
fn reads_whole_files(rt: HostRuntime) -> Result<(), Fail> {
    let alloc = rt.alloc();
    let cases = [
        ("a", 28, 9, Ok(TEXT)),
        ("a", 27, 9, Err(ReadAnswer::TooLong)),
        ("a", 100, 0, Err(ReadAnswer::ReadFault)),
        ("a", 100, 2, Err(ReadAnswer::ReadFault)),
        ("a", 100, 3, Err(ReadAnswer::ReadFault)),
        ("b", 100, 9, Err(ReadAnswer::ReadFault)),
    ];
    for (name, limit, failing, want) in cases {
        let mut faults = Vec::new(alloc);
        faults.push((named(alloc, "a")?, failing))?;
        let mut files = MemFiles::new(two_files(alloc)?, 16, faults);
        let got = read_all(alloc, &mut files, named(alloc, name)?, limit);
        match (got, want) {
            (Ok(got), Ok(want)) => assert_eq!(rt;
                got.as_slice(),
                want.as_bytes(),
                "{name} {limit} {failing}"
            ),
            (Err(got), Err(want)) => assert_eq!(rt; got, want, "{name} {limit} {failing}"),
            _ => assert!(rt; false, "{name} {limit} {failing}"),
        }
    }
    Ok(())
}

/// Keeps the pieces that it takes, one behind the other.
#[derive(Drop)]
struct Pieces {
    list: Vec<u8>,
}

impl TakePiece for Pieces {
    ghost count = { λ pieces. vec_len pieces.list };

    ghost takes = { λ start bytes now. now.list.items ≡ start.list.items ++ bytes };

    fn take_piece(&mut self, piece: &[u8]) -> Result<(), AllocError> {
        self.list.extend_from_slice(piece)?;
        Ok(())
    }
}

#[test]
fn hands_on_whole_files(rt: HostRuntime) -> Result<(), Fail> {
    let alloc = rt.alloc();
    let cases = [
        (28, 9, Ok(()), 28),
        (27, 9, Err(ReadAnswer::TooLong), 28),
        (100, 0, Err(ReadAnswer::ReadFault), 0),
        (100, 2, Err(ReadAnswer::ReadFault), 16),
    ];
    for (limit, failing, want, taken) in cases {
        let mut faults = Vec::new(alloc);
        faults.push((named(alloc, "a")?, failing))?;
        let mut files = MemFiles::new(two_files(alloc)?, 16, faults);
        let mut pieces = Pieces {
            list: Vec::new(alloc),
        };
        let got = pour(alloc, &mut files, named(alloc, "a")?, limit, &mut pieces);
        assert_eq!(rt; got, want, "{limit} {failing}");
        assert_eq!(rt; pieces.list.len(), taken, "{limit} {failing}");
        assert!(rt;
            TEXT.as_bytes().starts_with(&pieces.list),
            "{limit} {failing}"
        );
    }
    Ok(())
}

#[test]
fn reads_without_failing(rt: HostRuntime) -> Result<(), Fail> {
    let alloc = rt.alloc();
    let mut files = SureFiles::new(two_files(alloc)?);
    for (name, want) in [("a", TEXT), ("b", "")] {
        let got = read_all(alloc, &mut files, named(alloc, name)?, 100);
        assert_eq!(rt; got.map(|list| list.len()), Ok(want.len()), "{name}");
    }
    let name = named(alloc, "name")?;
    assert_eq!(rt; name.as_str(), "name");
    assert_eq!(rt; FileBytes::from_vec(Vec::new(alloc)).as_slice().len(), 0);
    Ok(())
}

#[test]
fn writes_in_pieces(rt: HostRuntime) -> Result<(), Fail> {
    let alloc = rt.alloc();
    let cases = [
        (28, 0, Ok(()), TEXT),
        (28, 2, Err(Failed), "sixteen by"),
        (15, 0, Err(Failed), "sixteen bytes a"),
    ];
    for (room, failing, want, taken) in cases {
        let mut sink = MemSink::new(alloc, room, 10, vec![in alloc; failing]?)?;
        assert_eq!(rt;
            write_whole(&mut sink, TEXT.as_bytes()),
            want,
            "{room} {failing}"
        );
        assert_eq!(rt; sink.bytes(), taken.as_bytes(), "{room} {failing}");
    }
    let mut sink = MemSink::new(alloc, 28, 10, vec![in alloc; 2]?)?;
    assert_eq!(rt; sink.finish(), Ok(()));
    assert_eq!(rt; sink.finish(), Err(Failed));
    let mut sure = SureSink::new(alloc, 3)?;
    assert_eq!(rt; write_whole(&mut sure, TEXT.as_bytes()), Ok(()));
    assert_eq!(rt; sure.finish(), Ok(()));
    Ok(())
}

#[test]
fn adapts_the_files_of_the_machine(rt: HostRuntime) -> Result<(), Fail> {
    let alloc = rt.alloc();
    let mut files = RealFiles::new(rt);
    let absent = files.begin(named(alloc, "no such folder/file")?);
    assert_eq!(rt; absent, Err(Failed));
    // A folder is opened, and not read. The device gives zeros without end.
    for (name, limit, want) in [
        ("no such folder/file", 9, ReadAnswer::ReadFault),
        (".", 9, ReadAnswer::ReadFault),
        ("/dev/full", 9, ReadAnswer::TooLong),
    ] {
        let got = read_all(alloc, &mut files, named(alloc, name)?, limit);
        assert_eq!(rt; got.err(), Some(want), "{name}");
    }
    let none = read_all(alloc, &mut files, named(alloc, "/dev/null")?, 0);
    assert_eq!(rt; none.map(|list| list.len()), Ok(0));
    Ok(())
}

#[test]
fn adapts_the_streams_of_the_machine(rt: HostRuntime) -> Result<(), Fail> {
    let mut sink = StdSink::new(std::io::sink());
    assert_eq!(rt; write_whole(&mut sink, TEXT.as_bytes()), Ok(()));
    assert_eq!(rt; sink.finish(), Ok(()));
    // The device that is always full.
    let Ok(device) = std::fs::create(&rt, "/dev/full") else {
        return Ok(());
    };
    let mut full = StdSink::new(device);
    assert_eq!(rt; write_whole(&mut full, TEXT.as_bytes()), Err(Failed));
    assert_eq!(rt; full.finish(), Ok(()));
    Ok(())
}
