use csv_numbers::{CsvFault, NumberFault, read_number, read_numbers, write_table};
use std::alloc::Global;
use std::test::Fail;

// The numbers of all rows of one column.
fn column(alloc: Global, text: &[u8]) -> Result<Vec<u64>, Fail> {
    let rows = read_numbers(alloc, text, 1)?;
    let mut numbers = Vec::new(alloc);
    for place in 0..rows.len() {
        for number in rows.row(place) {
            numbers.push(*number)?;
        }
    }
    Ok(numbers)
}

#[test]
fn reads_numbers(rt: HostRuntime) -> Result<(), Fail> {
    let cases = [
        // Blanks are spaces and tabs, and they go after the quotes.
        (b"h\n \t1\t \n".as_slice(), [1].as_slice()),
        (b"h\n\" 1 \"\n".as_slice(), [1].as_slice()),
        (b"h\n\"1\" \n".as_slice(), [1].as_slice()),
        (b"h\n\"1\"2\n".as_slice(), [12].as_slice()),
        // Leading zeros, and the greatest number.
        (b"h\n007\n".as_slice(), [7].as_slice()),
        (
            b"h\n18446744073709551615\n".as_slice(),
            [18446744073709551615].as_slice(),
        ),
        (
            b"h\n0000018446744073709551615\n".as_slice(),
            [18446744073709551615].as_slice(),
        ),
        // The ends of lines, and empty lines.
        (b"h\n1\n2\n".as_slice(), [1, 2].as_slice()),
        (b"h\r\n1\r\n2".as_slice(), [1, 2].as_slice()),
        (b"h\r1\r2\r".as_slice(), [1, 2].as_slice()),
        (b"\n\nh\n\n1\r\n\r\n\n2\n\n".as_slice(), [1, 2].as_slice()),
        // The heading may be of any width and any bytes, and is no row.
        (b"h".as_slice(), [].as_slice()),
        (b"1\n".as_slice(), [].as_slice()),
        (b"a,b,c\n1\n".as_slice(), [1].as_slice()),
        (b"\xFF\xFE\n1\n".as_slice(), [1].as_slice()),
        (b"\"h\n1\n2\n".as_slice(), [].as_slice()),
        // A byte order mark is dropped once: then the quote after it opens a field, and else it does not.
        (b"\xEF\xBB\xBF\"h\n1\n".as_slice(), [].as_slice()),
        (
            b"\xEF\xBB\xBF\xEF\xBB\xBF\"h\n1\n".as_slice(),
            [1].as_slice(),
        ),
    ];
    for (text, want) in cases {
        assert_eq!(rt; column(rt.alloc(), text)?.as_slice(), want, "{text:?}");
    }
    Ok(())
}

#[test]
fn names_the_first_fault(rt: HostRuntime) {
    let cases = [
        (b"".as_slice(), CsvFault::NoHeading),
        (b"\n\r\n".as_slice(), CsvFault::NoHeading),
        (b"\xEF\xBB\xBF".as_slice(), CsvFault::NoHeading),
        // The width comes first, then the columns from the left, and the first row before the second.
        (
            b"h\nx,1,18446744073709551616\n".as_slice(),
            CsvFault::Width(1, 3),
        ),
        (
            b"h\n18446744073709551616,x\n".as_slice(),
            CsvFault::TooBig(1, 1),
        ),
        (
            b"h\nx,18446744073709551616\n".as_slice(),
            CsvFault::NotNumber(1, 1),
        ),
        (b"h\n1,2\n3,x\n4\n".as_slice(), CsvFault::NotNumber(2, 2)),
        // A line of blanks or of quotes alone is a row of one field, and an empty line is none.
        (b"h\n\n \n".as_slice(), CsvFault::Width(1, 1)),
        (b"h\n1,2\n\n\"\"\n".as_slice(), CsvFault::Width(2, 1)),
        // Fields that are no numbers.
        (b"h\n1,\n".as_slice(), CsvFault::NotNumber(1, 2)),
        (b"h\n1, \t\n".as_slice(), CsvFault::NotNumber(1, 2)),
        (b"h\n1,+2\n".as_slice(), CsvFault::NotNumber(1, 2)),
        (b"h\n1,-2\n".as_slice(), CsvFault::NotNumber(1, 2)),
        (b"h\n1,2.0\n".as_slice(), CsvFault::NotNumber(1, 2)),
        (b"h\n1,2\x0C\n".as_slice(), CsvFault::NotNumber(1, 2)),
        (b"h\n1, \"2\"\n".as_slice(), CsvFault::NotNumber(1, 2)),
        (b"h\n1,\"2\n\"\n".as_slice(), CsvFault::NotNumber(1, 2)),
        (
            b"h\n1,18446744073709551616x\n".as_slice(),
            CsvFault::NotNumber(1, 2),
        ),
        (
            b"h\n\xEF\xBB\xBF1,2\n".as_slice(),
            CsvFault::NotNumber(1, 1),
        ),
    ];
    for (text, fault) in cases {
        assert_eq!(rt;
            read_numbers(rt.alloc(), text, 2).err(),
            Some(fault),
            "{text:?}"
        );
    }
}

#[test]
fn reads_one_number(rt: HostRuntime) {
    for (text, want) in [
        (b"0".as_slice(), Ok(0)),
        (b"007".as_slice(), Ok(7)),
        // The greatest number of 19 digits, and longer ones.
        (b"9999999999999999999".as_slice(), Ok(9999999999999999999)),
        (b"00000000000000000000".as_slice(), Ok(0)),
        (b"18446744073709551615".as_slice(), Ok(18446744073709551615)),
        (b"18446744073709551616".as_slice(), Err(NumberFault::TooBig)),
        (b"".as_slice(), Err(NumberFault::NotNumber)),
        (b" 7".as_slice(), Err(NumberFault::NotNumber)),
        (b"+7".as_slice(), Err(NumberFault::NotNumber)),
        (
            b"99999999999999999999x".as_slice(),
            Err(NumberFault::NotNumber),
        ),
    ] {
        assert_eq!(rt; read_number(text), want, "{text:?}");
    }
}

#[test]
fn reads_many_zeros(rt: HostRuntime) -> Result<(), Fail> {
    let mut text = b"h\n".to_vec(rt.alloc())?;
    for _ in 0..100_000 {
        text.push(b'0')?;
    }
    text.push(b'5')?;
    assert_eq!(rt;
        column(rt.alloc(), text.as_slice())?.as_slice(),
        [5].as_slice()
    );
    Ok(())
}

#[test]
fn keeps_rows_apart(rt: HostRuntime) -> Result<(), Fail> {
    let rows = read_numbers(
        rt.alloc(),
        b"h
1,2,3
4,5,6
",
        3,
    )?;
    assert_eq!(rt; rows.len(), 2);
    assert_eq!(rt; rows.row(0), [1, 2, 3].as_slice());
    assert_eq!(rt; rows.row(1), [4, 5, 6].as_slice());
    Ok(())
}

#[test]
fn writes_tables(rt: HostRuntime) -> Result<(), Fail> {
    let text = write_table(
        rt.alloc(),
        &["Task ID", "WCRT"],
        &[[1, 10], [18446744073709551615, 0]],
    )?;
    assert_eq!(rt;
        text.as_slice(),
        b"Task ID,WCRT\n1,10\n18446744073709551615,0\n".as_slice()
    );
    let text = write_table::<1>(rt.alloc(), &["h"], &[])?;
    assert_eq!(rt; text.as_slice(), b"h\n".as_slice());
    Ok(())
}
