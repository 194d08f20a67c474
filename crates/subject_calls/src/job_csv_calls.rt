use job_csv::{CsvFault, read_jobs, write_jobs};
use job_model::{Job, JobTable};
use std::test::Fail;

#[test]
fn reads_jobs(rt: HostRuntime) -> Result<(), Fail> {
    let plain = b"Task ID,Job ID,Arrival min,Arrival max,Cost min,Cost max,Deadline,Priority\n\
        1,1,0,1,1,2,5,1\n2,1,0,0,2,3,9,2\n";
    let padded = b"\tTask ID , Job ID,,,,,,Priority\r\n\r\n 1 ,\t1,0\t, 1 ,1 , 2,5, 1\t\r\n\
        \r\n  2,1 ,0,0,\t2\t,3, 9 ,2  \r\n";
    let want = [
        Job::from_row([1, 1, 0, 1, 1, 2, 5, 1]),
        Job::from_row([2, 1, 0, 0, 2, 3, 9, 2]),
    ];
    for text in [plain.as_slice(), padded.as_slice()] {
        let jobs = read_jobs(rt.alloc(), text)?;
        assert_eq!(rt; jobs.as_slice(), want.as_slice());
    }
    Ok(())
}

#[test]
fn refuses_rows(rt: HostRuntime) {
    let cases = [
        (b"".as_slice(), CsvFault::NoHeading),
        (b"h\n1,1,0,1,1,2,5\n".as_slice(), CsvFault::Width(1, 7)),
        (b"h\n1,1,0,1,1,2,5,\n".as_slice(), CsvFault::NotNumber(1, 8)),
        (
            b"h\n1,1,0,1,1,2,18446744073709551616,1\n".as_slice(),
            CsvFault::TooBig(1, 7),
        ),
    ];
    for (text, fault) in cases {
        assert!(rt; matches!(read_jobs(rt.alloc(), text), Err(found) if found == fault));
    }
}

#[test]
fn writes_the_rows_that_were_read(rt: HostRuntime) -> Result<(), Fail> {
    let alloc = rt.alloc();
    let padded = b"\tTask ID , Job ID,,,,,,Priority\r\n\r\n 1 ,\t1,0\t, 1 ,1 , 2,5, 1\t\r\n\
        \r\n  2,1 ,0,0,\t2\t,3, 9 ,2  \r\n";
    let plain = b"Task ID,Job ID,Arrival min,Arrival max,Cost min,Cost max,Deadline,Priority\n\
        1,1,0,1,1,2,5,1\n2,1,0,0,2,3,9,2\n";
    let heading = b"Task ID,Job ID,Arrival min,Arrival max,Cost min,Cost max,Deadline,Priority\n";
    for (text, written) in [
        (padded.as_slice(), plain.as_slice()),
        (b"h".as_slice(), heading.as_slice()),
    ] {
        let table = JobTable::from_rows(alloc, read_jobs(alloc, text)?)?;
        let found = write_jobs(alloc, &table)?;
        assert_eq!(rt; found.as_slice(), written);
    }
    Ok(())
}
