use csv_numbers::CsvFault;
use job_model::{Job, JobNo, JobTable};
use run_meaning::Place;
use side_csv::{
    JobEdit, SideFault, edits_keep_rules, one_edit_fault, one_list_of_edits, read_edges,
    read_edits, read_run, read_scenario, write_scenario,
};
use std::alloc::{AllocError, Global};

// The table of these rows.
fn table_of(alloc: Global, rows: &[Job]) -> Result<JobTable, AllocError> {
    match JobTable::from_rows(alloc, rows.to_vec(alloc)?) {
        Ok(table) => Ok(table),
        Err(_) => Err(AllocError),
    }
}

// Two jobs: 1 1 is released from 0 to 1 and costs 1 or 2, and 2 1 is released at 0 and costs 2 or 3.
fn two_jobs(alloc: Global) -> Result<JobTable, AllocError> {
    let first = Job::from_row([1, 1, 0, 1, 1, 2, 5, 1]);
    let second = Job::from_row([2, 1, 0, 0, 2, 3, 9, 2]);
    table_of(alloc, &[first, second])
}

// Why this text gives the two jobs no scenario.
fn fault_of(alloc: Global, text: &[u8]) -> Option<SideFault> {
    let Ok(table) = two_jobs(alloc) else {
        return Some(SideFault::Memory);
    };
    read_scenario(alloc, text, &table).err()
}

// Whether that is why.
fn refuses(alloc: Global, text: &[u8], fault: SideFault) -> bool {
    fault_of(alloc, text) == Some(fault)
}

#[test]
fn judges_rows_by_the_table(rt: HostRuntime) {
    let alloc = rt.alloc();
    assert!(rt; refuses(alloc, b"h\n1,1,2,1\n", SideFault::Outside(1, 3)));
    assert!(rt; refuses(alloc, b"h\n1,1,0,3\n", SideFault::Outside(1, 4)));
    assert!(rt; refuses(alloc, b"h\n9,1,0,1\n", SideFault::Unknown(1, 1)));
    assert!(rt; refuses(alloc, b"h\n2,1,0,2\n2,1,0,2\n", SideFault::Twice(2, 1)));
    assert!(rt; refuses(alloc, b"h\n2,1,0,2\n", SideFault::Missing(JobNo(0))));
}

#[test]
fn judges_all_rows_by_csv_first(rt: HostRuntime) {
    let cases: [(&[u8], CsvFault); 3] = [
        (b"", CsvFault::NoHeading),
        (b"h\n1,1,0\n", CsvFault::Width(1, 3)),
        (b"h\n9,1,0,1\n1,1,0,x\n", CsvFault::NotNumber(2, 4)),
    ];
    for (text, fault) in cases {
        assert!(rt;
            refuses(rt.alloc(), text, SideFault::Csv(fault)),
            "{text:?}"
        );
    }
}

// Whether this is written of the scenario that the text gives the table.
fn writes(alloc: Global, table: &JobTable, text: &[u8], want: &[u8]) -> bool {
    let Ok(scenario) = read_scenario(alloc, text, table) else {
        return false;
    };
    match write_scenario(alloc, table, &scenario) {
        Ok(written) => written.as_slice() == want,
        Err(_) => false,
    }
}

#[test]
fn writes_rows_by_job(rt: HostRuntime) -> Result<(), AllocError> {
    let alloc = rt.alloc();
    let table = two_jobs(alloc)?;
    let want = b"Task ID,Job ID,Release,Cost\n1,1,1,2\n2,1,0,3\n".as_slice();
    let texts: [&[u8]; 3] = [b"h\n2,1,0,3\n1,1,1,2\n", b"h\n1,1,1,2\n2,1,0,3\n", want];
    for text in texts {
        assert!(rt; writes(alloc, &table, text, want), "{text:?}");
    }
    Ok(())
}

#[test]
fn writes_the_heading_alone(rt: HostRuntime) -> Result<(), AllocError> {
    let table = table_of(rt.alloc(), &[])?;
    assert!(rt; writes(rt.alloc(), &table, b"h", b"Task ID,Job ID,Release,Cost\n"));
    Ok(())
}

// Four jobs: 1 1, 2 1, 3 1 and 4 1.
fn four_jobs(alloc: Global) -> Result<JobTable, AllocError> {
    let rows = [
        Job::from_row([1, 1, 0, 0, 1, 1, 9, 1]),
        Job::from_row([2, 1, 0, 0, 1, 1, 9, 1]),
        Job::from_row([3, 1, 0, 0, 1, 1, 9, 1]),
        Job::from_row([4, 1, 0, 0, 1, 1, 9, 1]),
    ];
    table_of(alloc, &rows)
}

// Whether this text gives four jobs these edges.
fn gives_edges(alloc: Global, text: &[u8], want: &[(JobNo, JobNo)]) -> bool {
    let Ok(table) = four_jobs(alloc) else {
        return false;
    };
    match read_edges(alloc, text, &table) {
        Ok(edges) => edges.as_slice() == want,
        Err(_) => false,
    }
}

#[test]
fn reads_edges_by_row(rt: HostRuntime) {
    let [first, second, third, fourth] = [JobNo(0), JobNo(1), JobNo(2), JobNo(3)];
    let cases: [(&[u8], &[(JobNo, JobNo)]); 3] = [
        (b"h\n", &[]),
        (
            b"h\n1,1,2,1\n1,1,2,1\n",
            &[(first, second), (first, second)],
        ),
        (
            b"h\n4,1,3,1\n3,1,3,1\n3,1,4,1\n",
            &[(fourth, third), (third, third), (third, fourth)],
        ),
    ];
    for (text, edges) in cases {
        assert!(rt; gives_edges(rt.alloc(), text, edges), "{text:?}");
    }
}

// Why this text gives four jobs no edges.
fn edge_fault_of(alloc: Global, text: &[u8]) -> Option<SideFault> {
    let Ok(table) = four_jobs(alloc) else {
        return Some(SideFault::Memory);
    };
    read_edges(alloc, text, &table).err()
}

// Whether that is why.
fn refuses_edges(alloc: Global, text: &[u8], fault: SideFault) -> bool {
    edge_fault_of(alloc, text) == Some(fault)
}

#[test]
fn judges_edges_by_the_table(rt: HostRuntime) {
    let cases: [(&[u8], u64, u8); 4] = [
        (b"h\n9,1,1,1\n", 1, 1),
        (b"h\n1,1,9,1\n", 1, 3),
        (b"h\n9,1,9,1\n", 1, 1),
        (b"h\n1,1,2,1\n1,1,2,2\n", 2, 3),
    ];
    for (text, row, column) in cases {
        assert!(rt;
            refuses_edges(rt.alloc(), text, SideFault::Unknown(row, column)),
            "{text:?}"
        );
    }
}

#[test]
fn judges_all_edges_by_csv_first(rt: HostRuntime) {
    let cases: [(&[u8], CsvFault); 3] = [
        (b"", CsvFault::NoHeading),
        (b"h\n1,1,2\n", CsvFault::Width(1, 3)),
        (b"h\n9,1,1,1\n1,1,x,1\n", CsvFault::NotNumber(2, 3)),
    ];
    for (text, fault) in cases {
        assert!(rt;
            refuses_edges(rt.alloc(), text, SideFault::Csv(fault)),
            "{text:?}"
        );
    }
}

// What a text gives two jobs as their run, where they are released at 1 and 0 and cost 2 and 3; or why it gives none.
fn run_of(alloc: Global, text: &[u8]) -> Result<Vec<Place>, SideFault> {
    let Ok(table) = two_jobs(alloc) else {
        return Err(SideFault::Memory);
    };
    let scenario = read_scenario(alloc, b"h\n1,1,1,2\n2,1,0,3\n", &table)?;
    let run = read_run(alloc, text, &table, &scenario)?;
    Ok(run.places)
}

// Whether it gives these starts and cores.
fn gives_run(alloc: Global, text: &[u8], want: &[Place]) -> bool {
    match run_of(alloc, text) {
        Ok(places) => places.as_slice() == want,
        Err(_) => false,
    }
}

// Whether that is why it gives none.
fn refuses_run(alloc: Global, text: &[u8], fault: SideFault) -> bool {
    run_of(alloc, text).err() == Some(fault)
}

#[test]
fn reads_runs_by_job(rt: HostRuntime) {
    let places = [Place { start: 3, core: 0 }, Place { start: 0, core: 7 }];
    let texts: [&[u8]; 2] = [b"h\n2,1,0,3,7\n1,1,3,5,0\n", b"h\n1,1,3,5,0\n2,1,0,3,7\n"];
    for text in texts {
        assert!(rt; gives_run(rt.alloc(), text, &places), "{text:?}");
    }
}

#[test]
fn judges_rows_of_runs(rt: HostRuntime) {
    let cases: [(&[u8], u64, u8); 4] = [
        (b"h\n2,1,4611686018427387904,3,0\n", 1, 3),
        (b"h\n2,1,0,4,65536\n", 1, 4),
        (b"h\n1,1,3,5,0\n2,1,0,3,65536\n", 2, 5),
        (b"h\n2,1,18446744073709551615,2,0\n", 1, 3),
    ];
    for (text, row, column) in cases {
        assert!(rt;
            refuses_run(rt.alloc(), text, SideFault::Outside(row, column)),
            "{text:?}"
        );
    }
}

#[test]
fn judges_the_jobs_of_runs(rt: HostRuntime) {
    let alloc = rt.alloc();
    let csv = SideFault::Csv(CsvFault::Width(1, 4));
    assert!(rt; refuses_run(alloc, b"h\n1,1,3,5\n", csv));
    assert!(rt; refuses_run(alloc, b"h\n9,1,3,5,0\n", SideFault::Unknown(1, 1)));
    assert!(rt; refuses_run(alloc, b"h\n1,1,3,5,0\n1,1,9,9,9\n", SideFault::Twice(2, 1)));
    assert!(rt; refuses_run(alloc, b"h\n1,1,3,5,0\n", SideFault::Missing(JobNo(1))));
}

// The edits that this text gives the two jobs, or why it gives none.
fn edits_of(alloc: Global, text: &[u8]) -> Result<Vec<JobEdit>, SideFault> {
    let Ok(table) = two_jobs(alloc) else {
        return Err(SideFault::Memory);
    };
    read_edits(alloc, text, &table)
}

// Whether it gives these.
fn gives_edits(alloc: Global, text: &[u8], want: &[JobEdit]) -> bool {
    match edits_of(alloc, text) {
        Ok(edits) => edits.as_slice() == want,
        Err(_) => false,
    }
}

// Whether that is why it gives none.
fn refuses_these(alloc: Global, text: &[u8], fault: SideFault) -> bool {
    edits_of(alloc, text).err() == Some(fault)
}

// The edit of the job of that number.
fn edit(job: u16, cmin: u64, cmax: u64, deadline: u64) -> JobEdit {
    JobEdit {
        job: JobNo(job),
        cmin,
        cmax,
        deadline,
    }
}

#[test]
fn reads_edits_by_row(rt: HostRuntime) {
    one_list_of_edits();
    one_edit_fault();
    edits_keep_rules();
    let most = 70_368_744_177_663;
    let edits = [edit(1, 1, 2, u64::MAX), edit(1, most, most, 0)];
    let text = b"h\n2,1,1,2,18446744073709551615\n2,1,70368744177663,70368744177663,0\n";
    assert!(rt; gives_edits(rt.alloc(), text, &edits));
    assert!(rt; gives_edits(rt.alloc(), b"h\n", &[]));
}

#[test]
fn judges_edits(rt: HostRuntime) {
    let csv = SideFault::Csv(CsvFault::Width(1, 4));
    assert!(rt; refuses_these(rt.alloc(), b"h\n9,1,1,1\n", csv));
    assert!(rt; refuses_these(rt.alloc(), b"h\n1,2,0,0,0\n", SideFault::Unknown(1, 1)));
    let cases: [(&[u8], u64, u8); 5] = [
        (b"h\n1,1,0,1,5\n", 1, 3),
        (b"h\n1,1,1,1,5\n2,1,3,2,5\n", 2, 3),
        (b"h\n1,1,70368744177665,70368744177664,5\n", 1, 3),
        (b"h\n1,1,70368744177664,70368744177664,5\n", 1, 4),
        (b"h\n1,1,1,70368744177664,5\n2,1,0,1,5\n", 1, 4),
    ];
    for (text, row, column) in cases {
        assert!(rt;
            refuses_these(rt.alloc(), text, SideFault::Outside(row, column)),
            "{text:?}"
        );
    }
}
