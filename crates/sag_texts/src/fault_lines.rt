//! The line of each fault.

ghost use Rattle.sag_edge.specs.Writing.{Puts};
ghost use Rattle.sag_texts.specs.FaultTexts.{HasText, csv_fault_text, edge_fault_text, fault_text, no_memory, no_trial, side_fault_text, spent_text, table_fault_text, task_fault_text};

use crate::piece::Piece::{File, Number, Words};
use crate::piece::write_line;
use crate::refusal::{refuse, refuse_field, refuse_repeat, refuse_row};
use crate::usage::write_usage;
use crate::{Fault, FileKind};
use csv_numbers::CsvFault;
use job_model::{EdgeFault, TableFault};
use sag_edge::{Failed, Sink};
use side_csv::SideFault;
use task_unroll::TaskFault;

// Tells that memory ran out.
#[tactic(auto, unfolding(crate::specs::FaultTexts::no_memory))]
fn write_no_memory<S: Sink>(sink: &mut S) -> Result<(), Failed>
    ensures { Puts (S.seen sink.old) (S.seen sink.new) no_memory result }
{
    write_line(sink, &[Words("no memory")])
}

// Tells why a file is no table of numbers.
#[tactic(auto, unfolding(crate::specs::FaultTexts::csv_fault_text))]
fn write_csv_fault<S: Sink>(sink: &mut S, file: FileKind, why: &CsvFault) -> Result<(), Failed>
    ensures { Puts (S.seen sink.old) (S.seen sink.new) (csv_fault_text file why.now) result }
{
    match why {
        CsvFault::NoHeading => refuse(sink, file, &[Words(" no heading")]),
        CsvFault::Width(row, fields) => {
            let why = [Words(" has "), Number(*fields), Words(" fields")];
            refuse_row(sink, file, *row, &why)
        }
        CsvFault::NotNumber(row, column) => {
            refuse_field(sink, file, *row, *column, " is no number")
        }
        CsvFault::TooBig(row, column) => {
            refuse_field(sink, file, *row, *column, " is above 18446744073709551615")
        }
        CsvFault::Memory => write_no_memory(sink),
    }
}

// Tells why the rows of the job file are no job table.
#[tactic(auto, unfolding(crate::specs::FaultTexts::table_fault_text))]
fn write_table_fault<S: Sink>(sink: &mut S, why: &TableFault) -> Result<(), Failed>
    ensures { Puts (S.seen sink.old) (S.seen sink.new) (table_fault_text why.now) result }
{
    let file = FileKind::Jobs;
    match why {
        TableFault::TooMany => refuse(sink, file, &[Words(" too many rows")]),
        TableFault::OverLimit(row, column) => {
            refuse_field(sink, file, u64::from(*row), *column, " is above the limit")
        }
        TableFault::SpanReversed(row, column) => {
            refuse_field(sink, file, u64::from(*row), *column, " is above the next")
        }
        TableFault::ZeroCost(row) => {
            refuse_row(sink, file, u64::from(*row), &[Words(" column 5 is 0")])
        }
        TableFault::Twice(row, earlier) => {
            refuse_repeat(sink, file, u64::from(*row), u64::from(*earlier))
        }
        TableFault::Memory => write_no_memory(sink),
    }
}

// Tells why the rows of the precedence file are no edges of a job table.
#[tactic(auto, unfolding(crate::specs::FaultTexts::edge_fault_text))]
fn write_edge_fault<S: Sink>(sink: &mut S, why: &EdgeFault) -> Result<(), Failed>
    ensures { Puts (S.seen sink.old) (S.seen sink.new) (edge_fault_text why.now) result }
{
    let file = FileKind::Precedence;
    match why {
        EdgeFault::TooManyEdges => refuse(sink, file, &[Words(" too many rows")]),
        EdgeFault::SelfEdge(row) => {
            refuse_row(
                sink,
                file,
                u64::from(*row),
                &[Words(" names one job twice")],
            )
        }
        EdgeFault::Cycle(row) => {
            refuse_row(sink, file, u64::from(*row), &[Words(" closes a cycle")])
        }
        EdgeFault::Memory => write_no_memory(sink),
    }
}

// Tells why a file beside the job file is refused.
#[tactic(auto, unfolding(crate::specs::FaultTexts::side_fault_text))]
fn write_side_fault<S: Sink>(sink: &mut S, file: FileKind, why: &SideFault) -> Result<(), Failed>
    requires { HasText (Fault.Side file why.now) }
    ensures { Puts (S.seen sink.old) (S.seen sink.new) (side_fault_text file why.now) result }
{
    match why {
        SideFault::Csv(why) => write_csv_fault(sink, file, why),
        SideFault::Unknown(row, column) => {
            refuse_field(sink, file, *row, *column, " names no job")
        }
        SideFault::Missing(_) => unreachable!(),
        SideFault::Twice(row, earlier) => refuse_repeat(sink, file, *row, *earlier),
        SideFault::Outside(row, column) => refuse_field(sink, file, *row, *column, " is outside"),
        SideFault::Memory => write_no_memory(sink),
    }
}

// Tells why tasks are refused, or the jobs that they make.
#[tactic(auto, unfolding(crate::specs::FaultTexts::task_fault_text))]
fn write_task_fault<S: Sink>(sink: &mut S, why: &TaskFault) -> Result<(), Failed>
    ensures { Puts (S.seen sink.old) (S.seen sink.new) (task_fault_text why.now) result }
{
    let file = FileKind::Tasks;
    match why {
        TaskFault::Csv(why) => write_csv_fault(sink, file, why),
        TaskFault::OverLimit(row, column) => {
            refuse_field(sink, file, *row, *column, " is above the limit")
        }
        TaskFault::ZeroPeriod(row) => refuse_row(sink, file, *row, &[Words(" column 2 is 0")]),
        TaskFault::SpanReversed(row) => {
            refuse_row(sink, file, *row, &[Words(" column 5 is above the next")])
        }
        TaskFault::ZeroCost(row) => refuse_row(sink, file, *row, &[Words(" column 5 is 0")]),
        TaskFault::Twice(row, earlier) => refuse_repeat(sink, file, *row, *earlier),
        TaskFault::Late(row) => refuse_row(sink, file, *row, &[Words(" releases too late")]),
        TaskFault::TooMany => refuse(sink, file, &[Words(" too many jobs")]),
        TaskFault::Memory => write_no_memory(sink),
    }
}

// Tells that there is no trial of this number.
#[tactic(auto, unfolding(crate::specs::FaultTexts::no_trial))]
fn write_no_trial<S: Sink>(sink: &mut S, trial: u32, most: u32) -> Result<(), Failed>
    ensures { Puts (S.seen sink.old) (S.seen sink.new) (no_trial trial most) result }
{
    let trial = Number(u64::from(trial));
    let most = Number(u64::from(most));
    write_line(
        sink,
        &[Words("refused trial "), trial, Words(" is above "), most],
    )
}

/// Writes the line of a fault. It takes no memory.
///
/// A `SideFault::Missing` has the number of a job, which no text names: give `Fault::NoRow` with the job's IDs.
#[tactic(auto, unfolding(crate::specs::FaultTexts::fault_text))]
pub fn write_fault<S: Sink>(sink: &mut S, fault: &Fault) -> Result<(), Failed>
    requires { HasText fault.now }
    ensures { Puts (S.seen sink.old) (S.seen sink.new) (fault_text fault.now) result }
{
    match fault {
        Fault::Usage => write_usage(sink),
        Fault::TooLong(file) => refuse(sink, *file, &[Words(" file too long")]),
        Fault::Csv(file, why) => write_csv_fault(sink, *file, why),
        Fault::Table(why) => write_table_fault(sink, why),
        Fault::Edge(why) => write_edge_fault(sink, why),
        Fault::Side(file, why) => write_side_fault(sink, *file, why),
        Fault::NoRow(file, task, job) => {
            let (task, job) = (Number(*task), Number(*job));
            refuse(
                sink,
                *file,
                &[Words(" has no row for job "), task, Words(" "), job],
            )
        }
        Fault::Text { line, byte } => {
            let (line, byte) = (Number(*line), Number(*byte));
            let place = [Words(" line "), line, Words(" byte "), byte];
            refuse(sink, FileKind::Certificate, &place)
        }
        Fault::NoJob(task, job) => {
            let (task, job) = (Number(*task), Number(*job));
            let rest = Words(" is not in the table");
            write_line(sink, &[Words("refused job "), task, Words(" "), job, rest])
        }
        Fault::Tasks(why) => write_task_fault(sink, why),
        Fault::NoTrial { trial, most } => write_no_trial(sink, *trial, *most),
        Fault::CannotRead(file) => write_line(sink, &[Words("cannot read "), File(*file)]),
        Fault::CannotWrite => write_line(sink, &[Words("cannot write")]),
        Fault::NoMemory => write_no_memory(sink),
    }
}

/// Writes the line of work that the budget ended: at this level, with so many states and edges.
#[tactic(auto, unfolding(crate::specs::FaultTexts::spent_text))]
pub fn write_spent<S: Sink>(sink: &mut S, level: u64, states: u64, edges: u64) -> Result<(), Failed>
    ensures { Puts (S.seen sink.old) (S.seen sink.new) (spent_text level states edges) result }
{
    let pieces = [
        Words("spent level "),
        Number(level),
        Words(" states "),
        Number(states),
        Words(" edges "),
        Number(edges),
    ];
    write_line(sink, &pieces)
}
