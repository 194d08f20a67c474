//! Reading a table.

ghost use Rattle.std.specs.Prelude.{◌≡◌, ◌≢◌, [], ℕ, List, All, IfOk, IfErr, OnOk, length};
ghost use Rattle.csv.specs.Records.{fields_of};
ghost use Rattle.csv_numbers.specs.RowFaults.{AppendsRow, NamesRow, RowBreaks};
ghost use Rattle.csv_numbers.specs.Rows.{FirstFault, Record, Rows};
ghost use Rattle.csv_numbers.specs.Streams.{GivesNext, HasGiven};

use crate::fault::CsvFault;
use crate::field::{NumberFault, read_field};
use crate::rows::NumberRows;
use csv::{ByteRecord, Reader, ReaderBuilder};
use std::alloc::Global;

// A reader of these bytes, which has given no record yet. It takes the heading as a record, and records of any width.
fn reader_of(alloc: Global, bytes: &[u8]) -> Reader<&[u8]>
    ensures { HasGiven bytes.now [] result }
{
    ReaderBuilder::new()
        .has_headers(false)
        .flexible(true)
        .from_reader(alloc, bytes)
}

// Reads the next record into `entry`, and says whether there was one.
fn next_record(reader: &mut Reader<&[u8]>, entry: &mut ByteRecord) -> Result<bool, CsvFault>
    ensures gives { IfOk result (λ found. (bytes : List ℕ) (records : List Record)
        → HasGiven bytes records reader.old
        → GivesNext bytes records found (fields_of entry.new) reader.new) }
    ensures memory { IfErr result (λ e. e ≡ CsvFault.Memory) }
{
    // A text in memory has no read that fails, so an error is want of memory.
    let Ok(found) = reader.read_byte_record(entry) else {
        return Err(CsvFault::Memory);
    };
    Ok(found)
}

// Puts the numbers of the record behind those that are there. The record is the row at this place.
fn append_row(
    numbers: &mut Vec<u64>,
    entry: &ByteRecord,
    width: u8,
    place: u64,
) -> Result<(), CsvFault>
    ensures read { OnOk result (AppendsRow width (fields_of entry.now) numbers.old.items numbers.new.items) }
    ensures breaks { IfErr result (λ e. RowBreaks width e (fields_of entry.now)) }
    ensures names { IfErr result (NamesRow place) }
{
    let found = entry.len();
    if found != usize::from(width) {
        return Err(CsvFault::Width(place, found as u64));
    }
    'columns: for column in 0..width {
        let Some(field) = entry.get(usize::from(column)) else {
            unreachable!()
        };
        let number = match read_field(field) {
            Ok(number) => number,
            Err(NumberFault::NotNumber) => return Err(CsvFault::NotNumber(place, column + 1)),
            Err(NumberFault::TooBig) => return Err(CsvFault::TooBig(place, column + 1)),
        };
        if numbers.push(number).is_err() {
            return Err(CsvFault::Memory);
        }
    }
    Ok(())
}

/// The rows of a CSV text under its heading, each of `width` numbers.
///
/// A field is a number where it is one or more ASCII digits between spaces and tabs, after `csv` has taken its quotes
/// off. The heading may hold anything. Empty lines are no rows and are not counted.
pub fn read_numbers(alloc: Global, bytes: &[u8], width: u8) -> Result<NumberRows, CsvFault>
    ensures rows { IfOk result (λ rows. Rows bytes.now width rows) }
    ensures only { IfOk result (λ rows.
        (list : List (List ℕ)) → Rows bytes.now width list → rows ≡ list) }
    ensures wide { IfOk result (λ rows. All (λ row. length row ≡ width) rows) }
    ensures fault { IfErr result (FirstFault bytes.now width) }
    ensures refused { IfErr result (λ fault. fault ≢ CsvFault.Memory
        → (list : List (List ℕ)) → ¬ Rows bytes.now width list) }
{
    let mut reader = reader_of(alloc, bytes);
    let mut entry = ByteRecord::new(alloc);
    if !next_record(&mut reader, &mut entry)? {
        return Err(CsvFault::NoHeading);
    }
    let mut numbers = Vec::new(alloc);
    for count in 0..usize::MAX {
        if !next_record(&mut reader, &mut entry)? {
            return Ok(NumberRows::new(numbers, usize::from(width), count));
        }
        append_row(&mut numbers, &entry, width, count as u64 + 1)?;
    }
    // No memory holds so many rows.
    Err(CsvFault::Memory)
}
