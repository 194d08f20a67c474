//! Writing a table.

ghost use Rattle.std.specs.Prelude.{◌≡◌, ◌<◌, ◌^◌, ◌++◌, All, IfOk, IsTrue, OnOk, length, map};
ghost use Rattle.csv_numbers.specs.Rows.{Rows};
ghost use Rattle.csv_numbers.specs.RowsText.{are_plain, line_of, next_field, row_line, rows_text};

use itoa::Buffer;
use std::alloc::{AllocError, Global};

// Puts a field at the end of the text, behind so many others of its line.
fn put_field(text: &mut Vec<u8>, before: usize, field: &[u8]) -> Result<(), AllocError>
    ensures { OnOk result (text.new.items ≡ text.old.items ++ next_field before field.now) }
{
    if before > 0 {
        text.push(b',')?;
    }
    text.extend_from_slice(field)
}

// Puts a line of these words at the end of the text.
fn put_words(text: &mut Vec<u8>, words: &[&str]) -> Result<(), AllocError>
    ensures { OnOk result (text.new.items ≡ text.old.items ++ line_of (map (λ w. w.now) words.now)) }
{
    for (place, word) in words.iter().enumerate() {
        put_field(text, place, word.as_bytes())?;
    }
    text.push(b'\n')?;
    Ok(())
}

// Puts a line of these numbers, in decimal, at the end of the text.
fn put_numbers(text: &mut Vec<u8>, numbers: &[u64]) -> Result<(), AllocError>
    ensures line { OnOk result (text.new.items ≡ text.old.items ++ row_line numbers.now) }
    ensures fit { All (λ n. n < 2 ^ 64) numbers.now }
{
    let mut buffer = Buffer::new();
    for (place, number) in numbers.iter().enumerate() {
        put_field(text, place, buffer.format(*number).as_bytes())?;
    }
    text.push(b'\n')?;
    Ok(())
}

// The numbers of a row, one for each column.
fn columns<const N: usize>(row: &[u64; N]) -> &[u64]
    ensures numbers { result.now ≡ row.now }
    ensures width { length result.now ≡ N }
{
    row
}

/// The CSV text of a table of numbers: its heading, and then its rows.
///
/// Fields are joined by a comma alone, and each line ends with a line feed. The words of the heading are written as they
/// are, so none may need quotes.
pub fn write_table<const N: usize>(
    alloc: Global,
    heading: &[&str],
    rows: &[[u64; N]],
) -> Result<Vec<u8>, AllocError>
    requires width { length heading.now ≡ N }
    requires plain { IsTrue (are_plain (map (λ w. w.now) heading.now)) }
    ensures text { IfOk result (λ text.
        text.items ≡ rows_text (map (λ w. w.now) heading.now) rows.now) }
    ensures reads { IfOk result (λ text. Rows text.items N rows.now) }
{
    let mut text = Vec::new(alloc);
    put_words(&mut text, heading)?;
    for row in rows {
        put_numbers(&mut text, columns(row))?;
    }
    Ok(text)
}
