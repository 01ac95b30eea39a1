//! A refusal in words.
ghost use Rattle.std.specs.Prelude.{◌≡◌, ◌++◌, IfOk, string_bytes};
ghost use Rattle.std.specs.Option.{option_map};
ghost use Rattle.wording.specs.Rows.{number_text, placed, sentence, said};
ghost use Rattle.wording.specs.Explaining.{explained, explained_line};

use crate::rows::{Row, Tables, place_in, words_of};
use std::alloc::{AllocError, Global};
use std::fmt::Write;

/// What a printed line refuses. The same numbers say another thing of another text.
#[derive(Clone, Copy, Debug, PartialEq, Eq)]
pub enum Subject {
    /// The certificate of a bound.
    Certificate,
    /// A tape.
    Tape,
    /// The words of the command line, an instance, a proof or a restart body.
    Other,
}

/// What a run's end says in words: its exit status where that tells of a fault outside, and else the last line that was printed, where it
/// is a refusal of the subject. One line without an end.
pub fn explain(
    alloc: Global,
    tables: &Tables<'_>,
    status: u8,
    subject: Subject,
    line: &[u8],
) -> Result<Option<String>, AllocError>
    ensures { IfOk result (λ words. option_map string_bytes words ≡ explained tables.now status subject line.now) }
{
    match words_of(tables.statuses, status) {
        Some(words) => Ok(Some(String::from_str(alloc, words)?)),
        None => explain_line(alloc, tables, subject, line),
    }
}

/// What a printed line says in words.
fn explain_line(
    alloc: Global,
    tables: &Tables<'_>,
    subject: Subject,
    line: &[u8],
) -> Result<Option<String>, AllocError>
    ensures { IfOk result (λ words. option_map string_bytes words ≡ explained_line tables.now subject line.now) }
{
    match subject {
        Subject::Certificate => said(alloc, "line", tables.certificates, line),
        Subject::Tape => said(alloc, "frame", tables.frames, line),
        Subject::Other => said(alloc, "line", tables.refusals, line),
    }
}

/// Adds the number of a place.
fn add_number(line: &mut String, number: u64) -> Result<(), AllocError>
    ensures { IfOk result (λ _. string_bytes line.new ≡ string_bytes line.old ++ number_text number) }
{
    write!(line, " {number}")
}

/// What is said of a place.
fn placed(alloc: Global, kind: &str, number: u64, words: &str) -> Result<String, AllocError>
    ensures { IfOk result (λ line. string_bytes line ≡ placed kind.now number words.now) }
{
    let mut line = String::from_str(alloc, kind)?;
    add_number(&mut line, number)?;
    line.push_str(": ")?;
    line.push_str(words)?;
    Ok(line)
}

/// What is said of a place, or of none where its number is 0.
fn sentence(alloc: Global, kind: &str, number: u64, words: &str) -> Result<String, AllocError>
    ensures { IfOk result (λ line. string_bytes line ≡ sentence kind.now number words.now) }
{
    if number == 0 {
        String::from_str(alloc, words)
    } else {
        placed(alloc, kind, number, words)
    }
}

/// What the first row that the line is of says, if there is one.
fn said(alloc: Global, kind: &str, rows: &[Row], line: &[u8]) -> Result<Option<String>, AllocError>
    ensures { IfOk result (λ words. option_map string_bytes words ≡ said kind.now rows.now line.now) }
{
    for row in rows {
        if let Some(number) = place_in(row, line) {
            return Ok(Some(sentence(alloc, kind, number, row.words)?));
        }
    }
    Ok(None)
}
