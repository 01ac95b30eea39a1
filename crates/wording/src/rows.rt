//! Rows of a table of refusals, and which of them a printed line is of.
ghost use Rattle.std.specs.Prelude.{◌≡◌, ◌≤◌, length};
ghost use Rattle.std.specs.Option.{option_map};
ghost use Rattle.std.specs.List.{prefix_len};
ghost use Rattle.std.specs.Char.{is_ascii_digit};
ghost use Rattle.wording.specs.Rows.{behind, number_from, place_in, words_of};

/// How a printed line begins, and what it says.
#[derive(Clone, Copy)]
pub struct Row {
    /// How the line begins, up to the number of the place that it names, if it names one.
    pub front: &'static str,
    /// What is behind that number.
    pub back: &'static str,
    /// What the line means, and what to do.
    pub words: &'static str,
}

/// What an exit status says.
#[derive(Clone, Copy)]
pub struct StatusRow {
    pub status: u8,
    /// What it means, and what to do.
    pub words: &'static str,
}

/// Rows by what is refused. Of two rows that a line is of the first counts.
#[derive(Clone, Copy)]
pub struct Tables<'a> {
    /// Lines that refuse the words of the command line, an instance, a proof or a restart body. The place is a line.
    pub refusals: &'a [Row],
    /// Lines that refuse the certificate of a bound. The place is a line.
    pub certificates: &'a [Row],
    /// Lines that refuse a tape. The place is a frame.
    pub frames: &'a [Row],
    /// Exit statuses that tell of a fault outside.
    pub statuses: &'a [StatusRow],
}

/// What stands behind these bytes, if the text begins with them.
fn behind<'a>(text: &'a [u8], front: &[u8]) -> Option<&'a [u8]>
    ensures { option_map (λ rest. rest.now) result ≡ behind front.now text.now }
{
    text.strip_prefix(front)
}

/// How many digits a text begins with.
fn digits(text: &[u8]) -> usize
    ensures count { result ≡ prefix_len is_ascii_digit text.now }
    ensures within { result ≤ length text.now }
{
    text.iter().take_while(|byte| byte.is_ascii_digit()).count()
}

/// The number of some digits, which are read one by one; it stays at 2^64 - 1 where it would exceed that.
fn number_of(digits: &[u8]) -> u64
    ensures { result ≡ number_from 0 digits.now }
{
    let mut number: u64 = 0;
    for digit in digits {
        number = number
            .saturating_mul(10)
            .saturating_add(u64::from(digit.saturating_sub(b'0')));
    }
    number
}

/// The number of the place that a line names, 0 where it names none; or `None` where it is not of this row.
pub fn place_in(row: &Row, line: &[u8]) -> Option<u64>
    ensures { result ≡ place_in row.now line.now }
{
    let rest = behind(line, row.front.as_bytes())?;
    let (number, end) = rest.split_at(digits(rest));
    if end.starts_with(row.back.as_bytes()) {
        Some(number_of(number))
    } else {
        None
    }
}

/// The words of a status, if a row has them.
pub fn words_of(rows: &[StatusRow], status: u8) -> Option<&'static str>
    ensures { option_map (λ words. words.now) result ≡ words_of rows.now status }
{
    for row in rows {
        if row.status == status {
            return Some(row.words);
        }
    }
    None
}
