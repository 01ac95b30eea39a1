//! Words and numbers, put behind the bytes so far.
ghost use Rattle.std.specs.Prelude.{◌≡◌, ◌++◌, [], ◌∷◌, OnOk};
ghost use Rattle.std.specs.Fmt.{signed_decimal};
ghost use Rattle.certform.specs.Lines.{behind_space, spelled, set_bytes};

use itoa::Buffer;
use std::alloc::AllocError;

/// Puts a word.
pub fn put_word(out: &mut Vec<u8>, word: &[u8]) -> Result<(), AllocError>
    ensures { OnOk result (out.new.items ≡ out.old.items ++ word.now) }
{
    out.extend_from_slice(word)
}

/// Puts a number behind a space.
pub fn put_number(out: &mut Vec<u8>, number: u64) -> Result<(), AllocError>
    ensures { OnOk result (out.new.items ≡ out.old.items ++ behind_space number) }
{
    let mut digits = Buffer::new();
    out.push(b' ')?;
    out.extend_from_slice(digits.format(number).as_bytes())
}

/// Puts a number that may be negative behind a space.
pub fn put_signed(out: &mut Vec<u8>, number: i64) -> Result<(), AllocError>
    ensures { OnOk result (out.new.items ≡ out.old.items ++ 32 ∷ signed_decimal number) }
{
    let mut digits = Buffer::new();
    out.push(b' ')?;
    out.extend_from_slice(digits.format(number).as_bytes())
}

/// Puts cities, each behind a space. They count from 1 in the text.
pub fn put_cities(out: &mut Vec<u8>, cities: &[u32]) -> Result<(), AllocError>
    ensures { OnOk result (out.new.items ≡ out.old.items ++ spelled cities.now) }
{
    for city in cities {
        put_number(out, u64::from(*city) + 1)?;
    }
    Ok(())
}

/// Ends a line.
pub fn put_end(out: &mut Vec<u8>) -> Result<(), AllocError>
    ensures { OnOk result (out.new.items ≡ out.old.items ++ 10 ∷ []) }
{
    out.push(b'\n')?;
    Ok(())
}

/// Puts a line of a first word and a set: the number of its cities, and the cities.
pub fn put_set(out: &mut Vec<u8>, word: &[u8], set: &[u32]) -> Result<(), AllocError>
    ensures { OnOk result (out.new.items ≡ out.old.items ++ set_bytes word.now set.now) }
{
    put_word(out, word)?;
    put_number(out, set.len() as u64)?;
    put_cities(out, set)?;
    put_end(out)
}
