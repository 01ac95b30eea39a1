//! The lines of a certificate, put behind the bytes so far.
ghost use Rattle.std.specs.Prelude.{◌≡◌, ◌++◌, [], ◌∷◌, map, codes, OnOk};
ghost use Rattle.std.specs.Fmt.{signed_decimal};
ghost use Rattle.certdef.specs.Items.{size_line, bound_line, city_line};
ghost use Rattle.certdef.specs.Proofs.{city_item, ended};
ghost use Rattle.onetree.specs.Certificates.{said, behind_space, written_duals};

use itoa::Buffer;
use std::alloc::AllocError;

/// Puts the first line.
pub fn put_title(out: &mut Vec<u8>) -> Result<(), AllocError>
    ensures { OnOk result (out.new.items ≡ out.old.items ++ ended (codes "TSPTREE 1")) }
{
    put_word(out, b"TSPTREE 1")?;
    put_end(out)
}

/// Puts the line of the number of cities.
pub fn put_size(out: &mut Vec<u8>, n: u64) -> Result<(), AllocError>
    ensures { OnOk result (out.new.items ≡ out.old.items ++ said (size_line n ∷ [])) }
{
    put_word(out, b"N")?;
    put_number(out, n)?;
    put_end(out)
}

/// Puts the line of the bound.
pub fn put_bound(out: &mut Vec<u8>, bound: u64) -> Result<(), AllocError>
    ensures { OnOk result (out.new.items ≡ out.old.items ++ said (bound_line bound ∷ [])) }
{
    put_word(out, b"BOUND")?;
    put_number(out, bound)?;
    put_end(out)
}

/// Puts a line for each city whose dual is not 0.
pub fn put_duals(out: &mut Vec<u8>, duals: &[i64]) -> Result<(), AllocError>
    ensures { OnOk result (out.new.items ≡ out.old.items ++ said (map city_item (written_duals 1 duals.now))) }
{
    for (place, dual) in duals.iter().enumerate() {
        if *dual != 0 {
            put_city(out, place as u64 + 1, *dual)?;
        }
    }
    Ok(())
}

/// Puts the line of a city, from 1, and its dual.
fn put_city(out: &mut Vec<u8>, city: u64, dual: i64) -> Result<(), AllocError>
    ensures { OnOk result (out.new.items ≡ out.old.items ++ said (city_line city dual ∷ [])) }
{
    put_word(out, b"P")?;
    put_number(out, city)?;
    put_signed(out, dual)?;
    put_end(out)
}

/// Puts a word.
fn put_word(out: &mut Vec<u8>, word: &[u8]) -> Result<(), AllocError>
    ensures { OnOk result (out.new.items ≡ out.old.items ++ word.now) }
{
    out.extend_from_slice(word)
}

/// Puts a number behind a space.
fn put_number(out: &mut Vec<u8>, number: u64) -> Result<(), AllocError>
    ensures { OnOk result (out.new.items ≡ out.old.items ++ behind_space number) }
{
    let mut digits = Buffer::new();
    out.push(b' ')?;
    out.extend_from_slice(digits.format(number).as_bytes())
}

/// Puts a number that may be negative behind a space.
fn put_signed(out: &mut Vec<u8>, number: i64) -> Result<(), AllocError>
    ensures { OnOk result (out.new.items ≡ out.old.items ++ 32 ∷ signed_decimal number) }
{
    let mut digits = Buffer::new();
    out.push(b' ')?;
    out.extend_from_slice(digits.format(number).as_bytes())
}

/// Ends a line.
fn put_end(out: &mut Vec<u8>) -> Result<(), AllocError>
    ensures { OnOk result (out.new.items ≡ out.old.items ++ 10 ∷ []) }
{
    out.push(b'\n')?;
    Ok(())
}
