//! Lines, put behind the bytes so far. Cities come from 0 and are written from 1.
ghost use Rattle.std.specs.Prelude.{◌≡◌, ◌+◌, ◌++◌, [], ◌∷◌, OnOk};
ghost use Rattle.certdef.specs.Items.{title_line, size_line, length_line, bound_line, tour_line, cuts_line, subtour_line, comb_line, handle_line, tooth_line, odd_line, pair_line, edge_line, clique_line, leaf_line, city_line, cut_line, condition_line, open_line};
ghost use Rattle.certform.specs.Written.{from_one};
ghost use Rattle.certform.specs.Lines.{said};

use crate::numbers::{put_cities, put_end, put_number, put_set, put_signed, put_word};
use std::alloc::AllocError;

pub fn put_title(out: &mut Vec<u8>, version: u32) -> Result<(), AllocError>
    ensures { OnOk result (out.new.items ≡ out.old.items ++ said (title_line version ∷ [])) }
{
    put_word(out, b"TSPCERT")?;
    put_number(out, u64::from(version))?;
    put_end(out)
}

pub fn put_size(out: &mut Vec<u8>, n: u32) -> Result<(), AllocError>
    ensures { OnOk result (out.new.items ≡ out.old.items ++ said (size_line n ∷ [])) }
{
    put_word(out, b"N")?;
    put_number(out, u64::from(n))?;
    put_end(out)
}

pub fn put_length(out: &mut Vec<u8>, length: u64) -> Result<(), AllocError>
    ensures { OnOk result (out.new.items ≡ out.old.items ++ said (length_line length ∷ [])) }
{
    put_word(out, b"LENGTH")?;
    put_number(out, length)?;
    put_end(out)
}

pub fn put_bound(out: &mut Vec<u8>, bound: u64) -> Result<(), AllocError>
    ensures { OnOk result (out.new.items ≡ out.old.items ++ said (bound_line bound ∷ [])) }
{
    put_word(out, b"BOUND")?;
    put_number(out, bound)?;
    put_end(out)
}

pub fn put_tour(out: &mut Vec<u8>, cities: &[u32]) -> Result<(), AllocError>
    ensures { OnOk result (out.new.items ≡ out.old.items ++ said (tour_line (from_one cities.now) ∷ [])) }
{
    put_word(out, b"TOUR")?;
    put_cities(out, cities)?;
    put_end(out)
}

pub fn put_count(out: &mut Vec<u8>, cuts: usize) -> Result<(), AllocError>
    ensures { OnOk result (out.new.items ≡ out.old.items ++ said (cuts_line cuts ∷ [])) }
{
    put_word(out, b"CUTS")?;
    put_number(out, cuts as u64)?;
    put_end(out)
}

pub fn put_subtour(out: &mut Vec<u8>, set: &[u32]) -> Result<(), AllocError>
    ensures { OnOk result (out.new.items ≡ out.old.items ++ said (subtour_line (from_one set.now) ∷ [])) }
{
    put_set(out, b"S", set)
}

pub fn put_comb(out: &mut Vec<u8>, teeth: usize) -> Result<(), AllocError>
    ensures { OnOk result (out.new.items ≡ out.old.items ++ said (comb_line teeth ∷ [])) }
{
    put_word(out, b"C")?;
    put_number(out, teeth as u64)?;
    put_end(out)
}

pub fn put_handle(out: &mut Vec<u8>, set: &[u32]) -> Result<(), AllocError>
    ensures { OnOk result (out.new.items ≡ out.old.items ++ said (handle_line (from_one set.now) ∷ [])) }
{
    put_set(out, b"H", set)
}

pub fn put_tooth(out: &mut Vec<u8>, set: &[u32]) -> Result<(), AllocError>
    ensures { OnOk result (out.new.items ≡ out.old.items ++ said (tooth_line (from_one set.now) ∷ [])) }
{
    put_set(out, b"T", set)
}

pub fn put_odd(out: &mut Vec<u8>, pairs: usize) -> Result<(), AllocError>
    ensures { OnOk result (out.new.items ≡ out.old.items ++ said (odd_line pairs ∷ [])) }
{
    put_word(out, b"B")?;
    put_number(out, pairs as u64)?;
    put_end(out)
}

pub fn put_pair(out: &mut Vec<u8>, u: u32, v: u32) -> Result<(), AllocError>
    ensures { OnOk result (out.new.items ≡ out.old.items ++ said (pair_line (u + 1) (v + 1) ∷ [])) }
{
    put_word(out, b"F")?;
    put_number(out, u64::from(u) + 1)?;
    put_number(out, u64::from(v) + 1)?;
    put_end(out)
}

pub fn put_edge(out: &mut Vec<u8>, u: u32, v: u32) -> Result<(), AllocError>
    ensures { OnOk result (out.new.items ≡ out.old.items ++ said (edge_line (u + 1) (v + 1) ∷ [])) }
{
    put_word(out, b"E")?;
    put_number(out, u64::from(u) + 1)?;
    put_number(out, u64::from(v) + 1)?;
    put_end(out)
}

pub fn put_clique(out: &mut Vec<u8>, set: &[u32]) -> Result<(), AllocError>
    ensures { OnOk result (out.new.items ≡ out.old.items ++ said (clique_line (from_one set.now) ∷ [])) }
{
    put_set(out, b"K", set)
}

pub fn put_leaf(
    out: &mut Vec<u8>,
    cities: usize,
    cuts: usize,
    conds: usize,
) -> Result<(), AllocError>
    ensures { OnOk result (out.new.items ≡ out.old.items ++ said (leaf_line cities cuts conds ∷ [])) }
{
    put_word(out, b"L")?;
    put_number(out, cities as u64)?;
    put_number(out, cuts as u64)?;
    put_number(out, conds as u64)?;
    put_end(out)
}

pub fn put_city(out: &mut Vec<u8>, city: u64, dual: i64) -> Result<(), AllocError>
    ensures { OnOk result (out.new.items ≡ out.old.items ++ said (city_line city dual ∷ [])) }
{
    put_word(out, b"P")?;
    put_number(out, city)?;
    put_signed(out, dual)?;
    put_end(out)
}

pub fn put_cut(out: &mut Vec<u8>, cut: u64, dual: u64) -> Result<(), AllocError>
    ensures { OnOk result (out.new.items ≡ out.old.items ++ said (cut_line cut dual ∷ [])) }
{
    put_word(out, b"Y")?;
    put_number(out, cut)?;
    put_number(out, dual)?;
    put_end(out)
}

pub fn put_condition(out: &mut Vec<u8>, depth: u32, dual: u64) -> Result<(), AllocError>
    ensures { OnOk result (out.new.items ≡ out.old.items ++ said (condition_line depth dual ∷ [])) }
{
    put_word(out, b"Z")?;
    put_number(out, u64::from(depth))?;
    put_number(out, dual)?;
    put_end(out)
}

pub fn put_open(out: &mut Vec<u8>) -> Result<(), AllocError>
    ensures { OnOk result (out.new.items ≡ out.old.items ++ said (open_line ∷ [])) }
{
    put_word(out, b"O")?;
    put_end(out)
}
