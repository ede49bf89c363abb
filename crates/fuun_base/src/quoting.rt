ghost use Rattle.std.specs.Prelude.{◌≡◌, ◌%◌, ◌≤◌, ◌==◌, ◌++◌, length, replicate, slice_index_or, OnOk, OnErr};
ghost use Rattle.fuun_base.specs.Quote.{quote_of, quote, digit_base, asnat};

use crate::{Base, NoMemory, Tally};

/// The most bases that a 64-bit number takes: its binary digits and the P after them.
const LONGEST_NUMBER: usize = 65;

/// Appends the quote of a list of bases.
pub fn quote_into(source: &[Base], out: &mut Vec<Base>) -> Result<(), NoMemory>
    ensures added { OnOk result (out.new.items ≡ out.old.items ++ quote source.now) }
    ensures unchanged { OnErr result (out.new.items ≡ out.old.items) }
{
    let start = out.len();
    let len = quote_len(source);
    out.reserve(len)?;
    out.resize(start + len, Base::C)?;
    fill_quote(source, &mut out.as_mut_slice()[start..]);
    Ok(())
}

/// Appends a number as bases: its binary digits from the lowest on, I for 0 and C for 1, and then P.
pub fn asnat_into(n: u64, out: &mut Vec<Base>) -> Result<(), NoMemory>
    ensures added { OnOk result (out.new.items ≡ out.old.items ++ asnat n) }
    ensures unchanged { OnErr result (out.new.items ≡ out.old.items) }
{
    out.reserve(LONGEST_NUMBER)?;
    let mut left = n;
    while left > 0 {
        out.push_reserved(lowest_digit(left));
        left /= 2;
    }
    out.push_reserved(Base::P);
    Ok(())
}

fn lowest_digit(n: u64) -> Base
    ensures { result ≡ digit_base (n % 2 == 0) }
{
    if n % 2 == 0 { Base::I } else { Base::C }
}

fn quote_len(source: &[Base]) -> usize
    ensures { result ≡ length (quote source.now) }
{
    source.len() + Tally::of(source).p as usize
}

// Writes a quote over as many C as it has bases: the second base of a quoted P is there already.
fn fill_quote(source: &[Base], slots: &mut [Base])
    requires { slots.old ≡ replicate (length (quote source.now)) Base.C }
    ensures { slots.new ≡ quote source.now }
{
    let mut at = 0;
    for base in source {
        slots[at] = first_of_quote(*base);
        at += base_len(*base);
    }
}

fn first_of_quote(base: Base) -> Base
    ensures { result ≡ slice_index_or (quote_of base) 0 Base.C }
{
    match base {
        Base::I => Base::C,
        Base::C => Base::F,
        Base::F => Base::P,
        Base::P => Base::I,
    }
}

fn base_len(base: Base) -> usize
    ensures len { result ≡ length (quote_of base) }
    ensures most { result ≤ 2 }
{
    if base == Base::P { 2 } else { 1 }
}
