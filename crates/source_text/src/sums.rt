//! The sums of skips.
ghost use Rattle.std.specs.Prelude.{◌≡◌, ◌<◌, ◌∷◌, ◌++◌, ℕ, [], if◌then◌else◌, length, IfOk, IfSome, OnOk};
ghost use Rattle.source_text.specs.Keeping.{AreKnown};
ghost use Rattle.source_text.specs.Names.{Names};
ghost use Rattle.source_text.specs.Reading.{seen};
ghost use Rattle.source_text.specs.Sums.{factor, joint, named, seen_joint, sum};

use crate::faults::Faults;
use crate::names::{Known, number_named};
use fuun_base::NoMemory;
use source_items::{Factor, Product, Sum};
use source_tokens::{Token, Word};
use std::alloc::Global;

/// A factor, and whether it serves.
#[derive(Clone, Copy)]
pub(crate) struct OneFactor {
    pub(crate) factor: Factor,
    pub(crate) faults: Faults,
}

/// A sum, and whether its factors serve.
#[derive(Drop)]
pub(crate) struct OneSum {
    pub(crate) sum: Sum,
    pub(crate) faults: Faults,
}

/// Reads a number or a name: `Err` tells how many tokens are left where the reading stops.
#[tactic(auto, unfolding(crate::specs::Sums::factor))]
pub(crate) fn factor<'a>(
    known: &[Known],
    line: u64,
    tokens: &'a [Token],
) -> Result<(OneFactor, &'a [Token]), usize>
    ensures value { (limit : ℕ) (names : Names) → AreKnown limit known.now names → seen result ≡ factor names line tokens.now }
    ensures within { IfOk result (λ read. length read.1.now < length tokens.now) }
{
    let Some((first, rest)) = tokens.split_first() else {
        return Err(0);
    };
    match first.word {
        Word::Number(n) => Ok((
            OneFactor {
                factor: Factor::Number(n),
                faults: Faults::number(n, first.at),
            },
            rest,
        )),
        Word::Name(id) => Ok((named(number_named(known, line, id), first.at), rest)),
        _ => Err(rest.len() + 1),
    }
}

fn named(factor: Option<Factor>, at: u64) -> OneFactor
    ensures { result ≡ named factor at }
{
    match factor {
        Some(factor) => OneFactor {
            factor,
            faults: Faults::none(),
        },
        None => OneFactor {
            factor: Factor::Number(0),
            faults: Faults::name(at),
        },
    }
}

/// Reads products with `+` between them.
pub(crate) fn sum<'a>(
    alloc: Global,
    known: &[Known],
    line: u64,
    tokens: &'a [Token],
) -> Result<Result<(OneSum, &'a [Token]), usize>, NoMemory>
    ensures value { IfOk result (λ read. (limit : ℕ) (names : Names) → AreKnown limit known.now names → seen read ≡ sum names line tokens.now) }
    ensures within { IfOk result (λ read. IfOk read (λ sum. length sum.1.now < length tokens.now)) }
{
    let (first, mut rest) = match factor(known, line, tokens) {
        Ok(read) => read,
        Err(left) => return Ok(Err(left)),
    };
    let mut products = Sum::new(alloc);
    let mut last = Product::new(alloc);
    last.push(first.factor)?;
    let mut faults = first.faults;
    'factors: while let Some((plus, behind)) = joint(rest) {
        let (next, left) = match factor(known, line, behind) {
            Ok(read) => read,
            Err(left) => return Ok(Err(left)),
        };
        last = turned(alloc, &mut products, last, plus)?;
        last.push(next.factor)?;
        faults = faults.and(next.faults);
        rest = left;
    }
    products.push(last)?;
    Ok(Ok((
        OneSum {
            sum: products,
            faults,
        },
        rest,
    )))
}

// Whether `+` or `*` stands at the front, and what stands behind it.
fn joint(tokens: &[Token]) -> Option<(bool, &[Token])>
    ensures value { seen_joint result ≡ joint tokens.now }
    ensures within { IfSome result (λ found. length found.1.now < length tokens.now) }
{
    let (first, rest) = tokens.split_first()?;
    match first.word {
        Word::Plus => Some((true, rest)),
        Word::Star => Some((false, rest)),
        _ => None,
    }
}

// The product that goes on: behind `+` a new one.
fn turned(alloc: Global, products: &mut Sum, last: Product, plus: bool) -> Result<Product, NoMemory>
    ensures product { IfOk result (λ product. product ≡ (if plus then [] else last)) }
    ensures products { OnOk result (products.new ≡ (if plus then products.old ++ last ∷ [] else products.old)) }
{
    if plus {
        products.push(last)?;
        return Ok(Product::new(alloc));
    }
    Ok(last)
}
