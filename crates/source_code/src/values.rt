//! Values of sums, each held at 2^63.
ghost use Rattle.std.specs.Prelude.{◌≡◌, ◌*◌, ◌+◌, true, false, MatchOption};
ghost use Rattle.dna_items.specs.Held.{held};
ghost use Rattle.source_items.specs.Lines.{is_small};
ghost use Rattle.source_items.specs.Values.{factor_value, product_value, sum_value};

use crate::behind::Behind;
use dna_items::BIG;
use source_items::{Factor, Product};

#[tactic(auto, unfolding(dna_items::specs::Held::held))]
pub(crate) fn held(n: u128) -> u64
    ensures { result ≡ held n }
{
    n.min(u128::from(BIG)) as u64
}

/// The sum of two numbers.
pub(crate) fn held_sum(a: u64, b: u64) -> u64
    ensures { result ≡ held (a + b) }
{
    held(u128::from(a) + u128::from(b))
}

/// The product of two numbers.
pub(crate) fn held_product(a: u64, b: u64) -> u64
    ensures { result ≡ held (a * b) }
{
    held(u128::from(a) * u128::from(b))
}

/// The value of a sum in a line of `own` bases.
pub(crate) fn sum_value(own: u64, behind: &Behind, sum: &[Product]) -> u64
    ensures { result ≡ held (sum_value own behind.now sum.now) }
{
    let mut value = 0;
    for product in sum {
        value = held_sum(value, product_value(own, behind, product.as_slice()));
    }
    value
}

/// The value of a sum where it is below 2^63.
pub(crate) fn small_value(own: u64, behind: &Behind, sum: &[Product]) -> Option<u64>
    ensures { MatchOption result (is_small own behind.now sum.now ≡ false) (λ value. (is_small own behind.now sum.now ≡ true) × (value ≡ sum_value own behind.now sum.now)) }
{
    let value = sum_value(own, behind, sum);
    if value == BIG { None } else { Some(value) }
}

fn product_value(own: u64, behind: &Behind, product: &[Factor]) -> u64
    ensures { result ≡ held (product_value own behind.now product.now) }
{
    let mut value = 1;
    for factor in product {
        value = held_product(value, factor_value(own, behind, *factor));
    }
    value
}

fn factor_value(own: u64, behind: &Behind, factor: Factor) -> u64
    ensures { result ≡ held (factor_value own behind.now factor) }
{
    match factor {
        Factor::Number(n) => held(u128::from(n)),
        Factor::Rest => held(behind.total()),
        Factor::Own => held(u128::from(own)),
        Factor::Next(count) => held(behind.next(count)),
    }
}
