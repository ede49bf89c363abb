//! Sums made, and copied.
ghost use Rattle.std.specs.Prelude.{◌≡◌, ◌∷◌, [], IfOk};

use crate::{Factor, Product, Sum};
use fuun_base::NoMemory;
use std::alloc::Global;

/// The sum of one factor.
pub fn sum_of(alloc: Global, factor: Factor) -> Result<Sum, NoMemory>
    ensures { IfOk result (λ sum. sum ≡ (factor ∷ []) ∷ []) }
{
    let mut product = Product::new(alloc);
    product.push(factor)?;
    let mut sum = Sum::new(alloc);
    sum.push(product)?;
    Ok(sum)
}

/// A copy of a sum.
pub fn copied_sum(alloc: Global, sum: &Sum) -> Result<Sum, NoMemory>
    ensures { IfOk result (λ copy. copy ≡ sum.now) }
{
    let products = sum.as_slice();
    let mut copy = Sum::new(alloc);
    'products: for product in products {
        copy.push(copied_product(alloc, product)?)?;
    }
    Ok(copy)
}

fn copied_product(alloc: Global, product: &Product) -> Result<Product, NoMemory>
    ensures { IfOk result (λ copy. copy ≡ product.now) }
{
    let factors = Vec::from_slice(alloc, product.as_slice())?;
    Ok(Product::from_vec(factors))
}
