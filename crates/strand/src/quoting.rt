ghost use Rattle.std.specs.Prelude.{◌≡◌, IfOk};
ghost use Rattle.fuun_base.specs.Quote.{quote, protect};

use fuun_base::{Base, NoMemory, quote_into};
use std::alloc::Global;

/// The list quoted `level` times more. Nothing stays nothing at once, whatever the level.
pub fn requoted(alloc: Global, list: Vec<Base>, level: u64) -> Result<Vec<Base>, NoMemory>
    ensures { IfOk result (λ quoted. quoted.items ≡ protect level list.items) }
{
    let mut quoted = list;
    if quoted.len() == 0 {
        return Ok(quoted);
    }
    for done in 0..level {
        quoted = quote_of(alloc, quoted.as_slice())?;
    }
    Ok(quoted)
}

pub(crate) fn protected(alloc: Global, list: &[Base], level: u64) -> Result<Vec<Base>, NoMemory>
    ensures { IfOk result (λ quoted. quoted.items ≡ protect level list.now) }
{
    if level == 0 {
        return Ok(Vec::from_slice(alloc, list)?);
    }
    requoted(alloc, quote_of(alloc, list)?, level - 1)
}

fn quote_of(alloc: Global, list: &[Base]) -> Result<Vec<Base>, NoMemory>
    ensures { IfOk result (λ quoted. quoted.items ≡ quote list.now) }
{
    let mut quoted = Vec::new(alloc);
    quote_into(list, &mut quoted)?;
    Ok(quoted)
}
