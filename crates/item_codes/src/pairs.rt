//! Pairs as DNA.
ghost use Rattle.std.specs.Prelude.{◌≡◌, ◌++◌, OnOk};
ghost use Rattle.dna_reader.specs.Codes.{pair_code};

use crate::pattern::{put_end, put_pattern};
use crate::template::put_template;
use dna_items::{PatList, TplList};
use fuun_base::{Base, NoMemory};

/// Appends the code of a pattern and a template, each with its end.
pub fn put_pair(pattern: &PatList, template: &TplList, out: &mut Vec<Base>) -> Result<(), NoMemory>
    ensures { OnOk result (out.new.items ≡ out.old.items ++ pair_code pattern.now template.now) }
{
    put_pattern(pattern, out)?;
    put_end(out)?;
    put_template(template, out)?;
    put_end(out)
}
