//! A pattern and the template behind it, read by one call.
ghost use Rattle.std.specs.Prelude.{◌≡◌, ◌≢◌, ◌+◌, ◌*◌, ◌^◌, ◌≤◌, length, IfOk, OnErr};
ghost use Rattle.dna_items.specs.Balance.{IsBalanced};
ghost use Rattle.dna_reader.specs.Pairs.{PairIsRead, PairRanOut, StandsWithinPair};
ghost use Rattle.fuun_io.specs.Counts.{Rose};

use crate::{ReadingError, RnaTaker, read_pattern, read_template};
use dna_items::{PatList, TplList};
use std::alloc::Global;
use strand::Strand;

/// A pattern and the template behind it, and the place behind both.
#[derive(Debug, Drop)]
pub struct Pair {
    pub pattern: PatList,
    pub template: TplList,
    pub next: u64,
}

/// Reads the pattern at a place and then the template behind it. Their RNA goes to the taker.
pub fn read_pair<S: Strand, T: RnaTaker>(
    alloc: Global,
    s: &S,
    place: u64,
    rna: &mut T,
) -> Result<Pair, ReadingError>
    requires place { place ≤ length (S.bases s.now) }
    requires room { T.taken rna.old ≤ 2 ^ 98 }

    ensures read { IfOk result (λ pair. PairIsRead T.follows rna.old rna.new (S.bases s.now) place pair.pattern pair.template pair.next) }
    ensures balanced { IfOk result (λ pair. IsBalanced pair.pattern) }
    ensures within { IfOk result (λ pair. pair.next ≤ length (S.bases s.now)) }
    ensures few { IfOk result (λ pair. place + length pair.pattern ≤ pair.next) }

    ensures ran_out { result ≡ Err ReadingError.RanOut → PairRanOut T.follows rna.old rna.new (S.bases s.now) place }
    ensures failed { result ≡ Err ReadingError.TakerFailed → Rose (T.faults rna.old) (T.faults rna.new) }
    ensures part { OnErr result (StandsWithinPair T.within rna.old rna.new (S.bases s.now) place) }

    ensures no_fault { result ≢ Err ReadingError.TakerFailed → T.faults rna.new ≡ T.faults rna.old }
    ensures most { T.taken rna.new + 2 * place ≤ T.taken rna.old + 2 * length (S.bases s.now) }
{
    let _len = s.len();
    let (pattern, middle) = read_pattern(alloc, s, place, rna)?;
    let (template, next) = read_template(alloc, s, middle, rna)?;
    Ok(Pair {
        pattern,
        template,
        next,
    })
}
