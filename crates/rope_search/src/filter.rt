ghost use Rattle.std.specs.Prelude.{◌≡◌, ℕ, ◌+◌, ◌<◌, ◌≤◌, length, IsFalse};
ghost use Rattle.rope_search.specs.Sought.{Goes, Begins};

use fuun_base::Base;

/// How many bases of a needle the filter looks at.
const WORD: usize = 6;

/// The place that a search with nothing found may go on from: from `at` up to it no needle begins.
pub(crate) fn passed(bases: &[Base], needle: &[Base], at: usize, found: u32) -> usize
    requires { at ≤ length bases.now }
    ensures from { at ≤ result }
    ensures most { result ≤ length bases.now }
    ensures goes { Goes needle.now bases.now at found result found }
{
    let near = passed_by::<64>(bases, needle, at, found);
    passed_by::<16>(bases, needle, near, found)
}

/// The same by blocks of `N` places.
fn passed_by<const N: usize>(bases: &[Base], needle: &[Base], at: usize, found: u32) -> usize
    requires some { 1 ≤ N }
    requires few { N ≤ 64 }
    requires within { at ≤ length bases.now }
    ensures from { at ≤ result }
    ensures most { result ≤ length bases.now }
    ensures goes { Goes needle.now bases.now at found result found }
{
    let mut place = at;
    'passing: while found == 0 && needle.len() >= WORD && bases.len() - place >= N + WORD {
        if may_begin::<N>(&bases[place..], needle) {
            return place;
        }
        place += N;
    }
    place
}

/// Whether a needle may begin at one of the first `N` places.
fn may_begin<const N: usize>(block: &[Base], needle: &[Base]) -> bool
    requires few { N ≤ 64 }
    requires long { 6 ≤ length needle.now }
    requires room { N + 6 ≤ length block.now }
    ensures { IsFalse result → (place : ℕ) → place < N → Begins needle.now block.now place → ⊥ }
{
    let mut hits = 0;
    for place in 0..N {
        hits |= begins(block, needle, place);
    }
    hits != 0
}

/// 1 where the first bases of a needle stand at a place, else 0.
#[inline(always)]
fn begins(block: &[Base], needle: &[Base], place: usize) -> u8
    requires long { 6 ≤ length needle.now }
    requires room { place + 6 ≤ length block.now }
    ensures { result ≡ 0 → Begins needle.now block.now place → ⊥ }
{
    u8::from(block[place] == needle[0])
        & u8::from(block[place + 1] == needle[1])
        & u8::from(block[place + 2] == needle[2])
        & u8::from(block[place + 3] == needle[3])
        & u8::from(block[place + 4] == needle[4])
        & u8::from(block[place + 5] == needle[5])
}
