//! Items in a text.
ghost use Rattle.std.specs.Prelude.{◌≡◌, ◌≢◌, ◌≤◌, ◌∷◌, length, IfOk, IfSome};
ghost use Rattle.assembler.specs.Ahead.{group_ahead, letters_ahead, pattern_item_ahead, template_item_ahead};

use crate::numbers::{ended_number, number, rest_from};
use dna_items::{PatItem, TplItem};
use fuun_base::{Base, BaseList, NoMemory};
use std::alloc::Global;

/// The item of a pattern that stands at the front, and how many bytes it takes.
#[tactic(auto, unfolding(crate::specs::Ahead::pattern_item_ahead))]
pub(crate) fn pattern_item(
    alloc: Global,
    bytes: &[u8],
) -> Result<Option<(PatItem, usize)>, NoMemory>
    ensures { IfOk result (λ found. found ≡ pattern_item_ahead bytes.now) }
{
    let Some((first, rest)) = bytes.split_first() else {
        return Ok(None);
    };
    if *first == b'<' {
        return search(alloc, rest);
    }
    Ok(plain_item(*first, rest))
}

// The item of a pattern, no search, that begins with a byte before others.
#[tactic(auto, unfolding(crate::specs::Ahead::pattern_item_ahead))]
fn plain_item(first: u8, rest: &[u8]) -> Option<(PatItem, usize)>
    requires { first ≢ 60 }
    ensures { result ≡ pattern_item_ahead (first ∷ rest.now) }
{
    match first {
        b'!' => skip(rest),
        b'(' => Some((PatItem::GroupStart, 1)),
        b')' => Some((PatItem::GroupStop, 1)),
        _ => Some((PatItem::Base(Base::from_letter(first)?), 1)),
    }
}

#[tactic(auto, unfolding(crate::specs::Ahead::pattern_item_ahead))]
fn skip(rest: &[u8]) -> Option<(PatItem, usize)>
    ensures { result ≡ pattern_item_ahead (33 ∷ rest.now) }
{
    let (n, len) = number(rest)?;
    Some((PatItem::Skip(n), len + 1))
}

// The search whose letters and end stand at the front.
#[tactic(auto, unfolding(crate::specs::Ahead::pattern_item_ahead))]
fn search(alloc: Global, rest: &[u8]) -> Result<Option<(PatItem, usize)>, NoMemory>
    ensures { IfOk result (λ found. found ≡ pattern_item_ahead (60 ∷ rest.now)) }
{
    match letters(alloc, rest)? {
        Some((bases, len)) => Ok(Some((PatItem::Search(bases), len + 1))),
        None => Ok(None),
    }
}

#[tactic(auto, unfolding(crate::specs::Ahead::letters_ahead))]
fn letters(alloc: Global, bytes: &[u8]) -> Result<Option<(BaseList, usize)>, NoMemory>
    ensures value { IfOk result (λ found. found ≡ letters_ahead bytes.now) }
    ensures within { IfOk result (λ found. IfSome found (λ letters. letters.1 ≤ length bytes.now)) }
{
    let mut bases = BaseList::new(alloc);
    'letters: for (place, byte) in bytes.iter().enumerate() {
        if *byte == b'>' {
            return Ok(Some((bases, place + 1)));
        }
        let Some(base) = Base::from_letter(*byte) else {
            return Ok(None);
        };
        bases.push(base)?;
    }
    Ok(None)
}

/// The item of a template that stands at the front, and how many bytes it takes.
#[tactic(auto, unfolding(crate::specs::Ahead::template_item_ahead))]
pub(crate) fn template_item(bytes: &[u8]) -> Option<(TplItem, usize)>
    ensures { result ≡ template_item_ahead bytes.now }
{
    let (first, rest) = bytes.split_first()?;
    match *first {
        b'{' => group(rest),
        b'|' => group_len(rest),
        _ => Some((TplItem::Base(Base::from_letter(*first)?), 1)),
    }
}

#[tactic(auto, unfolding(crate::specs::Ahead::group_ahead))]
fn group(rest: &[u8]) -> Option<(TplItem, usize)>
    ensures { result ≡ group_ahead rest.now }
{
    let (n, len) = ended_number(b',', rest)?;
    let (level, more) = ended_number(b'}', rest_from(rest, len))?;
    Some((TplItem::Group { n, level }, len + more + 1))
}

#[tactic(auto, unfolding(crate::specs::Ahead::template_item_ahead))]
fn group_len(rest: &[u8]) -> Option<(TplItem, usize)>
    ensures { result ≡ template_item_ahead (124 ∷ rest.now) }
{
    let (n, len) = ended_number(b'|', rest)?;
    Some((TplItem::Len(n), len + 1))
}
