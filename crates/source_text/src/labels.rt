//! Labels, which are known above their statements.
ghost use Rattle.std.specs.Prelude.{◌≡◌, ℕ, ◌<◌, ◌^◌, MatchOption, OnOk};
ghost use Rattle.std.specs.List.{list_any};
ghost use Rattle.source_text.specs.Keeping.{AreKnown, IsMeant};
ghost use Rattle.source_text.specs.Names.{Names, with_meaning};
ghost use Rattle.source_text.specs.Sources.{is_equals, with_label};

use crate::names::{Known, set_known};
use crate::signs::{Sign, is_sign};
use fuun_base::NoMemory;
use source_tokens::Token;

/// Makes a name known as the label before which so many lines stand.
pub(crate) fn add_label(known: &mut Vec<Known>, line: u64, id: u64) -> Result<(), NoMemory>
    ensures { OnOk result ((limit : ℕ) (names : Names) → AreKnown limit known.old.items names → AreKnown limit known.new.items (with_meaning names id (with_label line (names id)))) }
{
    match label_behind(known.as_slice(), line, id) {
        Some(label) => {
            set_known(known, id, label)?;
            Ok(())
        }
        None => Ok(()),
    }
}

// What a name stands for behind a label, where that is something else.
fn label_behind(known: &[Known], line: u64, id: u64) -> Option<Known>
    ensures { (limit : ℕ) (names : Names) → AreKnown limit known.now names → MatchOption result (with_label line (names id) ≡ names id) (λ label. IsMeant limit label (with_label line (names id))) }
{
    if known.len() as u64 <= id {
        return Some(Known::Label { line, twice: false });
    }
    match &known[id as usize] {
        Known::Unknown => Some(Known::Label { line, twice: false }),
        Known::Label { line: other, .. } => Some(Known::Label {
            line: *other,
            twice: true,
        }),
        Known::Reserved | Known::Definition { .. } => None,
    }
}

/// Whether a statement with these tokens has an `=`, as definitions do.
pub(crate) fn has_equals(tokens: &[Token]) -> bool
    ensures { result ≡ list_any is_equals tokens.now }
{
    tokens.iter().any(|token| is_equals(*token))
}

fn is_equals(token: Token) -> bool
    ensures { result ≡ is_equals token }
{
    is_sign(Sign::Equals, token.word)
}
