ghost use Rattle.std.specs.Prelude.{◌≡◌, ◌≢◌, ◌+◌, ◌-◌, ◌^◌, ◌<◌, ◌≤◌, [], drop, length, nat_lt, IfOk, OnErr};
ghost use Rattle.dna_items.specs.Balance.{IsBalanced, start_of, stop_of};
ghost use Rattle.dna_items.specs.Held.{held_pattern_item, held_template_item};
ghost use Rattle.dna_reader.specs.Piece.{pattern_piece, template_piece};
ghost use Rattle.dna_reader.specs.PieceByPiece.{PieceIsKept, StopsAtPiece};
ghost use Rattle.dna_reader.specs.Window.{Shows};
ghost use Rattle.dna_reader.specs.Tables.{pattern_table, template_table, ReadsPattern, ReadsTemplate};
ghost use Rattle.dna_reader.specs.Taking.{PatternIsRead, TemplateIsRead, RanOutTaking, StandsWithin};
ghost use Rattle.fuun_io.specs.Counts.{Rose};

use crate::pieces::{PatternPiece, TemplatePiece, pattern_ahead, template_ahead};
use crate::window::Window;
use crate::{RnaTaker, TakeError};
use dna_items::{PatItem, PatList, TplList};
use fuun_base::NoMemory;
use std::alloc::Global;
use strand::Strand;

/// Why a pattern or a template was not read to its end.
#[derive(Clone, Copy, Debug, PartialEq, Eq)]
pub enum ReadingError {
    /// No piece begins what is left, or a numeral has no end: the machine finishes.
    RanOut,
    /// The taker failed, and has counted a fault.
    TakerFailed,
    NoMemory,
}

impl From<NoMemory> for ReadingError {
    ghost use Rattle.dna_reader.specs.declared.reading.ReadingError.TheVariants.{NoMemory as no_memory};
    ghost use Rattle.std.specs.Prelude.{◌≡◌};

    ghost from_gives = { λ _ error. error ≡ no_memory };

    fn from(_: NoMemory) -> Self {
        ReadingError::NoMemory
    }
}

impl From<TakeError> for ReadingError {
    ghost use Rattle.dna_reader.specs.Errors.{reading_error};
    ghost use Rattle.std.specs.Prelude.{◌≡◌};

    ghost from_gives = { λ cause error. error ≡ reading_error cause };

    fn from(cause: TakeError) -> Self {
        match cause {
            TakeError::Failed => ReadingError::TakerFailed,
            TakeError::NoMemory => ReadingError::NoMemory,
        }
    }
}

/// Reads the pattern at a place, and gives its items and the place behind its end. Its RNA goes to the taker.
pub fn read_pattern<S: Strand, T: RnaTaker>(
    alloc: Global,
    s: &S,
    place: u64,
    rna: &mut T,
) -> Result<(PatList, u64), ReadingError>
    requires place { place ≤ length (S.bases s.now) }
    requires room { T.taken rna.old ≤ 2 ^ 99 }

    ensures read { IfOk result (λ read. PatternIsRead T.follows rna.old rna.new (S.bases s.now) place read.0 read.1) }
    ensures balanced { IfOk result (λ read. IsBalanced read.0) }
    ensures within { IfOk result (λ read. read.1 ≤ length (S.bases s.now)) }
    ensures few { IfOk result (λ read. place + length read.0 ≤ read.1) }

    ensures ran_out { result ≡ Err ReadingError.RanOut →
        RanOutTaking ReadsPattern T.follows rna.old rna.new (drop place (S.bases s.now)) }
    ensures failed { result ≡ Err ReadingError.TakerFailed → Rose (T.faults rna.old) (T.faults rna.new) }
    ensures part { OnErr result (StandsWithin ReadsPattern T.within rna.old rna.new (drop place (S.bases s.now))) }

    ensures no_fault { result ≢ Err ReadingError.TakerFailed → T.faults rna.new ≡ T.faults rna.old }
    ensures most { T.taken rna.new + place ≤ T.taken rna.old + length (S.bases s.now) }
{
    let mut window = Window::at(s, place);
    let mut items = PatList::new(alloc);
    let mut groups = 0;
    while pattern_step(alloc, s, &mut window, &mut groups, &mut items, rna)? {}
    Ok((items, window.place()))
}

/// Reads the template at a place, and gives its items and the place behind its end. Its RNA goes to the taker.
pub fn read_template<S: Strand, T: RnaTaker>(
    alloc: Global,
    s: &S,
    place: u64,
    rna: &mut T,
) -> Result<(TplList, u64), ReadingError>
    requires place { place ≤ length (S.bases s.now) }
    requires room { T.taken rna.old ≤ 2 ^ 99 }

    ensures read { IfOk result (λ read. TemplateIsRead T.follows rna.old rna.new (S.bases s.now) place read.0 read.1) }
    ensures within { IfOk result (λ read. read.1 ≤ length (S.bases s.now)) }
    ensures few { IfOk result (λ read. place + length read.0 ≤ read.1) }

    ensures ran_out { result ≡ Err ReadingError.RanOut →
        RanOutTaking ReadsTemplate T.follows rna.old rna.new (drop place (S.bases s.now)) }
    ensures failed { result ≡ Err ReadingError.TakerFailed → Rose (T.faults rna.old) (T.faults rna.new) }
    ensures part { OnErr result (StandsWithin ReadsTemplate T.within rna.old rna.new (drop place (S.bases s.now))) }

    ensures no_fault { result ≢ Err ReadingError.TakerFailed → T.faults rna.new ≡ T.faults rna.old }
    ensures most { T.taken rna.new + place ≤ T.taken rna.old + length (S.bases s.now) }
{
    let mut window = Window::at(s, place);
    let mut items = TplList::new(alloc);
    while template_step(s, &mut window, &mut items, rna)? {}
    Ok((items, window.place()))
}

/// How many groups are open after an item.
fn opened(groups: u64, item: &PatItem) -> u64
    requires { groups < 2 ^ 63 }
    ensures { result ≡ groups + start_of item.now - stop_of item.now }
{
    match item {
        PatItem::GroupStart => groups + 1,
        PatItem::GroupStop => groups.saturating_sub(1),
        PatItem::Base(_) | PatItem::Skip(_) | PatItem::Search(_) => groups,
    }
}

/// Reads a piece of a pattern, and keeps its item or has its command taken. False where it was the end.
fn pattern_step<S: Strand, T: RnaTaker>(
    alloc: Global,
    s: &S,
    window: &mut Window,
    groups: &mut u64,
    items: &mut PatList,
    rna: &mut T,
) -> Result<bool, ReadingError>
    requires shows { Shows window.old (S.bases s.now) }
    requires few { groups.old < 2 ^ 63 }
    requires room { T.taken rna.old < 2 ^ 100 }

    ensures shows { Shows window.new (S.bases s.now) }
    ensures kept { IfOk result (λ is_more. PieceIsKept pattern_table held_pattern_item T.follows (S.bases s.now)
        window.old.place window.new.place groups.old groups.new items.old items.new rna.old rna.new is_more) }

    ensures ran_out { result ≡ Err ReadingError.RanOut →
        pattern_piece (nat_lt 0 groups.old) (drop window.old.place (S.bases s.now)) ≡ None }
    ensures nothing { result ≡ Err ReadingError.RanOut → T.follows rna.old [] rna.new }
    ensures failed { result ≡ Err ReadingError.TakerFailed → Rose (T.faults rna.old) (T.faults rna.new) }
    ensures part { OnErr result (StopsAtPiece pattern_table T.follows T.within (S.bases s.now) window.old.place groups.old rna.old rna.new) }
    ensures no_fault { result ≢ Err ReadingError.TakerFailed → T.faults rna.new ≡ T.faults rna.old }
{
    let Some(piece) = pattern_ahead(alloc, s, window, *groups > 0)? else {
        return Err(ReadingError::RanOut);
    };
    match piece {
        PatternPiece::Item(item) => {
            *groups = opened(*groups, &item);
            items.push(item)?;
            Ok(true)
        }
        PatternPiece::Command(command) => {
            rna.take(&command)?;
            Ok(true)
        }
        PatternPiece::End => Ok(false),
    }
}

/// Reads a piece of a template, and keeps its item or has its command taken. False where it was the end.
fn template_step<S: Strand, T: RnaTaker>(
    s: &S,
    window: &mut Window,
    items: &mut TplList,
    rna: &mut T,
) -> Result<bool, ReadingError>
    requires shows { Shows window.old (S.bases s.now) }
    requires room { T.taken rna.old < 2 ^ 100 }

    ensures shows { Shows window.new (S.bases s.now) }
    ensures kept { IfOk result (λ is_more. PieceIsKept template_table held_template_item T.follows (S.bases s.now)
        window.old.place window.new.place 0 0 items.old items.new rna.old rna.new is_more) }

    ensures ran_out { result ≡ Err ReadingError.RanOut →
        template_piece (drop window.old.place (S.bases s.now)) ≡ None }
    ensures nothing { result ≡ Err ReadingError.RanOut → T.follows rna.old [] rna.new }
    ensures failed { result ≡ Err ReadingError.TakerFailed → Rose (T.faults rna.old) (T.faults rna.new) }
    ensures part { OnErr result (StopsAtPiece template_table T.follows T.within (S.bases s.now) window.old.place 0 rna.old rna.new) }
    ensures no_fault { result ≢ Err ReadingError.TakerFailed → T.faults rna.new ≡ T.faults rna.old }
{
    let Some(piece) = template_ahead(s, window) else {
        return Err(ReadingError::RanOut);
    };
    match piece {
        TemplatePiece::Item(item) => {
            items.push(item)?;
            Ok(true)
        }
        TemplatePiece::Command(command) => {
            rna.take(&command)?;
            Ok(true)
        }
        TemplatePiece::End => Ok(false),
    }
}
