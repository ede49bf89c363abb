// The pieces of patterns and templates.
ghost use Rattle.std.specs.Prelude.{◌≡◌, ◌+◌, ◌≤◌, Bool, List, take, drop, length, IfOk, MatchOption, min};
ghost use Rattle.fuun_base.specs.declared.letters.Base.{Base};
ghost use Rattle.dna_items.specs.Held.{held_pattern_item, held_template_item};
ghost use Rattle.dna_reader.specs.Heads.{head_of, letters_of};
ghost use Rattle.dna_reader.specs.Given.{end_gives, pattern_gives, template_gives, PieceIsRead};
ghost use Rattle.dna_reader.specs.Piece.{pattern_piece, template_piece, reference};
ghost use Rattle.dna_reader.specs.Window.{Shows};

use crate::heads::{Head, head_front};
use crate::numerals::{constants_ahead, numeral_ahead};
use crate::window::Window;
use dna_items::{PatItem, TplItem};
use fuun_base::{Command, NoMemory};
use std::alloc::Global;
use strand::Strand;

/// A piece of a pattern.
#[derive(Drop)]
pub enum PatternPiece {
    Item(PatItem),
    Command(Command),
    End,
}

/// A piece of a template.
#[derive(Clone, Copy)]
pub enum TemplatePiece {
    Item(TplItem),
    Command(Command),
    End,
}

/// The row that begins what is ahead, and at least ten bases of it where there are as many.
fn head_ahead<S: Strand>(s: &S, window: &mut Window) -> Head
    requires { Shows window.old (S.bases s.now) }
    ensures shows { Shows window.new (S.bases s.now) }
    ensures place { window.new.place ≡ window.old.place }
    ensures head { result ≡ head_of (drop window.old.place (S.bases s.now)) }
    ensures letters { letters_of result ≤ length window.new.ahead }
    ensures enough { min 10 (length (drop window.old.place (S.bases s.now))) ≤ length window.new.ahead }
{
    window.fill(s);
    head_front(window.ahead())
}

/// The command of the bases behind III, of which seven are taken or as many as are ahead.
fn command_ahead(window: &mut Window) -> Command
    requires { 3 ≤ length window.old.ahead }
    ensures command { result ≡ take 7 (drop 3 window.old.ahead) }
    ensures place { window.new.place ≡ window.old.place + (3 + length result) }
    ensures shows { (d : List Base) → Shows window.old d → Shows window.new d }
{
    let behind = &window.ahead()[3..];
    let command = Command::from_bases(&behind[..behind.len().min(7)]).unwrap();
    window.pass(3 + command.len());
    command
}

/// The skip of the numeral behind IP.
fn skip_ahead<S: Strand>(s: &S, window: &mut Window) -> Option<PatternPiece>
    requires shows { Shows window.old (S.bases s.now) }
    requires letters { 2 ≤ length window.old.ahead }
    requires head { head_of (drop window.old.place (S.bases s.now)) ≡ Head.Ip }
    ensures shows { Shows window.new (S.bases s.now) }
    ensures piece { (is_open : Bool) → MatchOption result
        (pattern_piece is_open (drop window.old.place (S.bases s.now)) ≡ None)
        (λ piece. PieceIsRead (pattern_piece is_open) held_pattern_item (S.bases s.now) window.old.place (pattern_gives piece) window.new.place) }
{
    window.pass(2);
    let n = numeral_ahead(s, window)?;
    Some(PatternPiece::Item(PatItem::Skip(n)))
}

/// The search of the constants behind IF and one base more.
fn search_ahead<S: Strand>(
    alloc: Global,
    s: &S,
    window: &mut Window,
) -> Result<PatternPiece, NoMemory>
    requires shows { Shows window.old (S.bases s.now) }
    requires enough { min 10 (length (drop window.old.place (S.bases s.now))) ≤ length window.old.ahead }
    requires head { head_of (drop window.old.place (S.bases s.now)) ≡ Head.If }
    ensures shows { Shows window.new (S.bases s.now) }
    ensures piece { (is_open : Bool) → IfOk result (λ piece.
        PieceIsRead (pattern_piece is_open) held_pattern_item (S.bases s.now) window.old.place (pattern_gives piece) window.new.place) }
{
    let letters = window.ahead().len().min(3);
    window.pass(letters);
    let constants = constants_ahead(alloc, s, window)?;
    Ok(PatternPiece::Item(PatItem::Search(constants)))
}

/// What IIC and IIF are in a pattern.
fn group_end(is_open: bool) -> PatternPiece
    ensures { pattern_gives result ≡ end_gives is_open }
{
    if is_open {
        PatternPiece::Item(PatItem::GroupStop)
    } else {
        PatternPiece::End
    }
}

/// Reads the piece of a pattern that is ahead, and goes behind it: None where no row fits.
pub fn pattern_ahead<S: Strand>(
    alloc: Global,
    s: &S,
    window: &mut Window,
    is_open: bool,
) -> Result<Option<PatternPiece>, NoMemory>
    requires { Shows window.old (S.bases s.now) }
    ensures shows { Shows window.new (S.bases s.now) }
    ensures piece { IfOk result (λ found. MatchOption found
        (pattern_piece is_open (drop window.old.place (S.bases s.now)) ≡ None)
        (λ piece. PieceIsRead (pattern_piece is_open) held_pattern_item (S.bases s.now) window.old.place (pattern_gives piece) window.new.place)) }
{
    match head_ahead(s, window) {
        Head::Literal(base, letters) => {
            window.pass(letters);
            Ok(Some(PatternPiece::Item(PatItem::Base(base))))
        }
        Head::Ip => Ok(skip_ahead(s, window)),
        Head::If => Ok(Some(search_ahead(alloc, s, window)?)),
        Head::Iip => {
            window.pass(3);
            Ok(Some(PatternPiece::Item(PatItem::GroupStart)))
        }
        Head::Iic => {
            window.pass(3);
            Ok(Some(group_end(is_open)))
        }
        Head::Iii => Ok(Some(PatternPiece::Command(command_ahead(window)))),
        Head::Short => Ok(None),
    }
}

/// The reference of the two numerals behind IP or IF.
fn reference_ahead<S: Strand>(s: &S, window: &mut Window) -> Option<TemplatePiece>
    requires shows { Shows window.old (S.bases s.now) }
    requires letters { 2 ≤ length window.old.ahead }
    requires head { template_piece (drop window.old.place (S.bases s.now)) ≡ reference (drop 2 (drop window.old.place (S.bases s.now))) }
    ensures shows { Shows window.new (S.bases s.now) }
    ensures piece { MatchOption result
        (template_piece (drop window.old.place (S.bases s.now)) ≡ None)
        (λ piece. PieceIsRead template_piece held_template_item (S.bases s.now) window.old.place (template_gives piece) window.new.place) }
{
    window.pass(2);
    let level = numeral_ahead(s, window)?;
    let n = numeral_ahead(s, window)?;
    Some(TemplatePiece::Item(TplItem::Group { n, level }))
}

/// The length of the group whose numeral stands behind IIP.
fn length_ahead<S: Strand>(s: &S, window: &mut Window) -> Option<TemplatePiece>
    requires shows { Shows window.old (S.bases s.now) }
    requires letters { 3 ≤ length window.old.ahead }
    requires head { head_of (drop window.old.place (S.bases s.now)) ≡ Head.Iip }
    ensures shows { Shows window.new (S.bases s.now) }
    ensures piece { MatchOption result
        (template_piece (drop window.old.place (S.bases s.now)) ≡ None)
        (λ piece. PieceIsRead template_piece held_template_item (S.bases s.now) window.old.place (template_gives piece) window.new.place) }
{
    window.pass(3);
    let n = numeral_ahead(s, window)?;
    Some(TemplatePiece::Item(TplItem::Len(n)))
}

/// Reads the piece of a template that is ahead, and goes behind it: None where no row fits.
pub fn template_ahead<S: Strand>(s: &S, window: &mut Window) -> Option<TemplatePiece>
    requires { Shows window.old (S.bases s.now) }
    ensures shows { Shows window.new (S.bases s.now) }
    ensures piece { MatchOption result
        (template_piece (drop window.old.place (S.bases s.now)) ≡ None)
        (λ piece. PieceIsRead template_piece held_template_item (S.bases s.now) window.old.place (template_gives piece) window.new.place) }
{
    match head_ahead(s, window) {
        Head::Literal(base, letters) => {
            window.pass(letters);
            Some(TemplatePiece::Item(TplItem::Base(base)))
        }
        Head::Ip | Head::If => reference_ahead(s, window),
        Head::Iip => length_ahead(s, window),
        Head::Iic => {
            window.pass(3);
            Some(TemplatePiece::End)
        }
        Head::Iii => Some(TemplatePiece::Command(command_ahead(window))),
        Head::Short => None,
    }
}
