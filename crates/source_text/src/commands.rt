//! The names that a source begins with.
ghost use Rattle.std.specs.Prelude.{◌^◌, ◌≤◌, ◌++◌, List, IfOk, OnOk};
ghost use Rattle.source_text.specs.declared.pieces.Piece.{Piece as PieceOf};
ghost use Rattle.source_text.specs.Keeping.{AreAdded, AreKnown, IsHeld};
ghost use Rattle.source_text.specs.Names.{first_meanings, letter_piece, letter_pieces};

use crate::held::{Held, both, no_pieces, one_piece};
use crate::names::Known;
use crate::pieces::{Item, Piece};
use fuun_base::{Base, NoMemory};
use std::alloc::Global;

// The pieces of a command with these letters.
fn command(alloc: Global, limit: u64, letters: &[u8]) -> Result<Held, NoMemory>
    requires { limit ≤ 2 ^ 40 }
    ensures { IfOk result (λ held. IsHeld limit held (letter_pieces letters.now)) }
{
    let mut held = no_pieces(alloc);
    'letters: for letter in letters {
        held = with_letter(alloc, limit, held, *letter)?;
    }
    Ok(held)
}

fn with_letter(alloc: Global, limit: u64, held: Held, letter: u8) -> Result<Held, NoMemory>
    requires { limit ≤ 2 ^ 40 }
    ensures { IfOk result (λ more. (x : List PieceOf) → IsHeld limit held x → IsHeld limit more (x ++ letter_piece letter)) }
{
    let Some(base) = Base::from_letter(letter) else {
        return Ok(held);
    };
    let piece = Piece {
        item: Item::Base(base),
        at: 0,
    };
    let more = both(alloc, limit, held, one_piece(alloc, limit, piece)?)?;
    Ok(more)
}

/// What is known before the first statement: the reserved names, and the commands.
pub(crate) fn first_known(alloc: Global, limit: u64) -> Result<Vec<Known>, NoMemory>
    requires { limit ≤ 2 ^ 40 }
    ensures { IfOk result (λ known. AreKnown limit known.items first_meanings) }
{
    let mut known = Vec::new(alloc);
    known.push(Known::Reserved)?;
    known.push(Known::Reserved)?;
    known.push(Known::Reserved)?;
    add_commands(alloc, limit, &mut known, &COMMANDS)?;
    Ok(known)
}

fn add_commands(
    alloc: Global,
    limit: u64,
    known: &mut Vec<Known>,
    commands: &[&[u8]],
) -> Result<(), NoMemory>
    requires { limit ≤ 2 ^ 40 }
    ensures { OnOk result (AreAdded limit known.old.items commands.now known.new.items) }
{
    'commands: for letters in commands {
        let held = command(alloc, limit, letters)?;
        known.push(Known::Definition { count: 0, held })?;
    }
    Ok(())
}

// The letters of the commands, in the order of their table.
const COMMANDS: [&[u8]; 20] = [
    b"IIIPIPIIIC",
    b"IIIPIPIIIP",
    b"IIIPIPIICC",
    b"IIIPIPIICF",
    b"IIIPIPIICP",
    b"IIIPIPIIFC",
    b"IIIPIPIIFF",
    b"IIIPIPIIPC",
    b"IIIPIPIIPF",
    b"IIIPIPIIPP",
    b"IIIPIIPICP",
    b"IIIPIIIIIP",
    b"IIIPCCCCCP",
    b"IIIPFFFFFP",
    b"IIIPCCIFFP",
    b"IIIPFFICCP",
    b"IIIPIIPIIP",
    b"IIIPCCPFFP",
    b"IIIPFFPCCP",
    b"IIIPFFICCF",
];
