//! The table of commands.

ghost use Rattle.std.specs.Prelude.{◌≡◌};
ghost use Rattle.std.specs.Option.{option_map};
ghost use Rattle.rna_code.specs.Commands.{act_of, name_of, row_among, row_of, rows_of, spells};

use crate::acts::{Act, Ink};
use crate::profile::Profile;
use fuun_base::Command;

/// What a command does: `None` exactly for a command outside the profile's table, which is ignored.
pub fn decode(command: &Command, profile: Profile) -> Option<Act>
    ensures { result ≡ act_of profile command.now }
{
    row_of(command, profile).map(|row| row.act)
}

/// The name of a command: `other` for a command outside the profile's table.
pub fn name(command: &Command, profile: Profile) -> &'static str
    ensures { result.now ≡ name_of profile command.now }
{
    row_of(command, profile).map_or("other", |row| row.name)
}

// One row of a table.
#[derive(Clone, Copy)]
struct Row {
    name: &'static str,
    act: Act,
}

// The row of a command.
fn row_of(command: &Command, profile: Profile) -> Option<Row>
    ensures name { option_map (λ found. found.name.now) result ≡ option_map (λ r. r.name) (row_of profile command.now) }
    ensures act { option_map (λ found. found.act) result ≡ option_map (λ r. r.act) (row_of profile command.now) }
{
    let mut letters = [0; 7];
    let len = command.letters(&mut letters);
    find_row(&letters[..len], profile)
}

// A word is these letters.
fn spells(word: &[u8], letters: &[u8; 7]) -> bool
    ensures { result ≡ spells word.now letters.now }
{
    word == letters.as_slice()
}

// The first row with these letters.
fn find_row(word: &[u8], profile: Profile) -> Option<Row>
    ensures name { option_map (λ found. found.name.now) result ≡ option_map (λ r. r.name) (row_among (rows_of profile) word.now) }
    ensures act { option_map (λ found. found.act) result ≡ option_map (λ r. r.act) (row_among (rows_of profile) word.now) }
{
    macro_rules! table {
        ($($letters:literal $name:literal $act:expr $(, $profile:expr)?;)*) => {
            $(
                if spells(word, $letters) $(&& profile == $profile)? {
                    return Some(Row { name: $name, act: $act });
                }
            )*
        };
    }
    table! {
        b"PIPIIIC" "black" Act::Add(Ink::Black);
        b"PIPIIIP" "red" Act::Add(Ink::Red);
        b"PIPIICC" "green" Act::Add(Ink::Green);
        b"PIPIICF" "yellow" Act::Add(Ink::Yellow);
        b"PIPIICP" "blue" Act::Add(Ink::Blue);
        b"PIPIIFC" "magenta" Act::Add(Ink::Magenta);
        b"PIPIIFF" "cyan" Act::Add(Ink::Cyan);
        b"PIPIIPC" "white" Act::Add(Ink::White);
        b"PIPIIPF" "transparent" Act::Add(Ink::Transparent);
        b"PIPIIPP" "opaque" Act::Add(Ink::Opaque);
        b"PIIPICP" "empty" Act::EmptyBucket;
        b"PIIIIIP" "move" Act::Move;
        b"PCCCCCP" "counterclockwise" Act::TurnLeft;
        b"PFFFFFP" "clockwise" Act::TurnRight;
        b"PCCIFFP" "mark" Act::Mark;
        b"PFFICCP" "line" Act::Line;
        b"PIIPIIP" "fill" Act::Fill;
        b"PCCPFFP" "layer" Act::AddLayer;
        b"PFFPCCP" "compose" Act::Compose;
        b"PFFICCF" "clip" Act::Clip;
        b"PIPIIFP" "copy" Act::CopyLayer, Profile::Wide;
    }
    None
}
