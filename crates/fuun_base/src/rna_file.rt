ghost use Rattle.std.specs.Prelude.{◌≡◌, ℕ, ◌≤◌, false, true, length, IfOk, IsTrue, MatchOption, OnOk};
ghost use Rattle.std.specs.List.{list_all};
ghost use Rattle.fuun_base.specs.declared.rna_file.RnaError.TheVariants.{NoMemory as OutOfMemory};
ghost use Rattle.fuun_base.specs.Letter.{is_letter};
ghost use Rattle.fuun_base.specs.RnaFile.{command_of, commands, first_bad, is_command};

use crate::dna_file::{are_letters, fill_letters};
use crate::letters::is_blank;
use crate::lines::first_line;
use crate::{Base, Command, CommandList, NoMemory};
use std::alloc::Global;

/// Why bytes are no RNA file.
#[derive(Clone, Copy, Debug, PartialEq, Eq)]
pub enum RnaError {
    /// The first line, counted from 1, with a byte that is neither a letter of a base nor a blank, or with more than seven letters.
    BadRna { line: u64 },
    NoMemory,
}

impl From<NoMemory> for RnaError {
    ghost from_gives = { λ _ e. e ≡ OutOfMemory };

    fn from(_: NoMemory) -> Self {
        RnaError::NoMemory
    }
}

/// Reads an RNA file: one command of at most seven letters a line. A line feed ends a line, bytes after the last one are a
/// line too, and an empty line is the command of no bases. Space, tab and carriage return are skipped.
pub fn read_rna(alloc: Global, bytes: &[u8]) -> Result<CommandList, RnaError>
    ensures commands { IfOk result (λ list. list ≡ commands bytes.now) }
    ensures none_bad { OnOk result (first_bad bytes.now ≡ None) }
    ensures bad { (line : ℕ) → result ≡ Err (RnaError.BadRna line) → first_bad bytes.now ≡ Some line }
{
    let mut list = CommandList::new(alloc);
    let mut rest = bytes;
    let mut line = 1;
    while rest.len() > 0 {
        let (text, more) = first_line(rest);
        let Some(command) = read_line(text) else {
            return Err(RnaError::BadRna { line });
        };
        list.push(command)?;
        rest = more;
        line += 1;
    }
    Ok(list)
}

// The command of a line.
fn read_line(line: &[u8]) -> Option<Command>
    ensures { MatchOption result (is_command line.now ≡ false)
        (λ command. (command ≡ command_of line.now) × (is_command line.now ≡ true)) }
{
    if line.len() <= 7 && are_letters(line) {
        return read_letters(line);
    }
    read_each(line)
}

// The command of a line of letters alone.
fn read_letters(line: &[u8]) -> Option<Command>
    requires few { length line.now ≤ 7 }
    requires letters { IsTrue (list_all is_letter line.now) }
    ensures { MatchOption result (is_command line.now ≡ false)
        (λ command. (command ≡ command_of line.now) × (is_command line.now ≡ true)) }
{
    let mut bases = [Base::I; 7];
    fill_letters(line, &mut bases[..line.len()]);
    Command::from_bases(&bases[..line.len()])
}

fn read_each(line: &[u8]) -> Option<Command>
    ensures { MatchOption result (is_command line.now ≡ false)
        (λ command. (command ≡ command_of line.now) × (is_command line.now ≡ true)) }
{
    let mut bases = [Base::I; 7];
    let mut len = 0;
    for byte in line {
        if let Some(base) = Base::from_letter(*byte) {
            if len == 7 {
                return None;
            }
            bases[len] = base;
            len += 1;
        } else if !is_blank(*byte) {
            return None;
        }
    }
    Command::from_bases(&bases[..len])
}
