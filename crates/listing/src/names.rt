ghost use Rattle.fuun_io.specs.Counts.{HasCause};
ghost use Rattle.fuun_io.specs.Written.{Puts};
ghost use Rattle.listing.specs.Names.{name_line, names};

use fuun_base::{Command, CommandList};
use fuun_io::{Sink, WriteFault, put_pieces};
use rna_code::{Profile, name};

/// Writes a line for each command: its letters, a space, and its name in the profile's table. After an error
/// a front of the lines is written.
pub fn list_rna<S: Sink>(
    commands: &CommandList,
    profile: Profile,
    sink: &mut S,
) -> Result<(), WriteFault>
    ensures puts { Puts result (S.bytes sink.old) (S.bytes sink.new) (names profile commands.now) }
    ensures cause { HasCause (S.faults sink.old) (S.faults sink.new) result }
{
    for command in commands.as_slice() {
        put_name(command, profile, sink)?;
    }
    Ok(())
}

// Writes the line of a command.
fn put_name<S: Sink>(command: &Command, profile: Profile, sink: &mut S) -> Result<(), WriteFault>
    ensures puts { Puts result (S.bytes sink.old) (S.bytes sink.new) (name_line profile command.now) }
    ensures cause { HasCause (S.faults sink.old) (S.faults sink.new) result }
{
    let mut letters = [0; 7];
    let len = command.letters(&mut letters);
    let name = name(command, profile).as_bytes();
    put_pieces(sink, &[&letters[..len], b" ", name, b"\n"])
}
