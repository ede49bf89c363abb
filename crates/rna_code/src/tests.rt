use crate::{Act, Ink, Profile, decode, name};
use fuun_base::{Base, Command};
use std::test::Fail;

// The command of some letters, at most seven.
fn command_of(letters: &[u8]) -> Option<Command> {
    let mut bases = [Base::I; 7];
    for (place, letter) in letters.iter().enumerate() {
        if place < 7 {
            bases[place] = Base::from_letter(*letter)?;
        }
    }
    Command::from_bases(bases.get(..letters.len())?)
}

#[test]
fn the_twenty_one_commands_and_three_others(rt: HostRuntime) -> Result<(), Fail> {
    let table: [(&[u8], &str, Option<Act>); 23] = [
        (b"PIPIIIC", "black", Some(Act::Add(Ink::Black))),
        (b"PIPIIIP", "red", Some(Act::Add(Ink::Red))),
        (b"PIPIICC", "green", Some(Act::Add(Ink::Green))),
        (b"PIPIICF", "yellow", Some(Act::Add(Ink::Yellow))),
        (b"PIPIICP", "blue", Some(Act::Add(Ink::Blue))),
        (b"PIPIIFC", "magenta", Some(Act::Add(Ink::Magenta))),
        (b"PIPIIFF", "cyan", Some(Act::Add(Ink::Cyan))),
        (b"PIPIIPC", "white", Some(Act::Add(Ink::White))),
        (b"PIPIIPF", "transparent", Some(Act::Add(Ink::Transparent))),
        (b"PIPIIPP", "opaque", Some(Act::Add(Ink::Opaque))),
        (b"PIIPICP", "empty", Some(Act::EmptyBucket)),
        (b"PIIIIIP", "move", Some(Act::Move)),
        (b"PCCCCCP", "counterclockwise", Some(Act::TurnLeft)),
        (b"PFFFFFP", "clockwise", Some(Act::TurnRight)),
        (b"PCCIFFP", "mark", Some(Act::Mark)),
        (b"PFFICCP", "line", Some(Act::Line)),
        (b"PIIPIIP", "fill", Some(Act::Fill)),
        (b"PCCPFFP", "layer", Some(Act::AddLayer)),
        (b"PFFPCCP", "compose", Some(Act::Compose)),
        (b"PFFICCF", "clip", Some(Act::Clip)),
        (b"PPP", "other", None),
        (b"PIPIIII", "other", None),
        (b"", "other", None),
    ];
    for (letters, wanted, act) in table.iter() {
        let command = command_of(letters).ok_or("more than seven letters, or no base")?;
        for profile in [Profile::Plain, Profile::Wide] {
            assert_eq!(rt; name(&command, profile), *wanted);
            assert_eq!(rt; decode(&command, profile), *act);
        }
    }
    let copy = command_of(b"PIPIIFP").ok_or("more than seven letters, or no base")?;
    assert_eq!(rt; name(&copy, Profile::Plain), "other");
    assert_eq!(rt; decode(&copy, Profile::Plain), None);
    assert_eq!(rt; name(&copy, Profile::Wide), "copy");
    assert_eq!(rt; decode(&copy, Profile::Wide), Some(Act::CopyLayer));
    Ok(())
}
