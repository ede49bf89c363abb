ghost use Rattle.std.specs.Prelude.{◌≤◌};

use crate::Painter;
use canvas::{Pixel, Spot};
use dna_reader::RnaTaker;
use fuun_base::read_rna;
use rna_code::Profile;
use std::alloc::Global;
use std::test::Fail;

// What the commands of some lines draw in a profile.
fn drawn<const SIDE: usize, const MAX: usize>(
    alloc: Global,
    lines: &str,
    profile: Profile,
) -> Result<Painter<SIDE, MAX>, Fail>
    requires side { (1 ≤ SIDE) × (SIDE ≤ 1024) }
    requires most { (1 ≤ MAX) × (MAX ≤ 16) }
{
    let commands = read_rna(alloc, lines.as_bytes())?;
    let mut painter = Painter::new(alloc, profile)?;
    for command in commands.as_slice() {
        painter
            .take(command)
            .map_err(|_| "a command was not taken")?;
    }
    Ok(painter)
}

// Whether every pixel of what the lines draw on a side of 3, with at most 10 bitmaps, is this one.
fn shows(alloc: Global, lines: &str, pixel: Pixel) -> Result<bool, Fail> {
    let painter = drawn::<3, 10>(alloc, lines, Profile::Plain)?;
    Ok(painter.top().pixels().iter().all(|shown| *shown == pixel))
}

#[test]
fn nothing_and_a_red_fill(rt: HostRuntime) -> Result<(), Fail> {
    assert!(rt; shows(rt.alloc(), "", Pixel::of(0, 0, 0, 0))?);
    assert!(rt; shows(rt.alloc(), "PPP\n\nPIPIIII\n", Pixel::of(0, 0, 0, 0))?);
    assert!(rt; shows(rt.alloc(), "PIPIIIP\nPIIPIIP\n", Pixel::of(255, 0, 0, 255))?);
    assert!(rt;
        shows(
            rt.alloc(),
            "PIPIIIP\nPIIPICP\nPIIPIIP\n",
            Pixel::of(0, 0, 0, 255)
        )?
    );
    Ok(())
}

#[test]
fn layers_are_composed_and_clipped(rt: HostRuntime) -> Result<(), Fail> {
    let two = "PIPIIIP\nPIIPIIP\nPCCPFFP\nPIIPICP\nPIPIICP\nPIPIIPF\nPIPIIPP\nPIIPIIP\n";
    let composed = format!(in rt.alloc(); "{two}PFFPCCP\n")?;
    assert!(rt; shows(rt.alloc(), composed.as_str(), Pixel::of(128, 0, 127, 255))?);
    let clipped = format!(in rt.alloc(); "{two}PFFICCF\n")?;
    assert!(rt; shows(rt.alloc(), clipped.as_str(), Pixel::of(127, 0, 0, 127))?);
    Ok(())
}

#[test]
fn there_are_at_most_ten_layers(rt: HostRuntime) -> Result<(), Fail> {
    let red = "PIPIIIP\nPIIPIIP\n";
    let eleven =
        "PCCPFFP\nPCCPFFP\nPCCPFFP\nPCCPFFP\nPCCPFFP\nPCCPFFP\nPCCPFFP\nPCCPFFP\nPCCPFFP\nPCCPFFP\nPCCPFFP\n";
    let eight = "PFFPCCP\nPFFPCCP\nPFFPCCP\nPFFPCCP\nPFFPCCP\nPFFPCCP\nPFFPCCP\nPFFPCCP\n";
    for (further, shown) in [
        ("", Pixel::of(0, 0, 0, 0)),
        ("PFFPCCP\n", Pixel::of(255, 0, 0, 255)),
        ("PFFPCCP\nPFFPCCP\n", Pixel::of(255, 0, 0, 255)),
    ] {
        let lines = format!(in rt.alloc(); "{red}{eleven}{eight}{further}")?;
        assert!(rt; shows(rt.alloc(), lines.as_str(), shown)?);
    }
    Ok(())
}

#[test]
fn moves_go_round_the_edges(rt: HostRuntime) -> Result<(), Fail> {
    // The place of a dot one pixel away in each direction.
    for (turns, place) in [
        ("", 1),
        ("PCCCCCP\n", 6),
        ("PFFFFFP\n", 3),
        ("PFFFFFP\nPFFFFFP\n", 2),
        ("PCCCCCP\nPCCCCCP\n", 2),
        ("PCCCCCP\nPCCCCCP\nPCCCCCP\nPCCCCCP\n", 1),
    ] {
        let lines = format!(in rt.alloc(); "PIPIIIP\n{turns}PIIIIIP\nPCCIFFP\nPFFICCP\n")?;
        let painter = drawn::<3, 1>(rt.alloc(), lines.as_str(), Profile::Plain)?;
        let red = Pixel::of(255, 0, 0, 255);
        let mut dots = painter
            .top()
            .pixels()
            .iter()
            .enumerate()
            .filter(|(_, pixel)| **pixel == red);
        assert_eq!(rt; dots.next().map(|(index, _)| index), Some(place));
        assert!(rt; dots.next().is_none());
    }
    Ok(())
}

#[test]
fn a_move_round_the_edge_of_a_whole_picture(rt: HostRuntime) -> Result<(), Fail> {
    let lines = "PIPIIIP\nPCCCCCP\nPIIIIIP\nPCCIFFP\nPFFICCP\n";
    let painter = drawn::<600, 10>(rt.alloc(), lines, Profile::Plain)?;
    let clear = Pixel::of(0, 0, 0, 0);
    assert_eq!(rt;
        painter.top().get(Spot { x: 0, y: 599 }),
        Pixel::of(255, 0, 0, 255)
    );
    assert_eq!(rt;
        painter
            .top()
            .pixels()
            .iter()
            .filter(|pixel| **pixel != clear)
            .count(),
        1
    );
    Ok(())
}

#[test]
fn a_copied_layer_is_in_the_wide_profile_alone(rt: HostRuntime) -> Result<(), Fail> {
    let lines = "PIPIIIP\nPIPIIPF\nPIPIIPP\nPIIPIIP\nPIPIIFP\nPFFPCCP\n";
    for (profile, shown) in [
        (Profile::Plain, Pixel::of(127, 0, 0, 127)),
        (Profile::Wide, Pixel::of(190, 0, 0, 190)),
    ] {
        let painter = drawn::<3, 10>(rt.alloc(), lines, profile)?;
        assert!(rt; painter.top().pixels().iter().all(|pixel| *pixel == shown));
    }
    Ok(())
}
