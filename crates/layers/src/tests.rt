use crate::Layers;
use canvas::{Pixel, Spot};
use std::alloc::Global;
use std::test::Fail;

const ORIGIN: Spot = Spot { x: 0, y: 0 };

// A half transparent blue layer on a red one.
fn blue_on_red(alloc: Global) -> Result<Layers<2, 3>, Fail> {
    let mut layers = Layers::<2, 3>::new(alloc)?;
    layers
        .top_mut()
        .pixels_mut()
        .fill(Pixel::of(255, 0, 0, 255));
    layers.add();
    layers
        .top_mut()
        .pixels_mut()
        .fill(Pixel::of(0, 0, 127, 127));
    Ok(layers)
}

#[test]
fn two_layers_are_composed(rt: HostRuntime) -> Result<(), Fail> {
    let mut layers = blue_on_red(rt.alloc())?;
    layers.compose();
    assert_eq!(rt; layers.count(), 1);
    assert_eq!(rt;
        layers.top().pixels(),
        [Pixel::of(128, 0, 127, 255); 4].as_slice()
    );
    layers.compose();
    layers.clip();
    assert_eq!(rt;
        layers.top().pixels(),
        [Pixel::of(128, 0, 127, 255); 4].as_slice()
    );
    Ok(())
}

#[test]
fn two_layers_are_clipped(rt: HostRuntime) -> Result<(), Fail> {
    let mut layers = blue_on_red(rt.alloc())?;
    layers.clip();
    assert_eq!(rt; layers.count(), 1);
    assert_eq!(rt;
        layers.top().pixels(),
        [Pixel::of(127, 0, 0, 127); 4].as_slice()
    );
    Ok(())
}

#[test]
fn the_top_layer_is_copied(rt: HostRuntime) -> Result<(), Fail> {
    let mut layers = blue_on_red(rt.alloc())?;
    layers.copy();
    assert_eq!(rt; layers.count(), 3);
    layers.top_mut().set(ORIGIN, Pixel::of(1, 2, 3, 4));
    layers.copy();
    assert_eq!(rt; layers.count(), 3);
    assert_eq!(rt; layers.top().get(ORIGIN), Pixel::of(1, 2, 3, 4));
    layers.clip();
    layers.copy();
    assert_eq!(rt; layers.count(), 3);
    assert_eq!(rt; layers.top().get(ORIGIN), Pixel::of(0, 0, 1, 1));
    Ok(())
}

#[test]
fn there_is_room_for_most(rt: HostRuntime) -> Result<(), Fail> {
    let mut layers = blue_on_red(rt.alloc())?;
    layers.add();
    assert_eq!(rt; layers.count(), 3);
    layers.add();
    assert_eq!(rt; layers.count(), 3);
    layers.top_mut().set(ORIGIN, Pixel::of(1, 2, 3, 4));
    layers.compose();
    layers.add();
    assert_eq!(rt; layers.count(), 3);
    assert_eq!(rt; layers.top().get(ORIGIN), Pixel::of(0, 0, 0, 0));
    Ok(())
}
