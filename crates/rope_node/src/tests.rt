ghost use Rattle.std.specs.Prelude.{◌≡◌, ◌<◌};

use super::*;
use fuun_base::{Base, Steps, Tally};
use std::alloc::Global;
use std::marker::Brand;
use std::process::Abort;
use std::sync::ledger::{Blank, Ledger};
use std::test::Fail;

#[test]
fn makes_and_shares_nodes(rt: HostRuntime) -> Result<(), Fail> {
    nodes::<Brand, _>(&rt, rt.alloc(), Blank::new(1))
}

fn nodes<L: Ledger, R: Abort>(rt: &R, alloc: Global, blank: Blank) -> Result<(), Fail>
    requires name { blank.name ≡ L.name }
    requires parts { blank.parts ≡ L.parts }
    requires some { 0 < L.parts }
{
    let mut steps = Steps::<L>::new(blank);
    let left = Node::leaf(alloc, &[Base::I, Base::C, Base::C], &mut steps)?;
    let right = Node::leaf(alloc, &[Base::P], &mut steps)?;
    let pair = Node::pair(alloc, &left, &right, &mut steps)?;
    let shared = pair.share()?;
    let View::Pair(first, last) = shared.view() else {
        return Err(Fail::from("a pair"));
    };
    assert!(rt; is_leaf_of(first, &[Base::I, Base::C, Base::C]));
    assert!(rt; is_leaf_of(last, &[Base::P]));
    assert_eq!(rt; (shared.len(), shared.height()), (4, 1));
    assert_eq!(rt;
        shared.tally(),
        Tally {
            i: 1,
            c: 2,
            f: 0,
            p: 1
        }
    );
    Ok(())
}

fn is_leaf_of(node: &Node, want: &[Base]) -> bool {
    match node.view() {
        View::Leaf(bases) => bases == want,
        View::Pair(_, _) => false,
    }
}
