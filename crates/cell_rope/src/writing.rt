ghost use Rattle.std.specs.Prelude.{◌≡◌, ◌+◌, ◌^◌, ◌≤◌, ◌++◌, length, IfOk, OnOk};

use crate::node::{Node, View};
use fuun_base::{Base, BaseList, NoMemory};
use rope_strand::RopeStrand;
use std::alloc::Global;
use strand::Strand;
use sym_strand::{Seg, SymDna};

/// Adds the cells of a node to those of a DNA.
pub(crate) fn put_node(alloc: Global, node: &Node, dna: &mut SymDna) -> Result<(), NoMemory>
    requires { length dna.old + length node.now.cells ≤ 2 ^ 41 }
    ensures { OnOk result (dna.new ≡ dna.old ++ node.now.cells) }
{
    match node.view() {
        View::Known(strand) => dna.push(Seg::Known(bases_of(alloc, strand)?)),
        View::Target(lo, hi) => dna.push(Seg::Target { lo, hi }),
        View::Pair(left, right) => {
            put_node(alloc, left, dna)?;
            put_node(alloc, right, dna)
        }
    }
}

/// The bases of a strand, in one list.
fn bases_of(alloc: Global, strand: &RopeStrand) -> Result<BaseList, NoMemory>
    ensures { IfOk result (λ bases. bases ≡ strand.now.bases) }
{
    let mut bases = Vec::new(alloc);
    bases.resize(strand.len() as usize, Base::I)?;
    strand.copy_out(0, bases.as_mut_slice());
    BaseList::from_vec(alloc, bases)
}
