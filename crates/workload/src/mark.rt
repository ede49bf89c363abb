ghost use Rattle.std.specs.Prelude.{◌≡◌, ◌≤◌};
ghost use Rattle.workload.specs.Mark.{code_of, mark_behind, marked};

use fuun_base::Base;

/// The mark of a list whose front has this mark and whose rest are these bases; the mark of no bases is 0.
pub fn mark_behind(mark: u32, bases: &[Base]) -> u32
    ensures { result ≡ mark_behind mark bases.now }
{
    let mut mark = mark;
    for base in bases {
        mark = marked(mark, *base);
    }
    mark
}

fn marked(mark: u32, base: Base) -> u32
    ensures { result ≡ marked mark base }
{
    mark.wrapping_mul(31).wrapping_add(code(base))
}

fn code(base: Base) -> u32
    ensures value { result ≡ code_of base }
    ensures most { result ≤ 4 }
{
    match base {
        Base::I => 1,
        Base::C => 2,
        Base::F => 3,
        Base::P => 4,
    }
}
