// What the bases ahead begin with.
ghost use Rattle.std.specs.Prelude.{◌≡◌};
ghost use Rattle.dna_reader.specs.Heads.{unquoted, head_of};

use fuun_base::Base;

/// The letters of a row of the tables of pieces, by which both are read.
#[derive(Clone, Copy)]
pub enum Head {
    /// The quote of a base, of so many letters.
    Literal(Base, usize),
    Ip,
    If,
    Iip,
    /// IIC or IIF.
    Iic,
    Iii,
    /// Too short for any row.
    Short,
}

/// The base whose quote begins these bases, and the length of that quote.
pub fn unquoted_front(ahead: &[Base]) -> Option<(Base, usize)>
    ensures { result ≡ unquoted ahead.now }
{
    match ahead {
        [Base::C, ..] => Some((Base::I, 1)),
        [Base::F, ..] => Some((Base::C, 1)),
        [Base::P, ..] => Some((Base::F, 1)),
        [Base::I, Base::C, ..] => Some((Base::P, 2)),
        _ => None,
    }
}

/// The row that begins these bases.
pub fn head_front(ahead: &[Base]) -> Head
    ensures { result ≡ head_of ahead.now }
{
    match ahead {
        [Base::I, Base::I, Base::P, ..] => Head::Iip,
        [Base::I, Base::I, Base::I, ..] => Head::Iii,
        [Base::I, Base::I, _, ..] => Head::Iic,
        [Base::I, Base::P, ..] => Head::Ip,
        [Base::I, Base::F, ..] => Head::If,
        _ => match unquoted_front(ahead) {
            Some((base, letters)) => Head::Literal(base, letters),
            None => Head::Short,
        },
    }
}
