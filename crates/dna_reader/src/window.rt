ghost use Rattle.std.specs.Prelude.{◌≡◌, ◌+◌, ◌^◌, ◌≤◌, List, length, drop, min};
ghost use Rattle.fuun_base.specs.declared.letters.Base.{Base};
ghost use Rattle.dna_reader.specs.Window.{Shows};

use fuun_base::Base;
use std::marker::Model;
use strand::Strand;

/// How many bases a window holds.
const ROOM: usize = 256;

/// More than the letters of any row of the tables take.
const ENOUGH: usize = 10;

/// A place in a strand, with some of the bases that stand there copied out.
#[derive(Drop)]
pub struct Window {
    place: u64,
    len: u64,
    from: usize,
    to: usize,
    bases: [Base; ROOM],
}

impl Model for Window {
    ghost use Rattle.dna_reader.specs.View.{View};

    ghost Value = { View };

    ghost use Rattle.dna_reader.specs.Window.{viewed, IsInOrder};

    ghost view = { viewed };

    ghost invariant = { IsInOrder };
}

impl Window {
    /// A window at a place, with no base copied out yet.
    pub fn at<S: Strand>(s: &S, place: u64) -> Window
        requires { place ≤ length (S.bases s.now) }
        ensures shows { Shows result (S.bases s.now) }
        ensures place { result.place ≡ place }
        ensures most { length (S.bases s.now) ≤ 2 ^ 41 }
    {
        Window {
            place,
            len: s.len(),
            from: 0,
            to: 0,
            bases: [Base::I; ROOM],
        }
    }

    /// Copies out more where fewer than ten bases are ahead.
    pub fn fill<S: Strand>(&mut self, s: &S)
        requires { Shows self.old (S.bases s.now) }
        ensures shows { Shows self.new (S.bases s.now) }
        ensures place { self.new.place ≡ self.old.place }
        ensures enough { min 10 (length (drop self.new.place (S.bases s.now))) ≤ length self.new.ahead }
    {
        let ahead = self.to - self.from;
        if ahead < ENOUGH && self.place + (ahead as u64) < self.len {
            self.to = s.copy_out(self.place, &mut self.bases);
            self.from = 0;
        }
    }

    /// The place of the next base.
    pub fn place(&self) -> u64
        ensures { result ≡ self.now.place }
    {
        self.place
    }

    /// The bases that are copied out and not yet passed.
    pub fn ahead(&self) -> &[Base]
        ensures { result.now ≡ self.now.ahead }
    {
        &self.bases[self.from..self.to]
    }

    /// Goes on by so many bases.
    pub fn pass(&mut self, count: usize)
        requires { count ≤ length self.old.ahead }
        ensures place { self.new.place ≡ self.old.place + count }
        ensures ahead { self.new.ahead ≡ drop count self.old.ahead }
        ensures shows { (d : List Base) → Shows self.old d → Shows self.new d }
    {
        self.from += count;
        self.place += count as u64;
    }
}
