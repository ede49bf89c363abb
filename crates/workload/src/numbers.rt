//! Numbers drawn one after another.
ghost use Rattle.std.specs.Prelude.{◌≡◌, ◌^◌, ◌<◌, ◌≤◌, length};
ghost use Rattle.workload.specs.Numbers.{base_of, bases_drawn, behind, drawn, shown, turned};

use fuun_base::Base;
use std::marker::Model;

/// A linear congruential generator, seen as its state.
#[derive(Drop)]
pub(crate) struct Numbers {
    state: u64,
}

impl Model for Numbers {
    ghost use Rattle.std.specs.Prelude.{ℕ, ◌^◌, ◌<◌};

    ghost Value = { ℕ };

    ghost view = { λ numbers. numbers.state };

    ghost invariant = { λ numbers. numbers.state < 2 ^ 31 };
}

impl Numbers {
    pub(crate) fn new(seed: u64) -> Numbers
        requires { seed < 2 ^ 31 }
        ensures { result ≡ seed }
    {
        Numbers { state: seed }
    }

    // Makes a turn, and answers a number of 15 bits.
    fn turn(&mut self) -> u64
        ensures state { self.new ≡ turned self.old }
        ensures value { result ≡ shown self.new }
        ensures bits { result < 2 ^ 15 }
    {
        self.state = (1_103_515_245 * self.state + 12_345) % (1 << 31);
        self.state / (1 << 16)
    }

    /// A number below n, by two turns.
    pub(crate) fn draw(&mut self, n: u64) -> u64
        requires { 1 ≤ n }
        ensures state { self.new ≡ behind 1 self.old }
        ensures value { result ≡ drawn self.old n }
        ensures below { result < n }
    {
        let high = self.turn();
        let low = self.turn();
        (high * 32_768 + low) % n
    }

    fn base(&mut self) -> Base
        ensures state { self.new ≡ behind 1 self.old }
        ensures value { result ≡ base_of (drawn self.old 4) }
    {
        match self.draw(4) {
            0 => Base::I,
            1 => Base::C,
            2 => Base::F,
            _ => Base::P,
        }
    }

    /// Draws each base of a slice.
    pub(crate) fn fill(&mut self, slots: &mut [Base])
        ensures state { self.new ≡ behind (length slots.old) self.old }
        ensures bases { slots.new ≡ bases_drawn (length slots.old) self.old }
    {
        for index in 0..slots.len() {
            slots[index] = self.base();
        }
    }
}
