// Bytes written to memory.
ghost use Rattle.std.specs.Prelude.{◌≡◌, ℕ, ◌+◌, ◌-◌, ◌^◌, ◌<◌, ◌≤◌, Bool, List, [], ◌∷◌, ◌++◌, Some, is_err, length, take, OnOk, OnErr, IfOk};
ghost use Rattle.fuun_io.specs.Counts.{raised};
ghost use Rattle.fuun_io.specs.Memory.{taken, write_fails};

use crate::{Failed, NoMemory, Sink};
use std::alloc::Global;
use std::marker::Model;

/// Bytes written to memory, whose room is taken when it is made. A write fails at the calls that were told
/// to fail, counted from 0, and where the room is used up.
#[derive(Drop)]
pub struct MemSink {
    text: Vec<u8>,
    room: usize,
    most: usize,
    failing: Vec<u64>,
    calls: u64,
    faults: u64,
}

impl Model for MemSink {
    ghost use Rattle.std.specs.Prelude.{◌≤◌, vec_len, vec_capacity};
    ghost use Rattle.fuun_io.specs.Memory.{Page};

    ghost Value = { Page };

    ghost view = { λ sink. record { text = sink.text.items; room = sink.room; most = sink.most; failing = sink.failing.items; calls = sink.calls; faults = sink.faults } };

    ghost invariant = { λ sink. (vec_len sink.text ≤ sink.room) × (sink.room ≤ vec_capacity sink.text) };
}

impl MemSink {
    /// An empty sink with room for so many bytes.
    pub fn with_room(alloc: Global, room: usize) -> Result<MemSink, NoMemory>
        ensures { IfOk result (λ sink. sink ≡ record { text = []; room = room; most = 2 ^ 64 - 1; failing = []; calls = 0; faults = 0 }) }
    {
        Ok(MemSink {
            text: Vec::with_capacity(alloc, room)?,
            room,
            most: usize::MAX,
            failing: Vec::new(alloc),
            calls: 0,
            faults: 0,
        })
    }

    /// Makes the call of this number fail.
    pub fn fail_at(&mut self, call: u64) -> Result<(), NoMemory>
        ensures ok { OnOk result (self.new ≡ record self.old { failing = self.old.failing ++ call ∷ [] }) }
        ensures err { OnErr result (self.new ≡ self.old) }
    {
        self.failing.push(call)?;
        Ok(())
    }

    /// Lets a write take at most so many bytes.
    pub fn set_most(&mut self, most: usize)
        requires { 1 ≤ most }
        ensures { self.new ≡ record self.old { most = most } }
    {
        self.most = most;
    }

    /// The bytes written.
    pub fn bytes(&self) -> &[u8]
        ensures { result.now ≡ self.now.text }
    {
        &self.text
    }
}

impl Sink for MemSink {
    ghost bytes = { λ sink. Some sink.text };

    ghost faults = { λ sink. sink.faults };

    fn put(&mut self, piece: &[u8]) -> Result<usize, Failed>
        requires { 0 < length piece.now }
        ensures some { IfOk result (λ count. 1 ≤ count) }
        ensures bound { IfOk result (λ count. count ≤ length piece.now) }
        ensures takes { IfOk result (λ count. count ≡ taken self.old (length piece.now)) }
        ensures put { IfOk result (λ count. self.new ≡ record self.old {
          text = self.old.text ++ take count piece.now;
          calls = raised self.old.calls 1;
        }) }
        ensures none_put { OnErr result (self.new ≡ record self.old {
          calls = raised self.old.calls 1;
          faults = raised self.old.faults 1;
        }) }
        ensures fails { is_err result ≡ write_fails self.old (length piece.now) }
    {
        let is_listed = self.failing.contains(&self.calls);
        self.calls = self.calls.saturating_add(1);
        let left = self.room - self.text.len();
        let count = piece.len().min(self.most.min(left));
        if is_listed || count == 0 {
            self.faults = self.faults.saturating_add(1);
            return Err(Failed);
        }
        self.text.extend_from_slice(&piece[..count]).unwrap();
        Ok(count)
    }
}
