// Where files come from.
ghost use Rattle.std.specs.Prelude.{◌≡◌, ℕ, ◌<◌, ◌≤◌, Bool, List, Option, IsTrue, length, OnOk, OnErr, IfOk, IfSome};
ghost use Rattle.fuun_io.specs.Counts.{raised, HasCause};
ghost use Rattle.fuun_io.specs.Files.{Gives};

/// A read or a write failed. The folder or sink that answers it has counted the fault.
#[derive(Clone, Copy, Debug, PartialEq, Eq)]
pub struct Failed;

/// Files by name, read in pieces.
pub trait Folder {
    /// The bytes of the file of a name, where they are told.
    ghost contents: { Self → List ℕ → Option (List ℕ) };

    /// Whether a name may be asked for.
    ghost allows: { Self → List ℕ → Bool };

    /// How many faults were counted so far, up to `u64::MAX`.
    ghost faults: { Self → ℕ };

    /// How many bytes were given so far, up to `u64::MAX`.
    ghost given: { Self → ℕ };

    /// Writes the bytes of a file from byte `at_byte` on, counted from 0, to the front of the buffer, and
    /// answers how many. `Ok(0)` means that the file ends there or before. An unknown name is a fault.
    fn piece(&mut self, name: &str, at_byte: u64, buf: &mut [u8]) -> Result<usize, Failed>
        requires room { 0 < length buf.old }
        requires allowed { IsTrue (allows self.old name.now) }

        ensures bound { IfOk result (λ count. count ≤ length buf.new) }
        ensures bytes { IfOk result (λ count. IfSome (contents self.old name.now)
            (λ bytes. Gives bytes at_byte count buf.new)) }
        ensures given { IfOk result (λ count. given self.new ≡ raised (given self.old) count) }
        ensures none_given { OnErr result (given self.new ≡ given self.old) }
        ensures cause { HasCause (faults self.old) (faults self.new) result }

        // No call changes what the files are, or which may be asked for.
        ensures same_contents { contents self.new ≡ contents self.old }
        ensures same_names { allows self.new ≡ allows self.old };
}
