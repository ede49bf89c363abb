//! The average of some bytes.

ghost use Rattle.std.specs.Prelude.{◌≡◌, ◌+◌, ◌*◌, ◌/◌, ◌^◌, ◌<◌, ◌≤◌, ◌==◌, if◌then◌else◌};

/// The total of some bytes and how many there are.
#[derive(Drop)]
pub(crate) struct Average {
    pub(crate) total: u128,
    pub(crate) count: u128,
    ghost bytes: { total ≤ 255 * count },
}

impl Average {
    pub(crate) fn new() -> Average
        ensures { (result.total ≡ 0) × (result.count ≡ 0) }
    {
        Average { total: 0, count: 0 }
    }

    pub(crate) fn add(&mut self, value: u8)
        requires { self.old.count < 2 ^ 100 }
        ensures { (self.new.total ≡ self.old.total + value) × (self.new.count ≡ self.old.count + 1) }
    {
        self.total += u128::from(value);
        self.count += 1;
    }

    /// The average, rounded down, or a default where there is nothing.
    pub(crate) fn or(&self, default: u8) -> u8
        ensures { result ≡ (if self.now.count == 0 then default else self.now.total / self.now.count) }
    {
        if self.count == 0 {
            return default;
        }
        (self.total / self.count) as u8
    }
}
