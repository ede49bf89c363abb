//! One coordinate of a line.

ghost use Rattle.std.specs.Prelude.{◌≡◌, ◌+◌, ◌*◌, ◌<◌, ◌≤◌};

// A coordinate on its way from `start` to `stop` in `steps` steps: `at`, and `rest` parts towards
// the next number, of which `steps` make one.
#[derive(Drop)]
pub(crate) struct Axis {
    pub(crate) start: u32,
    pub(crate) stop: u32,
    pub(crate) steps: u32,
    pub(crate) at: u32,
    pub(crate) rest: u32,
    ghost is_part: { rest < steps },
    ghost is_far: { (stop ≤ start + steps) × (start ≤ stop + steps) },
    ghost is_small: { steps ≤ 1024 },
}

impl Axis {
    pub(crate) fn new(start: u32, stop: u32, steps: u32, rest: u32) -> Axis
        requires rest { rest < steps }
        requires far { (stop ≤ start + steps) × (start ≤ stop + steps) }
        requires small { steps ≤ 1024 }
        ensures way { (result.start ≡ start) × (result.stop ≡ stop) × (result.steps ≡ steps) }
        ensures place { (result.at ≡ start) × (result.rest ≡ rest) }
    {
        Axis {
            start,
            stop,
            steps,
            at: start,
            rest,
        }
    }

    // Goes one step on.
    pub(crate) fn step(&mut self)
        requires above { self.old.start ≤ self.old.at * self.old.steps + self.old.rest + self.old.stop }
        requires below { self.old.at ≤ 1024 }
        ensures way { (self.new.start ≡ self.old.start) × (self.new.stop ≡ self.old.stop) × (self.new.steps ≡ self.old.steps) }
        ensures moved { self.new.at * self.new.steps + self.new.rest + self.old.start ≡ self.old.at * self.old.steps + self.old.rest + self.old.stop }
    {
        if self.start <= self.stop {
            self.rise(self.stop - self.start);
        } else {
            self.fall(self.start - self.stop);
        }
    }

    fn rise(&mut self, by: u32)
        requires by { by ≤ self.old.steps }
        requires below { self.old.at ≤ 1024 }
        ensures way { (self.new.start ≡ self.old.start) × (self.new.stop ≡ self.old.stop) × (self.new.steps ≡ self.old.steps) }
        ensures moved { self.new.at * self.new.steps + self.new.rest ≡ self.old.at * self.old.steps + self.old.rest + by }
    {
        let sum = self.rest + by;
        if sum < self.steps {
            self.rest = sum;
        } else {
            self.rest = sum - self.steps;
            self.at += 1;
        }
    }

    fn fall(&mut self, by: u32)
        requires by { by ≤ self.old.steps }
        requires above { by ≤ self.old.at * self.old.steps + self.old.rest }
        ensures way { (self.new.start ≡ self.old.start) × (self.new.stop ≡ self.old.stop) × (self.new.steps ≡ self.old.steps) }
        ensures moved { self.new.at * self.new.steps + self.new.rest + by ≡ self.old.at * self.old.steps + self.old.rest }
    {
        if self.rest >= by {
            self.rest -= by;
        } else {
            self.rest += self.steps - by;
            self.at -= 1;
        }
    }
}
