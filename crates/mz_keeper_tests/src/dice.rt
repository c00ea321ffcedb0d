//! Numbers that look random, the same in each run.
ghost use Rattle.std.specs.Prelude.{◌<◌};
ghost use Rattle.mz_base.specs.Limits.{IsFrom};

#[derive(Drop)]
pub struct Dice(u64);

impl Dice {
    pub fn new() -> Dice {
        Dice(1)
    }

    pub fn below(&mut self, n: u64) -> u64
        requires { 0 < n }
        ensures { result < n }
    {
        self.0 = self
            .0
            .wrapping_mul(6_364_136_223_846_793_005)
            .wrapping_add(1_442_695_040_888_963_407);
        (self.0 >> 33) % n
    }

    /// The quanta of a request, which are mostly few.
    pub fn quanta(&mut self) -> u64
        ensures { IsFrom 1 64 result }
    {
        if self.below(8) == 0 {
            1 + self.below(64)
        } else {
            1 + self.below(9)
        }
    }
}
