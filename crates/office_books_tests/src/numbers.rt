//! Numbers that look random, and are the same in each run.

ghost use Rattle.std.specs.Prelude.{◌<◌};

/// Numbers from a seed.
#[derive(Drop)]
pub struct Numbers(pub u64);

impl Numbers {
    pub fn below(&mut self, end: u64) -> u64
        requires { 0 < end }
        ensures { result < end }
    {
        self.0 = self
            .0
            .wrapping_mul(6_364_136_223_846_793_005)
            .wrapping_add(1_442_695_040_888_963_407);
        (self.0 >> 33) % end
    }
}
