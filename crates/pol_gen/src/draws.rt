//! The numbers of the generator.
ghost use Rattle.std.specs.Prelude.{◌≡◌, ◌<◌, ◌/◌, ◌%◌, ◌^◌};
ghost use Rattle.pol_gen.specs.Draws.{next};

/// A generator, by the number that it has.
#[derive(Drop)]
pub(crate) struct Draws {
    pub(crate) x: u64,
}

impl Draws {
    /// The next draw, below the bound.
    pub(crate) fn draw(&mut self, bound: u64) -> u64
        requires { 0 < bound }
        ensures next { self.new.x ≡ next self.old.x }
        ensures drawn { result ≡ self.new.x / 2 ^ 33 % bound }
        ensures below { result < bound }
    {
        self.x = self
            .x
            .wrapping_mul(6_364_136_223_846_793_005)
            .wrapping_add(1_442_695_040_888_963_407);
        (self.x >> 33) % bound
    }
}
