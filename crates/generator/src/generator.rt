//! A linear congruential generator.
ghost use Rattle.std.specs.Prelude.{◌≡◌, ◌<◌};
ghost use Rattle.generator.specs.Generator.{draw, next_state};

/// Numbers that look random, by a linear congruence modulo 2^31.
#[derive(Drop)]
pub(crate) struct Generator {
    state: u32,
    ghost small: { state < 2147483648 },
}

impl Generator {
    /// The numbers of this seed, which is below 2^31.
    pub(crate) fn new(seed: u32) -> Generator
        requires { seed < 2147483648 }
        ensures { result.state ≡ seed }
    {
        Generator { state: seed }
    }

    /// The next number: the upper 15 bits of the next state.
    pub(crate) fn draw(&mut self) -> u32
        ensures drawn { result ≡ draw self.old.state }
        ensures state { self.new.state ≡ next_state self.old.state }
    {
        let next = (u64::from(self.state) * 1_103_515_245 + 12_345) % 2_147_483_648;
        self.state = next as u32;
        self.state / 65_536
    }
}
