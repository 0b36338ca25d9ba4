//! Numbers that are drawn one after another.
ghost use Rattle.std.specs.Prelude.{◌≡◌};
ghost use Rattle.sn_gen.specs.Generated.{drawn, next_number};

const FACTOR: u64 = 6364136223846793005;

const STEP: u64 = 1442695040888963407;

/// A generator of numbers, which depend on its first number alone.
#[derive(Drop)]
pub struct Draws {
    pub number: u64,
}

impl Draws {
    /// Draws the next number, of 31 bits.
    #[tactic(auto, using(crate::proofs::DrawLemmas::next_is))]
    pub fn draw(&mut self) -> u64
        ensures value { result ≡ drawn (next_number self.old.number) }
        ensures after { self.new.number ≡ next_number self.old.number }
    {
        self.number = self.number.wrapping_mul(FACTOR).wrapping_add(STEP);
        self.number >> 33
    }
}
