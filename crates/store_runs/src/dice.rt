// Random numbers, and the text in which differences are written.
use std::fmt::Write;
use std::process::Abort;

/// A linear congruential generator.
#[derive(Drop)]
pub struct Dice {
    seed: u64,
}

impl Dice {
    pub fn new(seed: u64) -> Dice {
        Dice { seed }
    }

    /// A number from 0 on that is less than the sides.
    pub fn roll(&mut self, sides: i64) -> i64 {
        self.seed = self
            .seed
            .wrapping_mul(6364136223846793005)
            .wrapping_add(1442695040888963407);
        ((self.seed >> 33) as i64).checked_rem(sides).unwrap_or(0)
    }

    pub fn is_one_of(&mut self, sides: i64) -> bool {
        self.roll(sides) == 0
    }
}

/// Writes three numbers.
pub fn push_three(rt: &impl Abort, text: &mut String, a: i64, b: i64, c: i64) {
    write!(text, "{a} {b} {c} ").expect(rt, "memory")
}
