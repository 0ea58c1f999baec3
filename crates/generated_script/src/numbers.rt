//! The two numbers that make a script.

ghost use Rattle.std.specs.Prelude.{◌≡◌, ℕ, ◌≤◌, Some, IfSome, decimal};
ghost use Rattle.generated_script.specs.Numbers.{ScriptNumbers, WriteNumbers};
ghost use Rattle.generated_script.specs.declared.numbers.TheConstants.{MOST_ROUNDS, MOST_SEED};

use listing::read_decimal;
use std::marker::Model;

/// The most rounds of a script.
pub const MOST_ROUNDS: u32 = 1_000_000;

/// The greatest number that the draws begin with.
pub const MOST_SEED: u32 = 2_147_483_647;

/// How many rounds a script has, from 1 to 1,000,000, and the number that its draws begin with, from 0 to 2,147,483,647.
#[derive(Clone, Copy, Debug, PartialEq, Eq)]
pub struct Numbers {
    rounds: u32,
    seed: u32,
}

impl Model for Numbers {
    ghost use Rattle.generated_script.specs.Numbers.{ScriptNumbers, AreScriptNumbers};

    ghost Value = { ScriptNumbers };

    ghost view = { λ n. record { rounds = n.rounds; seed = n.seed } };

    ghost invariant = { λ n. AreScriptNumbers (record { rounds = n.rounds; seed = n.seed }) };

    ghost inverse = { λ n. record { rounds = n.rounds; seed = n.seed } };
}

impl Numbers {
    /// The numbers that two words write, each in its range, in decimal digits without leading zeros. `None` where a word
    /// writes no such number. It takes no memory.
    pub fn read(rounds: &[u8], seed: &[u8]) -> Option<Numbers>
        ensures read { IfSome result (λ numbers. WriteNumbers rounds.now seed.now numbers) }
        ensures complete { (numbers : ScriptNumbers) → WriteNumbers rounds.now seed.now numbers → result ≡ Some numbers }
    {
        let Some(rounds) = number_within(rounds, 1, MOST_ROUNDS) else {
            return None;
        };
        let Some(seed) = number_within(seed, 0, MOST_SEED) else {
            return None;
        };
        Some(Numbers { rounds, seed })
    }

    /// How many rounds the script has.
    pub fn rounds(&self) -> u32
        ensures value { result ≡ self.now.rounds }
        ensures some { 1 ≤ result }
        ensures most { result ≤ MOST_ROUNDS }
    {
        self.rounds
    }

    /// The number that the draws begin with.
    pub fn seed(&self) -> u32
        ensures value { result ≡ self.now.seed }
        ensures most { result ≤ MOST_SEED }
    {
        self.seed
    }
}

// the number from `least` to `most` that the text writes in decimal digits, without leading zeros
fn number_within(text: &[u8], least: u32, most: u32) -> Option<u32>
    ensures read { IfSome result (λ n. (text.now ≡ decimal n) × (least ≤ n) × (n ≤ most)) }
    ensures complete { (n : ℕ) → text.now ≡ decimal n → least ≤ n → n ≤ most → result ≡ Some n }
{
    match read_decimal(text) {
        Some(number) if number >= least as u64 && number <= most as u64 => Some(number as u32),
        _ => None,
    }
}
