// Key generators (Indexed Database API 3.0, "key generators").
ghost use Rattle.std.specs.Prelude.{◌≡◌, ℕ, ◌+◌, ◌<◌, ◌≤◌, ◌↔◌, pos, List, IsErr, IfOk, OnOk, OnErr};
ghost use Rattle.clone_values.specs.KeyTree.{KeyTree, number};
ghost use Rattle.clone_values.specs.View.{key_tree_of};
ghost use Rattle.key_generators.specs.Generators.{last_number, IsGenerator, IsExhausted, after_key, after_keys};

use clone_values::Key;
use idb_base::GREATEST_INT;
use std::marker::Model;

/// The greatest number that a generator gives, 2^53.
pub const LAST_NUMBER: u64 = GREATEST_INT as u64;

/// The generator has given or passed its last number, 2^53.
#[derive(Clone, Copy, Debug, PartialEq, Eq)]
pub struct Exhausted;

/// A key generator; contracts see its current number, the one that it gives next.
#[derive(Debug, Drop)]
pub struct Generator {
    current: u64,
}

impl Model for Generator {
    ghost use Rattle.std.specs.Prelude.{ℕ};
    ghost use Rattle.key_generators.specs.Generators.{IsGenerator};

    ghost Value = { ℕ };

    ghost view = { λ a. a.current };

    ghost invariant = { λ a. IsGenerator a.current };
}

impl Generator {
    /// The generator of a new object store.
    pub fn new() -> Generator
        ensures { result ≡ 1 }
    {
        Generator { current: 1 }
    }

    /// The current number, from 1 to 2^53 + 1.
    pub fn current(&self) -> u64
        ensures value { result ≡ self.now }
        ensures in_range { IsGenerator self.now }
    {
        self.current
    }

    /// Gives the current number, from 1 to 2^53, and goes on to the next.
    pub fn generate(&mut self) -> Result<u64, Exhausted>
        ensures given { IfOk result (λ n. n ≡ self.old) }
        ensures next { OnOk result (self.new ≡ self.old + 1) }
        ensures in_range { IfOk result (λ n. (1 ≤ n) × (n ≤ last_number)) }
        ensures exhausted { IsErr result ↔ IsExhausted self.old }
        ensures unchanged { OnErr result (self.new ≡ self.old) }
    {
        let current = self.current;
        if current > LAST_NUMBER {
            return Err(Exhausted);
        }
        self.current = current + 1;
        Ok(current)
    }

    /// Takes note of the explicit key of a stored record: the generator goes past a number that is not less than the
    /// current one, and past its last number at most.
    pub fn note_key(&mut self, key: &Key)
        ensures { self.new ≡ after_key self.old (key_tree_of key.now) }
    {
        self.current = after_key(self.current, key);
    }

    /// Sets the current number, as it was before a change that is undone.
    pub fn restore(&mut self, current: u64)
        requires { IsGenerator current }
        ensures { self.new ≡ current }
    {
        self.current = current;
    }
}

fn after_key(current: u64, key: &Key) -> u64
    requires { IsGenerator current }
    ensures value { result ≡ after_key current (key_tree_of key.now) }
    ensures in_range { IsGenerator result }
{
    match key {
        Key::Number(n) if *n >= 0 => {
            let noted = (*n as u64).min(LAST_NUMBER);
            if noted >= current { noted + 1 } else { current }
        }
        _ => current,
    }
}

/// The laws of generators: the current number never falls and stays in its range, each number that is noted is passed, so
/// that a generated number is greater than all numbers generated before, whatever keys are stored between, and greater
/// than the numbers stored before, unless the generator is exhausted.
pub fn generator_laws()
    ensures never_falls { (current : ℕ) (key : KeyTree) → current ≤ after_key current key }
    ensures in_range { (current : ℕ) (key : KeyTree)
        → IsGenerator current → IsGenerator (after_key current key) }
    ensures passed { (current n : ℕ) → n ≤ last_number → n < after_key current (number (pos n)) }
    ensures rises { (current : ℕ) (keys : List KeyTree) → current < after_keys (current + 1) keys }
    ensures spent { (current n : ℕ)
        → last_number ≤ n → IsExhausted (after_key current (number (pos n))) }
{}
