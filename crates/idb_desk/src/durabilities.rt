// Which transactions were created relaxed.
ghost use Rattle.std.specs.Prelude.{◌≡◌, ℕ, List, true, false, [], ◌∷◌, ◌++◌, IfOk, OnErr};
ghost use Rattle.desk_steps.specs.DeskRoom.{wants_memory};
ghost use Rattle.desk_steps.specs.Durabilities.{relaxed_of, is_relaxed_in, AreRelaxed, IsAddedTo, IsTakenBack};

use desk_steps::DeskStep;
use idb_base::NoMemory;
use idb_keys::Durability;
use std::collections::BTreeSet;

/// The number of the transaction that a step creates relaxed.
fn relaxed_of(step: &DeskStep) -> Option<u64>
    ensures { result ≡ relaxed_of step.now }
{
    match step {
        DeskStep::Creates {
            number,
            durability,
            ..
        } => match durability {
            Durability::Relaxed => Some(*number),
            Durability::Strict => None,
        },
        DeskStep::Asks { .. }
        | DeskStep::Takes { .. }
        | DeskStep::Handles { .. }
        | DeskStep::Closes { .. }
        | DeskStep::Starts { .. }
        | DeskStep::Leaves { .. }
        | DeskStep::Faults => None,
    }
}

/// Notes a step that is to be made; the number that was added, if one was.
pub(crate) fn note_relaxed(
    numbers: &mut BTreeSet<u64>,
    step: &DeskStep,
) -> Result<Option<u64>, NoMemory>
    ensures noted { (order : List DeskStep) → AreRelaxed numbers.old order
        → IfOk result (λ _. AreRelaxed numbers.new (order ++ step.now ∷ [])) }
    ensures added { IfOk result (λ added. IsAddedTo numbers.old added numbers.new) }
    ensures same { OnErr result ((n : ℕ) → is_relaxed_in numbers.new n ≡ is_relaxed_in numbers.old n) }
    ensures no_memory { OnErr result (wants_memory step.now ≡ true) }
{
    match relaxed_of(step) {
        Some(number) => {
            if numbers.insert(number)? {
                Ok(Some(number))
            } else {
                Ok(None)
            }
        }
        None => Ok(None),
    }
}

/// Takes back what was added for a step that wasn't made. It takes no memory.
pub(crate) fn settle(numbers: &mut BTreeSet<u64>, added: Option<u64>, made: bool)
    ensures kept { made ≡ true → (n : ℕ) → is_relaxed_in numbers.new n ≡ is_relaxed_in numbers.old n }
    ensures taken { made ≡ false → IsTakenBack numbers.old added numbers.new }
{
    if !made {
        if let Some(number) = added {
            numbers.remove(&number);
        }
    }
}
