// Calls that are to be placed.
ghost use Rattle.std.specs.Prelude.{◌≡◌, ◌∷◌, ◌++◌, [], drop, slice_get, IfSome, OnOk};
ghost use Rattle.request_lists.specs.Placing.{IsCall};

use idb_base::NoMemory;
use idb_calls::Call;
use std::alloc::Global;
use std::collections::VecDeque;
use std::marker::Model;

/// Calls that are to be placed, in order, each well formed; beside each stands what its handler is made of.
#[derive(Drop)]
pub(crate) struct Calls<X> {
    items: VecDeque<(Call, X)>,
}

impl<X> Model for Calls<X> {
    ghost use Rattle.std.specs.Prelude.{List};
    ghost use Rattle.std.specs.List.{AllByRecursion};
    ghost use Rattle.std.specs.Coded.{codes};
    ghost use Rattle.clone_values.specs.Tree.{tree_code};
    ghost use Rattle.idb_calls.specs.declared.calls.Call.{Call};
    ghost use Rattle.request_lists.specs.Placing.{IsCall};

    ghost Value = { List (Call × X) };

    ghost coded = { Prim.hlevel (codes, tree_code) };

    ghost view = { λ a. a.items.items };

    ghost invariant = { λ a. AllByRecursion (λ r. IsCall r.0) a.items.items };
}

impl<X: Drop> Calls<X> {
    /// No call yet; it takes no memory.
    pub(crate) fn new(alloc: Global) -> Self
        ensures { result ≡ [] }
    {
        Calls {
            items: VecDeque::new(alloc),
        }
    }

    /// One call more, the last.
    pub(crate) fn push(&mut self, call: Call, beside: X) -> Result<(), NoMemory>
        requires { IsCall call }
        ensures { OnOk result (self.new ≡ self.old ++ (call, beside) ∷ []) }
    {
        self.items.push_back((call, beside))?;
        Ok(())
    }

    /// Takes the first call.
    pub(crate) fn take(&mut self) -> Option<(Call, X)>
        ensures first { result ≡ slice_get self.old 0 }
        ensures call { IfSome result (λ r. IsCall r.0) }
        ensures left { self.new ≡ drop 1 self.old }
    {
        self.items.pop_front()
    }
}
