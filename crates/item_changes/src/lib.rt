// What a change does to the databases, and which changes a scope allows.
//
// There is no code here but definitions and their laws, which every layer from transactions to recovery cites: the databases
// as finite maps by name, each change with what it needs and does, and scopes. The laws of scopes say that transactions
// whose scopes don't conflict can't tell which of them came first.
#![tactic(auto)]

mod laws_of_changes;
mod laws_of_scopes;

pub use laws_of_changes::{change_laws, condition_laws};
pub use laws_of_scopes::scope_laws;
pub use object_stores::{StoreError, StoreVersion};
