// What every allowed run of the desk meets.
//
// There is no code here but laws of the desk machine: how databases move, what connections see of them, that upgrades and
// deletions run alone, and whose connections and events are. The layers above stand on these.
#![tactic(auto)]

mod laws_of_databases;
mod laws_of_facts;

pub use laws_of_databases::database_laws;
pub use laws_of_facts::fact_laws;
