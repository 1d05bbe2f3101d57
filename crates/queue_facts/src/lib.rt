// What every queue of a name keeps: what is counted of it, and its shape.
//
// Definitions and their laws alone, for what the queues of all databases keep as requests are asked, connections close and
// upgrades, deletions and transactions end. `desk_facts` tells from them what every desk keeps.
#![tactic(auto)]

mod laws_of_queues;

pub use laws_of_queues::shape_laws;
