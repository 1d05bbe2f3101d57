// The laws of what a desk keeps.
ghost use Rattle.std.specs.Prelude.{◌≡◌, ℕ, List, true};
ghost use Rattle.idb_schema.specs.Schemas.{SchemaData};
ghost use Rattle.desk_steps.specs.declared.stands.DrawnTx.{DrawnTx};
ghost use Rattle.desk_steps.specs.declared.stands.TxKind.TheVariants as kind;
ghost use Rattle.desk_steps.specs.declared.steps.DeskStep.{DeskStep};
ghost use Rattle.idb_desk.specs.Desks.{DeskState};
ghost use Rattle.idb_desk.specs.Refusals.{is_allowed};
ghost use Rattle.idb_desk.specs.Steps.{after, new_desk, DeskRun, desk_run, IsDeskRun};
ghost use Rattle.desk_facts.specs.Orderly.{IsOrderly};
ghost use Rattle.desk_facts.specs.Databases.{AreOpenable, IsUnfinishedOf, SeesUpgrade};
ghost use Rattle.desk_facts.specs.Owning.{HasOwn, AreAsked};

/// A desk begins orderly, over databases of different names and of versions from 1 on, and each allowed step keeps it so. In an
/// orderly desk each connection and each event is one of an open or a delete that its client asked, and of each of these one
/// thing alone stands; and while an upgrade runs, its connection sees its database, of the name and at the old version, and the
/// new one is that which was asked. What stands on the board is what was asked.
pub fn fact_laws()
    ensures opening { (schemas : List SchemaData) → AreOpenable schemas → IsOrderly (new_desk schemas) }
    ensures step { (d : DeskState) (t : DeskStep) → IsOrderly d → is_allowed d t ≡ true → IsOrderly
        (after d t) }
    ensures run { (r : DeskRun) → AreOpenable r.opening → IsDeskRun r → IsOrderly (desk_run r) }
    ensures own { (d : DeskState) → IsOrderly d → HasOwn d }
    ensures asked { (r : DeskRun) → IsDeskRun r → AreAsked (desk_run r) r.order }
    ensures upgrade_schema { (d : DeskState) (number : ℕ) (name : List ℕ) (t : DrawnTx) (new : ℕ)
        → IsOrderly d
        → IsUnfinishedOf d number name t → t.kind ≡ kind.Upgrade new → SeesUpgrade d t.who name new }
{}
