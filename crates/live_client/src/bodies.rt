// The body of an upgrade, so far.
ghost use Rattle.std.specs.Prelude.{◌≡◌, Some, IfOk, IfErr, OnOk, OnErr};
ghost use Rattle.request_lists.specs.Refusals.{refusal_of, refusal_of_change, refusal_of_commit, refusal_of_abort};
ghost use Rattle.request_lists.specs.Placing.{IsCall, IsRefusal, after_call, after_schema_call, after_commit, after_abort};
ghost use Rattle.live_client.specs.Bodies.{new_body, with_body_front, IsBegun};

use crate::plans::Planned;
use clone_values::{Text, Texts};
use idb_base::NoMemory;
use idb_calls::Call;
use idb_keys::{ErrorName, Mode};
use idb_schema::{Schema, SchemaCall, StoreInfos};
use request_lists::{Refusal, TxFront};
use std::alloc::Global;
use std::marker::Model;

/// The body of an upgrade to version 2 of a database without stores, so far. Contracts see the schema with which its front was made,
/// which has no stores, and the front.
#[derive(Drop)]
pub(crate) struct Body {
    schema: Schema,
    front: TxFront<Planned>,
}

impl Model for Body {
    ghost use Rattle.std.specs.Coded.{codes};
    ghost use Rattle.clone_values.specs.Tree.{tree_code};
    ghost use Rattle.clone_values.specs.KeyTree.{key_code};
    ghost use Rattle.idb_keys.specs.KeyRange.{range_code};
    ghost use Rattle.live_client.specs.Plans.{plan_code};
    ghost use Rattle.live_client.specs.Bodies.{BodyData, IsBegun};

    ghost Value = { BodyData };

    ghost coded = { Prim.hlevel (codes, range_code, key_code, tree_code, plan_code) };

    ghost view = { λ a. record { schema = a.schema; front = a.front } };

    ghost invariant = { λ a. IsBegun a.schema a.front };
}

impl Body {
    /// The body of an upgrade of the database of this name, which has called nothing yet.
    pub(crate) fn new(alloc: Global, name: Text) -> Result<Body, NoMemory>
        ensures { IfOk result (λ body. body ≡ new_body name) }
    {
        let schema = Schema::new(alloc, name, 2, StoreInfos::new(alloc))?;
        let copy = schema.copy(alloc)?;
        let front = TxFront::new(alloc, Mode::VersionChange, copy, Texts::new(alloc));
        Ok(Body { schema, front })
    }

    /// The front, of which is asked what names a store.
    pub(crate) fn front(&self) -> &TxFront<Planned>
        ensures { result.now ≡ self.now.front }
    {
        &self.front
    }

    /// A call that changes the schema.
    pub(crate) fn change(&mut self, call: SchemaCall) -> Result<(), Refusal>
        ensures changed { OnOk result
            (self.new ≡ with_body_front self.old (after_schema_call call self.old.front)) }
        ensures refused { IfErr result (λ r. IsRefusal r (refusal_of_change call self.old.front)) }
        ensures unchanged { OnErr result (self.new ≡ self.old) }
    {
        self.front.schema(call)
    }

    /// Places a request.
    pub(crate) fn ask(&mut self, call: Call, handler: Planned) -> Result<(), Refusal>
        requires { IsCall call }
        ensures placed { OnOk result
            (self.new ≡ with_body_front self.old (after_call call handler self.old.front)) }
        ensures refused { IfErr result (λ r. IsRefusal r (refusal_of call self.old.front)) }
        ensures unchanged { OnErr result (self.new ≡ self.old) }
    {
        match self.front.place(call, handler) {
            Ok(_) => Ok(()),
            Err(refused) => Err(refused.refusal),
        }
    }

    pub(crate) fn commit(&mut self) -> Result<(), ErrorName>
        ensures committing { OnOk result
            (self.new ≡ with_body_front self.old (after_commit self.old.front)) }
        ensures refused { IfErr result (λ e. refusal_of_commit self.old.front ≡ Some e) }
        ensures unchanged { OnErr result (self.new ≡ self.old) }
    {
        self.front.commit()
    }

    pub(crate) fn abort(&mut self) -> Result<(), ErrorName>
        ensures aborted { OnOk result
            (self.new ≡ with_body_front self.old (after_abort self.old.front)) }
        ensures refused { IfErr result (λ e. refusal_of_abort self.old.front ≡ Some e) }
        ensures unchanged { OnErr result (self.new ≡ self.old) }
    {
        self.front.abort()
    }

    /// Its schema and its front.
    pub(crate) fn into_parts(self) -> (Schema, TxFront<Planned>)
        ensures schema { result.0 ≡ self.schema }
        ensures front { result.1 ≡ self.front }
        ensures begun { IsBegun result.0 result.1 }
    {
        let Body { schema, front } = self;
        (schema, front)
    }
}
