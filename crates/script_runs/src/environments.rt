// What goes with every run of a block.
ghost use Rattle.std.specs.Prelude.{◌≡◌, [], None, IfOk, OnOk, OnErr};
ghost use Rattle.clone_values.specs.View.{tree_of};
ghost use Rattle.script_runs.specs.Words.{with_variable, variable_in};

use clone_values::{Props, Text, Value};
use idb_base::{GREATEST_LENGTH, NoMemory};
use std::alloc::Global;

/// The environment of a run. Copies share what it holds.
#[derive(Drop)]
pub struct Env {
    /// The variables that are set, by rising names.
    pub variables: Props,
    /// The connection at hand, named by its open.
    pub connection: Option<u32>,
    /// The cursor at hand, named by the request that opened it.
    pub cursor: Option<u32>,
}

impl Env {
    /// Nothing is set and nothing is at hand. It takes no memory.
    pub fn new(alloc: Global) -> Env
        ensures variables { result.variables ≡ [] }
        ensures connection { result.connection ≡ None }
        ensures cursor { result.cursor ≡ None }
    {
        Env {
            variables: Props::new(alloc),
            connection: None,
            cursor: None,
        }
    }

    /// An equal environment, which shares the variables.
    pub fn copy(&self) -> Result<Env, NoMemory>
        ensures { IfOk result (λ env. env ≡ self.now) }
    {
        Ok(Env {
            variables: self.variables.clone()?,
            connection: self.connection,
            cursor: self.cursor,
        })
    }

    /// Sets a variable.
    pub fn set(&mut self, name: Text, value: Value) -> Result<(), NoMemory>
        ensures set { OnOk result (self.new ≡ with_variable self.old name (tree_of value)) }
        ensures unchanged { OnErr result (self.new ≡ self.old) }
    {
        if self.variables.len() >= GREATEST_LENGTH {
            return Err(NoMemory);
        }
        self.variables.set(name, value)
    }

    /// What the variable holds, Undefined where it isn't set.
    pub fn variable(&self, name: &Text) -> Result<Value, NoMemory>
        ensures { IfOk result (λ v. tree_of v ≡ variable_in self.now name.now) }
    {
        match self.variables.get(name) {
            Some(value) => Ok(value.clone()?),
            None => Ok(Value::Undefined),
        }
    }
}

/// Where a run is: its environment, and how many statements it has run.
#[derive(Drop)]
pub struct At {
    pub env: Env,
    pub count: u32,
}
