// The opens and deletes of a client.
ghost use Rattle.std.specs.Prelude.{◌≡◌, true, IfOk};
ghost use Rattle.client_seats.specs.ClientStates.{OpenAsked};

use clone_values::Text;
use idb_base::NoMemory;
use script_runs::Env;
use script_statements::BlockPlace;
use std::marker::Model;

/// An open or a delete, as its statement asked it.
#[derive(Drop)]
pub struct KeptOpen {
    pub(crate) name: Text,
    pub(crate) is_delete: bool,
    pub(crate) upgrade: Option<BlockPlace>,
    pub(crate) blocked: Option<BlockPlace>,
    pub(crate) success: Option<BlockPlace>,
    pub(crate) error: Option<BlockPlace>,
    pub(crate) version_change: Option<BlockPlace>,
    pub(crate) closed: Option<BlockPlace>,
    pub(crate) env: Env,
    pub(crate) is_given: bool,
}

impl Model for KeptOpen {
    ghost use Rattle.client_seats.specs.ClientStates.{OpenAsked};
    ghost use Rattle.client_parts.specs.Codes.{open_code};

    ghost Value = { OpenAsked };

    ghost coded = { open_code };

    ghost view = { λ a. record {
      name = a.name;
      is_delete = a.is_delete;
      upgrade = a.upgrade;
      blocked = a.blocked;
      success = a.success;
      error = a.error;
      version_change = a.version_change;
      closed = a.closed;
      env = a.env;
      is_given = a.is_given;
    } };
}

impl KeptOpen {
    /// The database's name.
    pub fn name(&self) -> &Text
        ensures { result.now ≡ self.now.name }
    {
        &self.name
    }

    /// Whether it is a delete.
    pub fn is_delete(&self) -> bool
        ensures { result ≡ self.now.is_delete }
    {
        self.is_delete
    }

    /// Whether its connection is the client's.
    pub fn is_given(&self) -> bool
        ensures { result ≡ self.now.is_given }
    {
        self.is_given
    }

    /// The environment as it was when its statement ran.
    pub fn env(&self) -> Result<Env, NoMemory>
        ensures { IfOk result (λ env. env ≡ self.now.env) }
    {
        self.env.copy()
    }
}
