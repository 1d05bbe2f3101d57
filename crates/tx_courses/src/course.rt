// All of a running transaction but its front.
ghost use Rattle.std.specs.Prelude.{◌≡◌, ◌+◌, nat_le, false, length, OnOk, OnErr};
ghost use Rattle.list_machine.specs.declared.limits.TheConstants.{GREATEST_REQUEST_COUNT, GREATEST_VALUE_BYTES};
ghost use Rattle.idb_calls.specs.declared.traces.TheConstants.{GREATEST_DELTA_COUNT};
ghost use Rattle.item_changes.specs.Items.{stores_in};
ghost use Rattle.idb_databases.specs.Stores.{AreStores};
ghost use Rattle.tx_courses.specs.Courses.{live_in, restored, course_opened, is_past};

use crate::parts::CourseParts;
use idb_calls::{Deltas, GREATEST_DELTA_COUNT};
use idb_keys::Mode;
use idb_schema::Schema;
use index_tables::Tables;
use list_machine::{GREATEST_REQUEST_COUNT, GREATEST_VALUE_BYTES};
use live_stores::LiveStores;
use std::alloc::Global;
use std::marker::Model;

/// All of a running transaction but its front. Contracts see its schema, as the entries that have run left it, its database before it
/// and now, its changes in the order in which they took effect, and how many requests have run and how many bytes of values these
/// stored. No call but `new` changes the database before.
#[derive(Drop)]
pub struct Course<T: Tables> {
    pub(crate) alloc: Global,
    pub(crate) schema: Schema,
    pub(crate) stores: LiveStores<T>,
    pub(crate) changes: Deltas,
    requests: u32,
    bytes: u64,
}

impl<T: Tables> Model for Course<T> {
    ghost use Rattle.std.specs.Coded.{codes};
    ghost use Rattle.clone_values.specs.Tree.{tree_code};
    ghost use Rattle.clone_values.specs.KeyTree.{key_code};
    ghost use Rattle.indexed_records.specs.Contents.{records_code};
    ghost use Rattle.idb_databases.specs.Items.{database_code};
    ghost use Rattle.tx_courses.specs.Courses.{CourseData};

    ghost Value = { CourseData };

    ghost coded = { Prim.hlevel (
      codes,
      key_code,
      tree_code,
      database_code (Prim.hlevel
          (codes, records_code)),
    ) };

    ghost view = { λ a. record {
      schema = a.schema;
      before = a.stores.before;
      database = a.stores.database;
      changes = a.changes;
      requests = a.requests;
      bytes = a.bytes;
    } };
}

impl<T: Tables> Course<T> {
    /// The transaction of this mode that begins on these stores, with the schema with which its front was made and the changes with
    /// which it begins, as `opening_changes` gives them. An upgrade raises the version of its database to that of the schema. It
    /// takes no memory.
    pub fn new(
        alloc: Global,
        mode: Mode,
        schema: Schema,
        stores: LiveStores<T>,
        changes: Deltas,
    ) -> Course<T>
        ensures { result ≡ course_opened mode schema stores changes }
    {
        let mut stores = stores;
        match mode {
            Mode::ReadOnly => {}
            Mode::ReadWrite => {}
            Mode::VersionChange => stores.raise_version(schema.version()),
        }
        Course {
            alloc,
            schema,
            stores,
            changes,
            requests: 0,
            bytes: 0,
        }
    }

    /// The allocator of what it stores.
    pub fn alloc(&self) -> Global {
        self.alloc
    }

    /// The schema as the entries that have run left it.
    pub fn schema(&self) -> &Schema
        ensures { result.now ≡ self.now.schema }
    {
        &self.schema
    }

    /// Each store is as the standard asks, at every moment. It does nothing.
    pub fn stand_sound(&self)
        ensures { AreStores (stores_in self.now.database) }
    {
        self.stores.stand_sound();
    }

    /// The database before is back, and no change is left. It takes no memory.
    pub fn restore(&mut self)
        ensures { self.new ≡ restored self.old }
    {
        self.stores.restore();
        self.changes = Deltas::new(self.alloc);
    }

    /// The schema, the stores with the database before and now, and the changes. It takes no memory.
    pub fn into_parts(self) -> CourseParts<T>
        ensures schema { result.schema ≡ self.schema }
        ensures stores { result.stores ≡ live_in self }
        ensures changes { result.changes ≡ self.changes }
    {
        let Course {
            schema,
            stores,
            changes,
            ..
        } = self;
        CourseParts {
            schema,
            stores,
            changes,
        }
    }

    /// Whether so many requests, bytes of values and changes more would pass a limit.
    pub fn is_past(&self, requests: u32, bytes: u64, changes: usize) -> bool
        ensures { result ≡ is_past self.now requests bytes changes }
    {
        !(self.fits_requests(requests) && (self.fits_bytes(bytes) && self.fits_changes(changes)))
    }

    /// Whether no request more may run.
    pub fn is_full(&self) -> bool
        ensures { result ≡ is_past self.now 1 0 0 }
    {
        self.is_past(1, 0, 0)
    }

    /// Whether so many requests more may run.
    fn fits_requests(&self, more: u32) -> bool
        ensures { result ≡ nat_le (self.now.requests + more) GREATEST_REQUEST_COUNT }
    {
        self.requests as u64 + more as u64 <= GREATEST_REQUEST_COUNT as u64
    }

    /// Whether so many bytes of values more may be stored.
    fn fits_bytes(&self, more: u64) -> bool
        ensures { result ≡ nat_le (self.now.bytes + more) GREATEST_VALUE_BYTES }
    {
        match self.bytes.checked_add(more) {
            Some(sum) => sum <= GREATEST_VALUE_BYTES,
            None => false,
        }
    }

    /// Whether so many changes more may be made.
    fn fits_changes(&self, more: usize) -> bool
        ensures { result ≡ nat_le (length self.now.changes + more) GREATEST_DELTA_COUNT }
    {
        match self.changes.len().checked_add(more) {
            Some(sum) => sum <= GREATEST_DELTA_COUNT,
            None => false,
        }
    }

    /// A request more has run, and stored so many bytes of values.
    pub fn count(&mut self, bytes: u64)
        requires { is_past self.old 1 bytes 0 ≡ false }
        ensures { self.new ≡ record self.old {
          requests = self.old.requests + 1;
          bytes = self.old.bytes + bytes;
        } }
    {
        self.requests += 1;
        self.bytes += bytes;
    }
}
