// The commits that wait for the end of their batch, as the bytes of that batch.
ghost use Rattle.std.specs.Prelude.{◌≡◌, ◌↔◌, ◌+◌, ◌<◌, ◌≤◌, ◌++◌, ◌∷◌, [], ℕ, List, length, drop, vec_len, IsTrue, OnOk, OnErr, IfOk};
ghost use Rattle.std.specs.List.{AllByRecursion};
ghost use Rattle.idb_base.specs.Lists.{IsWithinLimit};
ghost use Rattle.value_bytes.specs.Spelling.{count_bytes};
ghost use Rattle.record_bytes.specs.declared.records.LogRecord.{LogRecord};
ghost use Rattle.record_bytes.specs.Loggable.{HasLoggableParts};
ghost use Rattle.record_bytes.specs.Records.{recorded, AreRecords};
ghost use Rattle.record_bytes.specs.Spelling.{batch_spelling};

use gate_log::Frame;
use idb_base::NoMemory;
use idb_calls::TxTrace;
use record_bytes::write_record;
use std::alloc::Global;
use std::marker::Model;
use std::mem;

/// The bytes in front of the records: eight for the frame, and four for their count.
pub(crate) const ROOM: usize = 12;

/// Records, spelled behind room for what stands in front of them in a batch. Contracts see it as the list of them.
#[derive(Drop)]
pub(crate) struct Waiting {
    alloc: Global,
    bytes: Vec<u8>,
    count: usize,
}

impl Model for Waiting {
    ghost use Rattle.std.specs.Prelude.{List};
    ghost use Rattle.std.specs.Coded.{codes};
    ghost use Rattle.clone_values.specs.Tree.{tree_code};
    ghost use Rattle.clone_values.specs.KeyTree.{key_code};
    ghost use Rattle.record_bytes.specs.declared.records.LogRecord.{LogRecord};

    ghost Value = { List LogRecord };

    ghost coded = { Prim.hlevel (codes, key_code, tree_code) };

    ghost use Rattle.tx_book.specs.Waiting.{waiting_in, AreSpelled};

    ghost view = { λ w. waiting_in w.count w.bytes.items };

    ghost invariant = { λ w. AreSpelled w.count w.bytes.items (waiting_in w.count w.bytes.items) };
}

impl Waiting {
    ghost use Rattle.tx_book.specs.Ending.{front_of};

    pub(crate) fn new(alloc: Global) -> Waiting
        ensures { result ≡ [] }
    {
        Waiting {
            alloc,
            bytes: Vec::new(alloc),
            count: 0,
        }
    }

    /// How many there are.
    pub(crate) fn len(&self) -> usize
        ensures { result ≡ length self.now }
    {
        self.count
    }

    /// How many bytes their batch has.
    pub(crate) fn payload_len(&self) -> usize
        ensures { result ≡ length (batch_spelling self.now) }
    {
        if self.bytes.len() < ROOM {
            4
        } else {
            self.bytes.len() - 8
        }
    }

    /// Puts the record of a transaction at the end.
    pub(crate) fn push(&mut self, trace: &TxTrace) -> Result<(), NoMemory>
        requires few { length self.old < 64 }
        requires count { IsWithinLimit trace.now.deltas }
        requires parts { AllByRecursion HasLoggableParts trace.now.deltas }
        ensures pushed { OnOk result (self.new ≡ self.old ++ recorded trace.now ∷ []) }
        ensures fits { OnOk result (AreRecords self.new) }
        ensures unchanged { OnErr result (self.new ≡ self.old) }
    {
        make_room(&mut self.bytes)?;
        write_record(&mut self.bytes, trace)?;
        self.count += 1;
        Ok(())
    }

    /// Takes the last one away; the batch of those before it has so many bytes.
    pub(crate) fn take_back(&mut self, payload_len: usize)
        requires some { 1 ≤ length self.old }
        requires payload { payload_len ≡ length (batch_spelling (front_of self.old)) }
        ensures { self.new ≡ front_of self.old }
    {
        self.bytes.truncate(payload_len + 8);
        self.count -= 1;
    }

    /// The batch of all of them, in the memory in which they were spelled.
    pub(crate) fn into_frame(&mut self) -> Result<Frame, NoMemory>
        requires some { 1 ≤ length self.old }
        ensures framed { IfOk result (λ frame. frame ≡ batch_spelling self.old) }
        ensures fits { OnOk result (AreRecords self.old) }
        ensures emptied { OnOk result (self.new ≡ []) }
        ensures unchanged { OnErr result (self.new ≡ self.old) }
    {
        put_count_in_front(&mut self.bytes, self.count);
        let bytes = mem::replace(&mut self.bytes, Vec::new(self.alloc));
        match Frame::from_vec(bytes) {
            Ok(frame) => {
                self.count = 0;
                Ok(frame)
            }
            Err(bytes) => {
                self.bytes = bytes;
                Err(NoMemory)
            }
        }
    }

    /// Goes on in the memory of a batch that was written.
    pub(crate) fn reuse(&mut self, frame: Frame)
        requires { self.old ≡ [] }
        ensures { self.new ≡ [] }
    {
        let mut bytes = frame.into_vec();
        bytes.truncate(ROOM);
        self.bytes = bytes;
    }
}

// Room in front of the records, where there is none yet.
fn make_room(bytes: &mut Vec<u8>) -> Result<(), NoMemory>
    ensures room { OnOk result (ROOM ≤ vec_len bytes.new) }
    ensures longer { vec_len bytes.old ≤ vec_len bytes.new }
    ensures same { drop ROOM bytes.new.items ≡ drop ROOM bytes.old.items }
{
    if bytes.len() < ROOM {
        bytes.extend_from_slice(&[0; ROOM])?;
        bytes.truncate(ROOM);
    }
    Ok(())
}

// The count of the records, right before them.
fn put_count_in_front(bytes: &mut Vec<u8>, count: usize)
    requires room { ROOM ≤ vec_len bytes.old }
    requires few { count ≤ 64 }
    ensures counted { drop 8 bytes.new.items ≡ count_bytes count ++ drop ROOM bytes.old.items }
    ensures same { drop ROOM bytes.new.items ≡ drop ROOM bytes.old.items }
    ensures length { vec_len bytes.new ≡ vec_len bytes.old }
{
    bytes[8..ROOM].copy_from_slice(&(count as u32).to_be_bytes());
}
