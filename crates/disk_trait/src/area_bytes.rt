// One area of a disk in memory: what reads give and the picked image, each in memory that was taken at the start.
ghost use Rattle.std.specs.Prelude.{◌≡◌, ◌+◌, ◌-◌, ◌^◌, ◌≤◌, [], length, take, replicate, vec_len, vec_capacity, max, IfOk};
ghost use Rattle.disk_trait.specs.Disk.{overwritten};
ghost use Rattle.disk_trait.specs.Memory.{picked_write, picked_cut};

use crate::Image;
use std::alloc::{AllocError, Global};
use std::marker::Model;

// What reads give, and the image that the plan picks. Both have the same bytes below the place `same`, so that a sync
// and a restart copy what lies behind it alone.
#[derive(Drop)]
pub(crate) struct AreaBytes {
    reads: Vec<u8>,
    picked: Vec<u8>,
    same: usize,
    room: usize,
}

impl Model for AreaBytes {
    ghost use Rattle.disk_trait.specs.Parts.{AreaState};

    ghost Value = { AreaState };

    ghost use Rattle.disk_trait.specs.IsHeld.{IsHeld};

    ghost view = { λ a. record { reads = a.reads.items; picked = a.picked.items; room = a.room } };

    ghost invariant = { IsHeld };
}

impl AreaBytes {
    pub(crate) fn with_room(alloc: Global, room: usize) -> Result<Self, AllocError>
        ensures { IfOk result (λ a. a ≡ record { reads = []; picked = []; room = room }) }
    {
        Ok(AreaBytes {
            reads: Vec::with_capacity(alloc, room)?,
            picked: Vec::with_capacity(alloc, room)?,
            same: 0,
            room,
        })
    }

    pub(crate) fn bytes(&self) -> &[u8]
        ensures bytes { result.now ≡ self.now.reads }
        ensures within { length self.now.reads ≤ self.now.room }
    {
        &self.reads
    }

    pub(crate) fn write(&mut self, image: Image, from: usize, bytes: &[u8])
        requires reads { length self.old.reads + length bytes.now ≤ self.old.room }
        requires picked { length self.old.picked + length bytes.now ≤ self.old.room }
        ensures { self.new ≡ record self.old {
          reads = overwritten from bytes.now self.old.reads;
          picked = picked_write image from bytes.now self.old.picked;
        } }
    {
        overwrite(&mut self.reads, from, bytes);
        pick_write(&mut self.picked, image, from, bytes);
        self.same = self.same.min(from);
    }

    pub(crate) fn cut(&mut self, image: Image, len: usize)
        ensures { self.new ≡ record self.old {
          reads = take len self.old.reads;
          picked = picked_cut image len self.old.picked;
        } }
    {
        self.reads.truncate(len);
        match image {
            Image::Kept | Image::Byte(_) => self.picked.truncate(len),
            Image::Dropped => {}
        }
        self.same = self.same.min(len);
    }

    pub(crate) fn sync(&mut self)
        ensures { self.new ≡ record self.old { picked = self.old.reads } }
    {
        self.picked.truncate(self.same);
        self.picked
            .extend_from_slice(&self.reads[self.same..])
            .unwrap();
        self.same = self.reads.len();
    }

    pub(crate) fn restart(&mut self)
        ensures { self.new ≡ record self.old { reads = self.old.picked } }
    {
        self.reads.truncate(self.same);
        self.reads
            .extend_from_slice(&self.picked[self.same..])
            .unwrap();
        self.same = self.picked.len();
    }
}

// Writes what the plan's image has of a write.
fn pick_write(picked: &mut Vec<u8>, image: Image, from: usize, bytes: &[u8])
    requires { vec_len picked.old + length bytes.now ≤ vec_capacity picked.old }
    ensures bytes { picked.new.items ≡ picked_write image from bytes.now picked.old.items }
    ensures capacity { vec_capacity picked.old ≤ vec_capacity picked.new }
{
    match image {
        Image::Kept => overwrite(picked, from, bytes),
        Image::Dropped => {}
        Image::Byte(byte) => fill_over(picked, from, bytes.len(), byte),
    }
}

// Writes over what is there, and past the end.
fn overwrite(held: &mut Vec<u8>, from: usize, bytes: &[u8])
    requires { vec_len held.old + length bytes.now ≤ vec_capacity held.old }
    ensures bytes { held.new.items ≡ overwritten from bytes.now held.old.items }
    ensures capacity { vec_capacity held.old ≤ vec_capacity held.new }
{
    if from <= held.len() && bytes.len() <= held.len() - from {
        held[from..from + bytes.len()].copy_from_slice(bytes);
    } else {
        held.truncate(from);
        held.extend_from_slice(bytes).unwrap();
    }
}

// Writes this byte at n places.
fn fill_over(held: &mut Vec<u8>, from: usize, n: usize, byte: u8)
    requires { vec_len held.old + n ≤ vec_capacity held.old }
    ensures bytes { held.new.items ≡ overwritten from (replicate n byte) held.old.items }
    ensures capacity { vec_capacity held.old ≤ vec_capacity held.new }
{
    if from <= held.len() && n <= held.len() - from {
        held[from..from + n].fill(byte);
    } else {
        held.truncate(from);
        let end = held.len() + n;
        held.resize(end, byte).unwrap();
    }
}
