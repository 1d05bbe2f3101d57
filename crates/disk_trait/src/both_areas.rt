// Both areas of a disk in memory.
ghost use Rattle.std.specs.Prelude.{◌≡◌, ◌+◌, ◌≤◌, length, take, IfOk};
ghost use Rattle.disk_trait.specs.Areas.{area_of, with_area};
ghost use Rattle.disk_trait.specs.Memory.{Standing, no_bytes, after_change};
ghost use Rattle.disk_trait.specs.Memory.Change.{Wrote, WasCut, Synced, Restarted};

use crate::area_bytes::AreaBytes;
use crate::{Area, Image};
use std::alloc::{AllocError, Global};
use std::marker::Model;

#[derive(Drop)]
pub(crate) struct BothAreas {
    zero: AreaBytes,
    one: AreaBytes,
}

impl Model for BothAreas {
    ghost use Rattle.disk_trait.specs.Parts.{BothState};

    ghost Value = { BothState };

    ghost use Rattle.disk_trait.specs.AreBoth.{both, HaveRoom};

    ghost view = { both };

    ghost invariant = { HaveRoom };
}

impl BothAreas {
    pub(crate) fn with_room(alloc: Global, room: usize) -> Result<Self, AllocError>
        ensures { IfOk result (λ a. a ≡ record {
          standing = record { reads = no_bytes; picked = no_bytes };
          room = room;
        }) }
    {
        Ok(BothAreas {
            zero: AreaBytes::with_room(alloc, room)?,
            one: AreaBytes::with_room(alloc, room)?,
        })
    }

    pub(crate) fn bytes(&self, area: Area) -> &[u8]
        ensures bytes { result.now ≡ area_of area self.now.standing.reads }
        ensures within { length result.now ≤ self.now.room }
    {
        match area {
            Area::Zero => self.zero.bytes(),
            Area::One => self.one.bytes(),
        }
    }

    pub(crate) fn write(&mut self, image: Image, area: Area, from: usize, bytes: &[u8])
        requires reads { length (area_of area self.old.standing.reads) + length bytes.now ≤ self.old.room }
        requires picked { length (area_of area self.old.standing.picked) + length bytes.now ≤ self.old.room }
        ensures { self.new ≡ record self.old {
          standing = after_change image (Wrote area from bytes.now) self.old.standing;
        } }
    {
        match area {
            Area::Zero => self.zero.write(image, from, bytes),
            Area::One => self.one.write(image, from, bytes),
        }
    }

    pub(crate) fn cut(&mut self, image: Image, area: Area, len: usize)
        ensures { self.new ≡ record self.old {
          standing = after_change image (WasCut area len) self.old.standing;
        } }
    {
        match area {
            Area::Zero => self.zero.cut(image, len),
            Area::One => self.one.cut(image, len),
        }
    }

    pub(crate) fn sync(&mut self, image: Image, area: Area)
        ensures { self.new ≡ record self.old {
          standing = after_change image (Synced area) self.old.standing;
        } }
    {
        match area {
            Area::Zero => self.zero.sync(),
            Area::One => self.one.sync(),
        }
    }

    pub(crate) fn restart(&mut self, image: Image)
        ensures { self.new ≡ record self.old {
          standing = after_change image Restarted self.old.standing;
        } }
    {
        self.zero.restart();
        self.one.restart();
    }
}
