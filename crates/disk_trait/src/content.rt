// What a disk in memory holds: both areas, and the log of the changes from which they follow.
ghost use Rattle.std.specs.Prelude.{◌≡◌, ◌+◌, ◌-◌, ◌^◌, ◌<◌, ◌≤◌, [], ◌∷◌, length, IfOk, nat_le, if◌then◌else◌};
ghost use Rattle.disk_trait.specs.Areas.{area_of};
ghost use Rattle.disk_trait.specs.Memory.{standing, bytes_of};
ghost use Rattle.disk_trait.specs.Memory.Change.{Wrote, Missed, WasCut, Synced, Restarted};

use crate::both_areas::BothAreas;
use crate::change_log::ChangeLog;
use crate::{Area, Image};
use std::alloc::{AllocError, Global};
use std::marker::Model;

#[derive(Drop)]
pub(crate) struct Content {
    areas: BothAreas,
    log: ChangeLog,
    image: Image,
}

impl Model for Content {
    ghost use Rattle.disk_trait.specs.Parts.{ContentState};

    ghost Value = { ContentState };

    ghost use Rattle.disk_trait.specs.IsContent.{content_seen, IsContent};

    ghost view = { content_seen };

    ghost invariant = { IsContent };
}

impl Content {
    pub(crate) fn with_room(
        alloc: Global,
        limit: usize,
        room: usize,
        image: Image,
    ) -> Result<Self, AllocError>
        requires { room ≤ 2 ^ 63 - 1 }
        ensures { IfOk result (λ c.
            c ≡ record { history = []; image = image; spare = limit; room = room }) }
    {
        Ok(Content {
            areas: BothAreas::with_room(alloc, room)?,
            log: ChangeLog::with_room(alloc, limit, room)?,
            image,
        })
    }

    pub(crate) fn room(&self) -> usize
        ensures { result ≡ self.now.room }
    {
        self.log.room()
    }

    pub(crate) fn bytes(&self, area: Area) -> &[u8]
        ensures bytes { result.now ≡ area_of area (standing self.now.image self.now.history).reads }
        ensures limit { length result.now ≤ 2 ^ 63 - 1 }
    {
        self.areas.bytes(area)
    }

    // Takes up the bytes of a write. Where there is no room for them, it is missed.
    pub(crate) fn write(&mut self, area: Area, from: u64, bytes: &[u8])
        requires { 0 < self.old.spare }
        ensures limit { from ≤ length (area_of area (standing self.old.image self.old.history).reads)
            → length bytes.now ≤ self.old.room → from + length bytes.now ≤ 2 ^ 63 - 1 }
        ensures after { self.new ≡ (if nat_le (length bytes.now) self.old.room
            then record self.old {
              history = Wrote area from bytes.now ∷ self.old.history;
              spare = self.old.spare - 1;
              room = self.old.room - length bytes.now;
            }
            else record self.old {
              history = Missed area from (length bytes.now) ∷ self.old.history;
              spare = self.old.spare - 1;
            }) }
    {
        if bytes.len() <= self.log.room() {
            self.areas.write(self.image, area, from as usize, bytes);
            self.log.wrote(area, from, bytes);
        } else {
            self.log.missed(area, from, bytes.len());
        }
    }

    pub(crate) fn cut(&mut self, area: Area, len: u64)
        requires { 0 < self.old.spare }
        ensures { self.new ≡ record self.old {
          history = WasCut area len ∷ self.old.history;
          spare = self.old.spare - 1;
        } }
    {
        self.areas.cut(self.image, area, len as usize);
        self.log.was_cut(area, len);
    }

    pub(crate) fn sync(&mut self, area: Area)
        requires { 0 < self.old.spare }
        ensures { self.new ≡ record self.old {
          history = Synced area ∷ self.old.history;
          spare = self.old.spare - 1;
        } }
    {
        self.areas.sync(self.image, area);
        self.log.synced(area);
    }

    pub(crate) fn restart(&mut self)
        requires { 0 < self.old.spare }
        ensures { self.new ≡ record self.old {
          history = Restarted ∷ self.old.history;
          spare = self.old.spare - 1;
        } }
    {
        self.areas.restart(self.image);
        self.log.restarted();
    }
}
