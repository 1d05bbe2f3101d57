// The disk as every layer above sees it: two areas of bytes, calls that may fail, and a stop at any moment.
ghost use Rattle.std.specs.Prelude.{◌≡◌, ◌+◌, ◌-◌, ◌^◌, ◌≤◌, max, ℕ, length, take, drop, Some, IfOk, OnOk, OnErr};
ghost use Rattle.edge_traits.specs.Faults.{HasFaultCause};
ghost use Rattle.disk_trait.specs.declared.area.Area.{Area};
ghost use Rattle.disk_trait.specs.Areas.{Areas, area_of};
ghost use Rattle.disk_trait.specs.Disk.{DiskView, Written, Torn, Shortened, Cut, OnArea, WhereTold, Leads, Follows, NoNewImage, SameImages, Pins, IsSettled, SameLengths, Lengthens, Shortens, starts_after, ElapsesTo, Elapses, Untouched};

use crate::Area;
use edge_traits::Failed;

/// A disk with two areas. What is proved of a user of the trait holds for every disk that keeps it.
///
/// An area is at most 9,223,372,036,854,775,807 bytes long; a write past that is a counted fault.
pub trait Disk {
    /// What is said of a disk: what reads give, the lengths, what a stop may leave now and since a moment, how often it
    /// was started again, and the count of faults.
    ghost shows: { Self → DiskView };

    /// How often the disk has failed so far, as a number that a caller may keep.
    fn fault_count(&self) -> u64
        ensures { result ≡ (shows self.now).faults };

    /// The length of an area in bytes.
    fn len(&mut self, area: Area) -> Result<u64, Failed>
        ensures length { IfOk result (λ n. n ≡ (shows self.old).lengths area) }
        ensures limit { IfOk result (λ n. n ≤ 2 ^ 63 - 1) }
        ensures untouched { Untouched (shows self.old) (shows self.new) }
        ensures cause { HasFaultCause (shows self.old).faults (shows self.new).faults result };

    /// Fills `buf` with the bytes of an area from a place on. After an `Err` it may hold any bytes.
    fn read(&mut self, area: Area, from: u64, buf: &mut [u8]) -> Result<(), Failed>
        requires { from + length buf.old ≤ (shows self.old).lengths area }
        ensures bytes { OnOk result (WhereTold (shows self.old) (λ areas.
            buf.new ≡ take (length buf.old) (drop from (area_of area areas)))) }
        ensures untouched { Untouched (shows self.old) (shows self.new) }
        ensures cause { HasFaultCause (shows self.old).faults (shows self.new).faults result };

    /// Writes over what stands there, and past the end. Until a sync of the area, a stop may leave any bytes in the
    /// range and past the old end. After an `Err` reads, too, give what a torn write may leave.
    fn write_at(&mut self, area: Area, from: u64, bytes: &[u8]) -> Result<(), Failed>
        requires { from ≤ (shows self.old).lengths area }
        ensures written { OnOk result
            (Leads (OnArea area (Written from bytes.now)) (shows self.old) (shows self.new)) }
        ensures torn { OnErr result
            (Leads (OnArea area (Torn from (length bytes.now))) (shows self.old) (shows self.new)) }
        ensures length { OnOk result ((shows self.new).lengths area
            ≡ max ((shows self.old).lengths area) (from + length bytes.now)) }
        ensures lengths { Lengthens area from (length bytes.now) (shows self.old) (shows self.new) }
        ensures limit { OnOk result (from + length bytes.now ≤ 2 ^ 63 - 1) }
        ensures images { Follows (OnArea area (Torn from (length bytes.now)))
            (shows self.old) (shows self.new) }
        ensures time { Elapses (shows self.old) (shows self.new) }
        ensures cause { HasFaultCause (shows self.old).faults (shows self.new).faults result };

    /// Cuts an area to a length. Until a sync of the area, a stop may leave it cut or not, and after an `Err` reads,
    /// too, give the one or the other.
    fn cut(&mut self, area: Area, len: u64) -> Result<(), Failed>
        requires { len ≤ (shows self.old).lengths area }
        ensures cut { OnOk result (Leads (OnArea area (Shortened len)) (shows self.old) (shows self.new)) }
        ensures in_doubt { OnErr result (Leads (OnArea area (Cut len)) (shows self.old) (shows self.new)) }
        ensures length { OnOk result ((shows self.new).lengths area ≡ len) }
        ensures lengths { Shortens area len (shows self.old) (shows self.new) }
        ensures images { Follows (OnArea area (Cut len)) (shows self.old) (shows self.new) }
        ensures time { Elapses (shows self.old) (shows self.new) }
        ensures cause { HasFaultCause (shows self.old).faults (shows self.new).faults result };

    /// After `Ok` a stop leaves what reads give in this area. No image is new. After an `Err` the images are as they
    /// were.
    fn sync(&mut self, area: Area) -> Result<(), Failed>
        ensures durable { OnOk result (Pins area (shows self.old) (shows self.new)) }
        ensures unsynced { OnErr result (SameImages (shows self.old).may_leave (shows self.new).may_leave) }
        ensures reads { (shows self.new).reads ≡ (shows self.old).reads }
        ensures lengths { SameLengths (shows self.old) (shows self.new) }
        ensures images { NoNewImage (shows self.old) (shows self.new) }
        ensures time { Elapses (shows self.old) (shows self.new) }
        ensures cause { HasFaultCause (shows self.old).faults (shows self.new).faults result };

    /// Starts the disk again, after a stop or without one: reads then give one of the images, and a stop leaves just
    /// that. After an `Err` reads, lengths and images are as they were.
    fn restart(&mut self) -> Result<(), Failed>
        ensures restarted { OnOk result (Leads
            (λ before after. (shows self.old).may_leave after) (shows self.old) (shows self.new)) }
        ensures settled { OnOk result (IsSettled (shows self.new)) }
        ensures reads { OnErr result ((shows self.new).reads ≡ (shows self.old).reads) }
        ensures lengths { OnErr result (SameLengths (shows self.old) (shows self.new)) }
        ensures unsettled { OnErr result (SameImages (shows self.old).may_leave (shows self.new).may_leave) }
        ensures images { NoNewImage (shows self.old) (shows self.new) }
        ensures time { ElapsesTo (starts_after result (shows self.old).starts)
            (shows self.old) (shows self.new) }
        ensures cause { HasFaultCause (shows self.old).faults (shows self.new).faults result };

    /// What reads give is itself an image.
    ghost reads_are_an_image: { (disk : Self) (areas : Areas) → (shows disk).reads ≡ Some areas
        → (shows disk).may_leave areas };

    /// Where there is an image, reads are told: a disk that tells nothing has none.
    ghost images_are_told: { (disk : Self) (image : Areas) → (shows disk).may_leave image
        → (areas : Areas) × ((shows disk).reads ≡ Some areas) };

    /// The lengths are those of what reads give.
    ghost lengths_are_told: { (disk : Self) (areas : Areas) (area : Area) → (shows disk).reads ≡ Some areas
        → (shows disk).lengths area ≡ length (area_of area areas) };

    /// An image now is an image since now, and since any earlier moment.
    ghost counts_now: { (disk : Self) (t : ℕ) (image : Areas) → t ≤ (shows disk).moment
        → (shows disk).may_leave image → (shows disk).left_since t image };

    /// Since this moment there is no other image.
    ghost only_now: { (disk : Self) (image : Areas) → (shows disk).left_since (shows disk).moment image
        → (shows disk).may_leave image };

    /// An image since a moment is one since any earlier moment.
    ghost since_earlier: { (disk : Self) (s t : ℕ) (image : Areas) → s ≤ t
        → (shows disk).left_since t image → (shows disk).left_since s image };
}
