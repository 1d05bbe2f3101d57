// A disk whose areas are two files of a folder.
ghost use Rattle.std.specs.Prelude.{◌≡◌, ◌↔◌, ◌+◌, ◌-◌, ◌^◌, ◌≤◌, max, length, take, drop, IfSome, IsTrue, Ok, IfOk, IsOk, IsErr, OnOk, OnErr};
ghost use Rattle.edge_traits.specs.Faults.{HasFaultCause};
ghost use Rattle.disk_trait.specs.Areas.{other_area};
ghost use Rattle.disk_trait.specs.Disk.{Written, Torn, Shortened, Cut, starts_after};
ghost use Rattle.edge_adapters.specs.Files.{BytesBecome, SameBytes};
ghost use Rattle.edge_adapters.specs.Noted.{area_in, file_in, noted_in, SameNoted, IsSeen, IsNotedOf};

use crate::area_file::AreaFile;
use crate::file_area::FileArea;
use crate::system_file::SystemFile;
use clone_values::Text;
use disk_trait::{Area, Disk, Failed};
use idb_base::NoMemory;
use std::alloc::Global;
use std::fs::File;
use std::io::{self, ErrorKind};
use std::marker::Model;
use std::path::Path;
use std::rt::Files;

/// A disk whose areas are two files. It tells nothing of its content to the layers above, so its own clauses say what its
/// calls do to files that are told.
///
/// Each error of the system that a call meets is a counted fault, and that call answers `Failed`. So it does where a read
/// comes to an early end of the file, where a write takes nothing of some bytes or would go past
/// 9,223,372,036,854,775,807 bytes, where a file has another length than was noted, and where the disk would be started
/// again more than 18,446,744,073,709,551,615 times.
///
/// The length of an area is noted when the disk is made and at a `restart`; a file that isn't there has length 0. Each
/// write and cut keeps it up. A file is opened at the first call that needs its bytes, and made then if its noted length
/// is 0. It is opened anew after a restart, and after a write or a cut that failed. Whenever it is opened, its length must
/// be the noted one, and both the file and its folder are synced before it is used: so what reads give is what a stop
/// leaves, and the file's name is on the disk before the first sync of the area answers `Ok`. Where a length couldn't be
/// noted, each call on that area fails until a restart can note it; the noted length is 0 until then.
#[derive(Drop)]
pub struct FileDisk<F: AreaFile> {
    zero: FileArea<F>,
    one: FileArea<F>,
    starts: u64,
    faults: u64,
}

impl<F: AreaFile> Model for FileDisk<F> {
    ghost use Rattle.edge_adapters.specs.Noted.{TwoFiles};

    ghost Value = { TwoFiles };

    ghost view = { λ d. record { zero = d.zero; one = d.one; starts = d.starts; faults = d.faults } };
}

impl<R: Files<File = File> + Copy> FileDisk<SystemFile<R>> {
    /// The disk over the files `idb.0` (area zero) and `idb.1` (area one) of a folder; `.` is the current one. `rt` is
    /// the runtime that `main` is given. No file is made.
    pub fn in_folder(alloc: Global, rt: R, folder: Text) -> Result<Self, NoMemory>
        ensures { IfOk result (λ disk. disk.faults ≡ 0) }
    {
        let zero = Path::new(folder.as_str()).join(alloc, "idb.0")?;
        let one = Path::new(folder.as_str()).join(alloc, "idb.1")?;
        let zero = SystemFile::new(rt, folder.copy(alloc)?, zero);
        Ok(FileDisk::over(zero, SystemFile::new(rt, folder, one)))
    }
}

impl<F: AreaFile> FileDisk<F> {
    /// The disk over these files, of area zero and of area one. Their lengths are noted, and no file is made.
    pub fn over(zero: F, one: F) -> Self
        ensures zero { IsSeen result.zero → IsNotedOf result.zero }
        ensures one { IsSeen result.one → IsNotedOf result.one }
        ensures faults { result.faults ≡ 0 }
    {
        FileDisk {
            zero: FileArea::over(zero),
            one: FileArea::over(one),
            starts: 0,
            faults: 0,
        }
    }

    /// The noted length of an area, in bytes. It fails only where the length couldn't be noted.
    pub fn len(&mut self, area: Area) -> Result<u64, Failed>
        ensures length { IfOk result (λ n. n ≡ noted_in area self.old) }
        ensures limit { IfOk result (λ n. n ≤ 2 ^ 63 - 1) }
        ensures failed { IsOk result ↔ IsSeen (area_in area self.old) }
        ensures zero { self.new.zero ≡ self.old.zero }
        ensures one { self.new.one ≡ self.old.one }
        ensures starts { self.new.starts ≡ self.old.starts }
        ensures cause { HasFaultCause self.old.faults self.new.faults result }
    {
        let answer = match area {
            Area::Zero => self.zero.len(),
            Area::One => self.one.len(),
        };
        self.counted(answer)
    }

    /// Fills `buf` with the bytes of an area from a place on, in as many reads as it takes. For no bytes, the file isn't
    /// opened.
    pub fn read(&mut self, area: Area, from: u64, buf: &mut [u8]) -> Result<(), Failed>
        requires { from + length buf.old ≤ noted_in area self.old }
        ensures bytes { OnOk result (IfSome (file_in area self.old)
            (λ f. buf.new ≡ take (length buf.old) (drop from f.held))) }
        ensures kept { BytesBecome SameBytes (file_in area self.old) (file_in area self.new) }
        ensures elsewhere { area_in (other_area area) self.new ≡ area_in (other_area area) self.old }
        ensures lengths { SameNoted self.old self.new }
        ensures starts { self.new.starts ≡ self.old.starts }
        ensures cause { HasFaultCause self.old.faults self.new.faults result }
    {
        let answer = match area {
            Area::Zero => self.zero.read(from, buf),
            Area::One => self.one.read(from, buf),
        };
        self.counted(answer)
    }

    /// Writes all the bytes at a place, in as many writes as it takes. The noted length follows each of them, so that
    /// after an `Err` it is that of the bytes that were written.
    pub fn write_at(&mut self, area: Area, from: u64, bytes: &[u8]) -> Result<(), Failed>
        requires { from ≤ noted_in area self.old }
        ensures written { OnOk result
            (BytesBecome (Written from bytes.now) (file_in area self.old) (file_in area self.new)) }
        ensures torn { OnErr result
            (BytesBecome (Torn from (length bytes.now)) (file_in area self.old) (file_in area self.new)) }
        ensures elsewhere { area_in (other_area area) self.new ≡ area_in (other_area area) self.old }

        ensures length { OnOk result
            (noted_in area self.new ≡ max (noted_in area self.old) (from + length bytes.now)) }
        ensures limit { OnOk result (from + length bytes.now ≤ 2 ^ 63 - 1) }
        ensures no_shorter { noted_in area self.old ≤ noted_in area self.new }
        ensures no_longer { noted_in area self.new ≤ max (noted_in area self.old) (from + length bytes.now) }
        ensures starts { self.new.starts ≡ self.old.starts }
        ensures cause { HasFaultCause self.old.faults self.new.faults result }
    {
        let answer = match area {
            Area::Zero => self.zero.write_at(from, bytes),
            Area::One => self.one.write_at(from, bytes),
        };
        self.counted(answer)
    }

    /// Cuts an area to a length. After an `Err` its noted length is as it was.
    pub fn cut(&mut self, area: Area, len: u64) -> Result<(), Failed>
        requires { len ≤ noted_in area self.old }
        ensures cut { OnOk result
            (BytesBecome (Shortened len) (file_in area self.old) (file_in area self.new)) }
        ensures in_doubt { OnErr result
            (BytesBecome (Cut len) (file_in area self.old) (file_in area self.new)) }
        ensures elsewhere { area_in (other_area area) self.new ≡ area_in (other_area area) self.old }

        ensures length { OnOk result (noted_in area self.new ≡ len) }
        ensures noted { OnErr result (noted_in area self.new ≡ noted_in area self.old) }
        ensures starts { self.new.starts ≡ self.old.starts }
        ensures cause { HasFaultCause self.old.faults self.new.faults result }
    {
        let answer = match area {
            Area::Zero => self.zero.cut(len),
            Area::One => self.one.cut(len),
        };
        self.counted(answer)
    }

    /// Makes sure that the disk has an area: its bytes and its length by a data sync of the file, and its name by a sync
    /// of the folder, which is done once after the file was opened.
    pub fn sync(&mut self, area: Area) -> Result<(), Failed>
        ensures synced { OnOk result (IfSome (file_in area self.new) (λ f. IsTrue f.is_synced)) }
        ensures named { OnOk result (IfSome (file_in area self.new) (λ f. IsTrue f.is_named)) }
        ensures kept { BytesBecome SameBytes (file_in area self.old) (file_in area self.new) }
        ensures elsewhere { area_in (other_area area) self.new ≡ area_in (other_area area) self.old }
        ensures lengths { SameNoted self.old self.new }
        ensures starts { self.new.starts ≡ self.old.starts }
        ensures cause { HasFaultCause self.old.faults self.new.faults result }
    {
        let answer = match area {
            Area::Zero => self.zero.sync(),
            Area::One => self.one.sync(),
        };
        self.counted(answer)
    }

    /// Closes both files and notes their lengths anew. They are opened, and synced, at the next calls that need them.
    pub fn restart(&mut self) -> Result<(), Failed>
        ensures zero { OnOk result (IsNotedOf self.new.zero) }
        ensures one { OnOk result (IsNotedOf self.new.one) }
        ensures seen { OnOk result (IsSeen self.new.zero × IsSeen self.new.one) }
        ensures lengths { OnErr result (SameNoted self.old self.new) }
        ensures zero_kept { BytesBecome SameBytes self.old.zero.file self.new.zero.file }
        ensures one_kept { BytesBecome SameBytes self.old.one.file self.new.one.file }
        ensures starts { self.new.starts ≡ starts_after result self.old.starts }
        ensures cause { HasFaultCause self.old.faults self.new.faults result }
    {
        let answer = self.noted_anew();
        self.counted(answer)
    }

    // Closes both files and notes their lengths anew, or neither length, and counts the start.
    fn noted_anew(&mut self) -> io::Result<()>
        ensures zero { OnOk result (IsNotedOf self.new.zero) }
        ensures one { OnOk result (IsNotedOf self.new.one) }
        ensures seen { OnOk result (IsSeen self.new.zero × IsSeen self.new.one) }
        ensures lengths { OnErr result (SameNoted self.old self.new) }
        ensures zero_kept { BytesBecome SameBytes self.old.zero.file self.new.zero.file }
        ensures one_kept { BytesBecome SameBytes self.old.one.file self.new.one.file }
        ensures starts { self.new.starts ≡ starts_after result self.old.starts }
        ensures faults { self.new.faults ≡ self.old.faults }
    {
        let Some(starts) = self.starts.checked_add(1) else {
            return Err(ErrorKind::Other.into());
        };
        let zero = self.zero.measured()?;
        let one = self.one.measured()?;
        self.zero.note(zero);
        self.one.note(one);
        self.starts = starts;
        Ok(())
    }

    // The answer of a call, where an error is counted.
    fn counted<T: Drop>(&mut self, answer: io::Result<T>) -> Result<T, Failed>
        ensures value { IfOk result (λ v. answer ≡ Ok v) }
        ensures failed { IsErr result ↔ IsErr answer }
        ensures zero { self.new.zero ≡ self.old.zero }
        ensures one { self.new.one ≡ self.old.one }
        ensures starts { self.new.starts ≡ self.old.starts }
        ensures cause { HasFaultCause self.old.faults self.new.faults result }
    {
        match answer {
            Ok(value) => Ok(value),
            Err(_) => {
                self.faults = self.faults.saturating_add(1);
                Err(Failed)
            }
        }
    }
}

impl<F: AreaFile> Disk for FileDisk<F> {
    ghost use Rattle.edge_adapters.specs.Untold.{untold_view};

    ghost shows = { untold_view };

    ghost reads_are_an_image = { λ d areas told. absurd (cc) };

    ghost images_are_told = { λ d image left. absurd left };

    ghost lengths_are_told = { λ d areas area told. absurd (cc) };

    ghost counts_now = { λ d t image le left. left };

    ghost only_now = { λ d image left. left };

    ghost since_earlier = { λ d s t image le left. left };

    fn fault_count(&self) -> u64 {
        self.faults
    }

    fn len(&mut self, area: Area) -> Result<u64, Failed> {
        FileDisk::len(self, area)
    }

    fn read(&mut self, area: Area, from: u64, buf: &mut [u8]) -> Result<(), Failed> {
        FileDisk::read(self, area, from, buf)
    }

    fn write_at(&mut self, area: Area, from: u64, bytes: &[u8]) -> Result<(), Failed> {
        FileDisk::write_at(self, area, from, bytes)
    }

    fn cut(&mut self, area: Area, len: u64) -> Result<(), Failed> {
        FileDisk::cut(self, area, len)
    }

    fn sync(&mut self, area: Area) -> Result<(), Failed> {
        FileDisk::sync(self, area)
    }

    fn restart(&mut self) -> Result<(), Failed> {
        FileDisk::restart(self)
    }
}
