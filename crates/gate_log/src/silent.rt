// A disk that tells nothing of its content, as one over the files of a system: nothing is known of what the files do,
// and their lengths are noted when the disk is made, and anew at a restart.
ghost use Rattle.std.specs.Prelude.{◌≡◌, ◌-◌, ◌^◌, ◌≤◌};
ghost use Rattle.edge_traits.specs.Faults.{Rose};

use crate::{Area, Disk, Frame, GateLog};
use disk_trait::Failed;
use std::alloc::{AllocError, Global};
use std::fmt::Write;
use std::test::Fail;

const LONGEST: u64 = 0x7fff_ffff_ffff_ffff;

// What stands for the files of a system. Its functions have no clauses.
#[derive(Drop)]
struct Files {
    zero: Vec<u8>,
    one: Vec<u8>,
}

impl Files {
    fn new(alloc: Global) -> Files {
        Files {
            zero: Vec::new(alloc),
            one: Vec::new(alloc),
        }
    }

    fn size(&self, area: Area) -> u64 {
        match area {
            Area::Zero => self.zero.len() as u64,
            Area::One => self.one.len() as u64,
        }
    }

    fn fill(&self, area: Area, from: u64, buf: &mut [u8]) -> bool {
        let held = match area {
            Area::Zero => &self.zero,
            Area::One => &self.one,
        };
        match held.get(from as usize..) {
            Some(rest) => copied(rest, buf),
            None => false,
        }
    }

    fn put(&mut self, area: Area, from: u64, bytes: &[u8]) -> bool {
        match area {
            Area::Zero => overwritten(&mut self.zero, from as usize, bytes).is_ok(),
            Area::One => overwritten(&mut self.one, from as usize, bytes).is_ok(),
        }
    }

    fn cut(&mut self, area: Area, len: u64) -> bool {
        match area {
            Area::Zero => self.zero.truncate(len as usize),
            Area::One => self.one.truncate(len as usize),
        }
        true
    }
}

fn copied(from: &[u8], to: &mut [u8]) -> bool {
    if from.len() < to.len() {
        return false;
    }
    for (place, byte) in to.iter_mut().zip(from) {
        *place = *byte;
    }
    true
}

fn overwritten(held: &mut Vec<u8>, from: usize, bytes: &[u8]) -> Result<(), AllocError> {
    let mut at = from;
    for byte in bytes {
        match held.get_mut(at) {
            Some(place) => *place = *byte,
            None => {
                if held.push(*byte).is_err() {
                    return Err(AllocError);
                }
            }
        }
        at = at.wrapping_add(1);
    }
    Ok(())
}

// The disk over them.
#[derive(Drop)]
struct Silent {
    files: Files,
    zero: u64,
    one: u64,
    starts: u64,
    faults: u64,
    ghost limit_zero: { zero ≤ 2 ^ 63 - 1 },
    ghost limit_one: { one ≤ 2 ^ 63 - 1 },
}

impl Silent {
    fn new(files: Files) -> Result<Silent, Files> {
        let zero = files.size(Area::Zero);
        let one = files.size(Area::One);
        if zero > LONGEST || one > LONGEST {
            return Err(files);
        }
        Ok(Silent {
            files,
            zero,
            one,
            starts: 0,
            faults: 0,
        })
    }

    fn noted(&self, area: Area) -> u64
        ensures zero { area ≡ Area.Zero → result ≡ self.now.zero }
        ensures one { area ≡ Area.One → result ≡ self.now.one }
    {
        match area {
            Area::Zero => self.zero,
            Area::One => self.one,
        }
    }

    fn fault(&mut self) -> Failed
        ensures zero { self.new.zero ≡ self.old.zero }
        ensures one { self.new.one ≡ self.old.one }
        ensures starts { self.new.starts ≡ self.old.starts }
        ensures rose { Rose self.old.faults self.new.faults }
        ensures count { self.old.faults ≤ self.new.faults }
    {
        self.faults = self.faults.saturating_add(1);
        Failed
    }
}

impl Disk for Silent {
    ghost use Rattle.std.specs.Prelude.{ℕ};
    ghost use Rattle.gate_log.specs.Silent.{silent_view};

    ghost shows = { λ d. silent_view d.zero d.one d.starts d.faults };

    ghost reads_are_an_image = { λ d areas told. absurd (cc) };

    ghost images_are_told = { λ d image left. absurd left };

    ghost lengths_are_told = { λ d areas area told. absurd (cc) };

    ghost counts_now = { λ d t image le left. left };

    ghost only_now = { λ d image left. left };

    ghost since_earlier = { λ d s t image le left. left };

    fn fault_count(&self) -> u64 {
        self.faults
    }

    fn len(&mut self, area: Area) -> Result<u64, Failed> {
        Ok(self.noted(area))
    }

    fn read(&mut self, area: Area, from: u64, buf: &mut [u8]) -> Result<(), Failed> {
        if self.files.fill(area, from, buf) {
            Ok(())
        } else {
            Err(self.fault())
        }
    }

    fn write_at(&mut self, area: Area, from: u64, bytes: &[u8]) -> Result<(), Failed> {
        let len = bytes.len() as u64;
        if len > LONGEST - from || !self.files.put(area, from, bytes) {
            return Err(self.fault());
        }
        match area {
            Area::Zero => self.zero = self.zero.max(from + len),
            Area::One => self.one = self.one.max(from + len),
        }
        Ok(())
    }

    fn cut(&mut self, area: Area, len: u64) -> Result<(), Failed> {
        if !self.files.cut(area, len) {
            return Err(self.fault());
        }
        match area {
            Area::Zero => self.zero = len,
            Area::One => self.one = len,
        }
        Ok(())
    }

    fn sync(&mut self, _area: Area) -> Result<(), Failed> {
        Ok(())
    }

    fn restart(&mut self) -> Result<(), Failed> {
        let zero = self.files.size(Area::Zero);
        let one = self.files.size(Area::One);
        if zero > LONGEST || one > LONGEST || self.starts == u64::MAX {
            return Err(self.fault());
        }
        self.zero = zero;
        self.one = one;
        self.starts += 1;
        Ok(())
    }
}

// A load and an append over a disk of any kind, and how they went.
fn one_more<D: Disk + Drop>(
    alloc: Global,
    disk: D,
    bytes: &[u8],
    said: &mut String,
) -> Result<D, Fail> {
    let frame = Frame::new(alloc, bytes)?;
    match GateLog::load(alloc, disk) {
        Ok(opened) => {
            let (log, found) = opened;
            let mut log = log;
            let _ = write!(said, " {} {}", found.len(), log.append(&frame).is_ok());
            Ok(log.into_disk())
        }
        Err(error) => Ok(error.1),
    }
}

#[test]
fn a_log_stands_on_a_disk_that_tells_nothing(rt: HostRuntime) -> Result<(), Fail> {
    let alloc = rt.alloc();
    let mut said = String::new(alloc);
    let disk = Silent::new(Files::new(alloc)).ok().ok_or("a disk")?;
    let disk = one_more(alloc, disk, b"one", &mut said)?;
    let mut disk = one_more(alloc, disk, b"second", &mut said)?;
    assert!(rt; disk.restart().is_ok());
    let disk = one_more(alloc, disk, b"", &mut said)?;
    assert_eq!(rt; said.as_str(), " 0 true 1 true 2 true");
    assert_eq!(rt; disk.noted(Area::Zero), 18 + 9 + 3 + 9 + 6 + 9);
    Ok(())
}
