// One area of a disk over files: the length that was noted of it, and its file, which is opened when a call needs it.
ghost use Rattle.std.specs.Prelude.{◌≡◌, ◌↔◌, ◌+◌, ◌-◌, ◌^◌, ◌<◌, ◌≤◌, max, length, take, drop, IfSome, IsTrue, IsOk, IfOk, OnOk, OnErr};
ghost use Rattle.disk_trait.specs.Disk.{Written, Torn, Shortened, Cut};
ghost use Rattle.edge_adapters.specs.Files.{BytesBecome, SameBytes};
ghost use Rattle.edge_adapters.specs.Noted.{IsSeen, IsNotedOf};
ghost use Rattle.edge_adapters.specs.declared.stand.Stand.{Stand};

use crate::area_file::AreaFile;
use crate::stand::Stand;
use std::io;
use std::io::{Error, ErrorKind};
use std::marker::Model;

// The greatest length of an area.
const LONGEST: u64 = 0x7fff_ffff_ffff_ffff;

// One area. Callers see the noted length, how it stands to the file, and the file as far as that is told.
#[derive(Drop)]
pub(crate) struct FileArea<F: AreaFile> {
    file: F,
    noted: u64,
    stand: Stand,
}

impl<F: AreaFile> Model for FileArea<F> {
    ghost use Rattle.std.specs.Prelude.{◌-◌, ◌^◌, ◌≤◌};
    ghost use Rattle.edge_adapters.specs.Noted.{NotedArea, FitsStand};

    ghost Value = { NotedArea };

    ghost view = { λ a. record { noted = a.noted; stand = a.stand; file = F.shows a.file } };

    ghost invariant = { λ a. (a.noted ≤ 2 ^ 63 - 1) × FitsStand a.stand a.noted (F.shows a.file) };
}

impl<F: AreaFile> FileArea<F> {
    // The area that this file holds. Its length is noted, and no file is made.
    pub(crate) fn over(file: F) -> Self
        ensures noted { IsSeen result → IsNotedOf result }
        ensures unseen { (result.stand ≡ Stand.Unseen) → result.noted ≡ 0 }
    {
        let mut area = FileArea {
            file,
            noted: 0,
            stand: Stand::Unseen,
        };
        if let Ok(len) = area.measured() {
            area.note(len);
        }
        area
    }

    // The noted length.
    pub(crate) fn len(&self) -> io::Result<u64>
        ensures length { IfOk result (λ n. n ≡ self.now.noted) }
        ensures seen { IsOk result ↔ IsSeen self.now }
        ensures limit { IfOk result (λ n. n ≤ 2 ^ 63 - 1) }
    {
        match self.stand {
            Stand::Unseen => Err(unseen()),
            Stand::Closed | Stand::Open => Ok(self.noted),
        }
    }

    // Closes the file and gives the length that it has now.
    pub(crate) fn measured(&mut self) -> io::Result<u64>
        ensures length { IfOk result (λ n. IfSome self.new.file (λ f. n ≡ length f.held)) }
        ensures limit { IfOk result (λ n. n ≤ 2 ^ 63 - 1) }
        ensures noted { self.new.noted ≡ self.old.noted }
        ensures seen { IsSeen self.new ↔ IsSeen self.old }
        ensures bytes { BytesBecome SameBytes self.old.file self.new.file }
    {
        self.file.close();
        if matches!(self.stand, Stand::Open) {
            self.stand = Stand::Closed;
        }
        let len = self.file.len()?;
        if len > LONGEST {
            return Err(ErrorKind::FileTooLarge.into());
        }
        Ok(len)
    }

    // Notes this length.
    pub(crate) fn note(&mut self, len: u64)
        requires { len ≤ 2 ^ 63 - 1 }
        ensures { self.new ≡ record self.old { noted = len; stand = Stand.Closed } }
    {
        self.noted = len;
        self.stand = Stand::Closed;
    }

    // Opens the file, unless it is open.
    fn opened(&mut self) -> io::Result<()>
        ensures open { OnOk result (self.new.stand ≡ Stand.Open) }
        ensures length { OnOk result (IfSome self.new.file (λ f. length f.held ≡ self.new.noted)) }
        ensures noted { self.new.noted ≡ self.old.noted }
        ensures bytes { BytesBecome SameBytes self.old.file self.new.file }
    {
        match self.stand {
            Stand::Unseen => Err(unseen()),
            Stand::Closed => self.open(),
            Stand::Open => Ok(()),
        }
    }

    // Opens the file, where it has the noted length, and syncs it and its folder. It is made only where the noted length
    // is 0.
    fn open(&mut self) -> io::Result<()>
        ensures open { OnOk result (self.new.stand ≡ Stand.Open) }
        ensures length { OnOk result (IfSome self.new.file (λ f. length f.held ≡ self.new.noted)) }
        ensures noted { self.new.noted ≡ self.old.noted }
        ensures bytes { BytesBecome SameBytes self.old.file self.new.file }
    {
        self.stand = Stand::Closed;
        let len = self.file.open(self.noted == 0)?;
        if len != self.noted {
            return Err(Error::other("the file has another length than was noted"));
        }
        self.file.sync_data()?;
        self.file.sync_folder()?;
        self.stand = Stand::Open;
        Ok(())
    }

    // Fills `buf` with the bytes from a place on.
    pub(crate) fn read(&mut self, from: u64, buf: &mut [u8]) -> io::Result<()>
        requires { from + length buf.old ≤ self.old.noted }
        ensures bytes { OnOk result (IfSome self.old.file
            (λ f. buf.new ≡ take (length buf.old) (drop from f.held))) }
        ensures noted { self.new.noted ≡ self.old.noted }
        ensures kept { BytesBecome SameBytes self.old.file self.new.file }
    {
        if buf.is_empty() {
            return Ok(());
        }
        self.opened()?;
        read_whole(&mut self.file, from, buf)
    }

    // Writes all the bytes at a place.
    pub(crate) fn write_at(&mut self, from: u64, bytes: &[u8]) -> io::Result<()>
        requires { from ≤ self.old.noted }
        ensures written { OnOk result (BytesBecome (Written from bytes.now) self.old.file self.new.file) }
        ensures torn { OnErr result (BytesBecome (Torn from (length bytes.now)) self.old.file self.new.file) }

        ensures length { OnOk result (self.new.noted ≡ max self.old.noted (from + length bytes.now)) }
        ensures limit { OnOk result (from + length bytes.now ≤ 2 ^ 63 - 1) }
        ensures no_shorter { self.old.noted ≤ self.new.noted }
        ensures no_longer { self.new.noted ≤ max self.old.noted (from + length bytes.now) }
    {
        match from.checked_add(bytes.len() as u64) {
            Some(end) if end <= LONGEST => {
                self.opened()?;
                self.write_whole(from, bytes)
            }
            _ => Err(ErrorKind::FileTooLarge.into()),
        }
    }

    // Writes all the bytes at a place of an open file, in as many calls as it takes.
    fn write_whole(&mut self, from: u64, bytes: &[u8]) -> io::Result<()>
        requires open { self.old.stand ≡ Stand.Open }
        requires within { from ≤ self.old.noted }
        requires in_file { IfSome self.old.file (λ f. from ≤ length f.held) }
        requires limit { from + length bytes.now ≤ 2 ^ 63 - 1 }
        ensures written { OnOk result (BytesBecome (Written from bytes.now) self.old.file self.new.file) }
        ensures torn { OnErr result (BytesBecome (Torn from (length bytes.now)) self.old.file self.new.file) }
        ensures length { OnOk result (self.new.noted ≡ max self.old.noted (from + length bytes.now)) }
        ensures no_shorter { self.old.noted ≤ self.new.noted }
        ensures no_longer { self.new.noted ≤ max self.old.noted (from + length bytes.now) }
    {
        let mut done = 0;
        while done < bytes.len() {
            done += self.write_some(from + done as u64, &bytes[done..])?;
        }
        Ok(())
    }

    // Writes some of the bytes at a place of an open file, and notes the length. After an `Err` the file is no longer
    // held to have the noted length.
    fn write_some(&mut self, from: u64, bytes: &[u8]) -> io::Result<usize>
        requires open { self.old.stand ≡ Stand.Open }
        requires within { from ≤ self.old.noted }
        requires limit { from + length bytes.now ≤ 2 ^ 63 - 1 }
        ensures some { IfOk result (λ n. (0 < n) × (n ≤ length bytes.now)) }
        ensures written { IfOk result (λ n.
            BytesBecome (Written from (take n bytes.now)) self.old.file self.new.file) }
        ensures torn { OnErr result (BytesBecome (Torn from (length bytes.now)) self.old.file self.new.file) }
        ensures length { IfOk result (λ n. self.new.noted ≡ max self.old.noted (from + n)) }
        ensures open { OnOk result (self.new.stand ≡ Stand.Open) }
        ensures noted { OnErr result (self.new.noted ≡ self.old.noted) }
    {
        match self.file.write_at(from, bytes) {
            Ok(n) if n > 0 => {
                self.noted = self.noted.max(from + n as u64);
                Ok(n)
            }
            Ok(_) => {
                self.stand = Stand::Closed;
                Err(ErrorKind::WriteZero.into())
            }
            Err(error) => {
                self.stand = Stand::Closed;
                Err(error)
            }
        }
    }

    // Cuts the file to a length. After an `Err` the file is no longer held to have the noted length.
    pub(crate) fn cut(&mut self, len: u64) -> io::Result<()>
        requires { len ≤ self.old.noted }
        ensures cut { OnOk result (BytesBecome (Shortened len) self.old.file self.new.file) }
        ensures in_doubt { OnErr result (BytesBecome (Cut len) self.old.file self.new.file) }
        ensures length { OnOk result (self.new.noted ≡ len) }
        ensures noted { OnErr result (self.new.noted ≡ self.old.noted) }
    {
        self.opened()?;
        match self.file.set_len(len) {
            Ok(()) => {
                self.noted = len;
                Ok(())
            }
            Err(error) => {
                self.stand = Stand::Closed;
                Err(error)
            }
        }
    }

    // Makes sure that the disk has the file, with its bytes and its name.
    pub(crate) fn sync(&mut self) -> io::Result<()>
        ensures synced { OnOk result (IfSome self.new.file (λ f. IsTrue f.is_synced)) }
        ensures named { OnOk result (IfSome self.new.file (λ f. IsTrue f.is_named)) }
        ensures noted { self.new.noted ≡ self.old.noted }
        ensures bytes { BytesBecome SameBytes self.old.file self.new.file }
    {
        self.opened()?;
        self.file.sync_data()
    }
}

// Fills `buf` with the bytes of a file from a place on, in as many calls as it takes.
fn read_whole<F: AreaFile>(file: &mut F, from: u64, buf: &mut [u8]) -> io::Result<()>
    requires { from + length buf.old ≤ 2 ^ 63 - 1 }
    ensures bytes { OnOk result (IfSome (F.shows file.old)
        (λ f. buf.new ≡ take (length buf.old) (drop from f.held))) }
    ensures unchanged { F.shows file.new ≡ F.shows file.old }
{
    let mut done = 0;
    while done < buf.len() {
        let n = file.read_at(from + done as u64, &mut buf[done..])?;
        if n == 0 {
            return Err(ErrorKind::UnexpectedEof.into());
        }
        done += n;
    }
    Ok(())
}

fn unseen() -> Error {
    Error::other("the file's length couldn't be noted")
}
