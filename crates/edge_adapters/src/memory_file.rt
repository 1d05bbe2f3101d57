// A file in memory that tells what it holds: its calls fail by a list, and each moves few bytes.
ghost use Rattle.std.specs.Prelude.{◌≡◌, ◌+◌, ◌≤◌, length, vec_len, vec_capacity};
ghost use Rattle.disk_trait.specs.Disk.{overwritten};

use crate::AreaFile;
use edge_traits::CallPlan;
use std::alloc::Global;
use std::io;
use std::io::ErrorKind;

/// A file in memory. A call moves at most `most` bytes. Its calls are numbered from 1, but for `len` and `close`, and
/// those that are listed fail and do nothing.
#[derive(Drop)]
pub(crate) struct MemoryFile {
    bytes: Vec<u8>,
    is_synced: bool,
    is_named: bool,
    most: usize,
    calls: CallPlan,
}

impl MemoryFile {
    pub(crate) fn new(alloc: Global, most: usize, fail_at: Vec<u64>) -> Self {
        MemoryFile {
            bytes: Vec::new(alloc),
            is_synced: false,
            is_named: false,
            most,
            calls: CallPlan::new(fail_at),
        }
    }

    fn call(&mut self) -> io::Result<()>
        ensures bytes { self.new.bytes.items ≡ self.old.bytes.items }
        ensures is_synced { self.new.is_synced ≡ self.old.is_synced }
        ensures is_named { self.new.is_named ≡ self.old.is_named }
    {
        match self.calls.count(false) {
            Ok(()) => Ok(()),
            Err(_) => Err(ErrorKind::Other.into()),
        }
    }
}

impl AreaFile for MemoryFile {
    ghost use Rattle.std.specs.Prelude.{Some};

    ghost shows = { λ f. Some (record { held = f.bytes.items; is_synced = f.is_synced; is_named = f.is_named }) };

    fn len(&self) -> io::Result<u64> {
        Ok(self.bytes.len() as u64)
    }

    fn open(&mut self, _make: bool) -> io::Result<u64> {
        self.call()?;
        self.is_named = false;
        Ok(self.bytes.len() as u64)
    }

    fn close(&mut self) {
        self.is_named = false;
    }

    fn read_at(&mut self, from: u64, buf: &mut [u8]) -> io::Result<usize> {
        self.call()?;
        let from = (from as usize).min(self.bytes.len());
        let rest = &self.bytes[from..];
        let n = rest.len().min(buf.len()).min(self.most);
        buf[..n].copy_from_slice(&rest[..n]);
        Ok(n)
    }

    fn write_at(&mut self, from: u64, bytes: &[u8]) -> io::Result<usize> {
        self.call()?;
        let n = bytes.len().min(self.most);
        self.bytes.reserve(n)?;
        overwrite(&mut self.bytes, from as usize, &bytes[..n]);
        self.is_synced = false;
        Ok(n)
    }

    fn set_len(&mut self, len: u64) -> io::Result<()> {
        self.call()?;
        self.bytes.truncate(len as usize);
        self.is_synced = false;
        Ok(())
    }

    fn sync_data(&mut self) -> io::Result<()> {
        self.call()?;
        self.is_synced = true;
        Ok(())
    }

    fn sync_folder(&mut self) -> io::Result<()> {
        self.call()?;
        self.is_named = true;
        Ok(())
    }
}

// Writes over what is there, and past the end.
fn overwrite(held: &mut Vec<u8>, from: usize, bytes: &[u8])
    requires { vec_len held.old + length bytes.now ≤ vec_capacity held.old }
    ensures bytes { held.new.items ≡ overwritten from bytes.now held.old.items }
{
    if from <= held.len() && bytes.len() <= held.len() - from {
        held[from..from + bytes.len()].copy_from_slice(bytes);
    } else {
        held.truncate(from);
        held.extend_from_slice(bytes).unwrap();
    }
}
