// A file of the system, by its name in a folder. It tells nothing, so what its methods claim of bytes falls away. Each
// makes one call of std, but for those that open something: they open it and ask or sync it.
ghost use Rattle.std.specs.Prelude.{None};

use crate::area_file::AreaFile;
use clone_values::Text;
use std::fs::{File, OpenOptions};
use std::io::{Error, ErrorKind};
use std::os::fd::AsRawFd;
use std::os::unix::fs::FileExt;
use std::path::PathBuf;
use std::rt::Files;
use std::{fs, io};

/// A file of the system, by its name in a folder. Only a regular file counts: another thing of that name is an error.
#[derive(Drop)]
pub struct SystemFile<R> {
    rt: R,
    folder: Text,
    path: PathBuf,
    file: Option<File>,
}

impl<R> SystemFile<R> {
    // The file with this path, in this folder. Nothing is opened yet.
    pub(crate) fn new(rt: R, folder: Text, path: PathBuf) -> Self {
        SystemFile {
            rt,
            folder,
            path,
            file: None,
        }
    }

    fn file(&self) -> io::Result<&File> {
        self.file
            .as_ref()
            .ok_or(Error::other("the file isn't open"))
    }
}

impl<R: Files<File = File>> AreaFile for SystemFile<R> {
    ghost shows = { λ s. None };

    fn len(&self) -> io::Result<u64> {
        match fs::metadata(&self.rt, self.path.as_str()) {
            Ok(found) if found.is_file() => Ok(found.len()),
            Ok(_) => Err(no_file()),
            Err(error) if error.kind() == ErrorKind::NotFound => Ok(0),
            Err(error) => Err(error),
        }
    }

    fn open(&mut self, make: bool) -> io::Result<u64> {
        let mut file = OpenOptions::new()
            .read(true)
            .write(true)
            .create(make)
            .open(&self.rt, self.path.as_str())?;
        // What is meant for a standard stream that was closed must not land in the file.
        if file.as_raw_fd() <= 2 {
            file = file.try_clone()?;
        }
        let found = file.metadata()?;
        if !found.is_file() {
            return Err(no_file());
        }
        self.file = Some(file);
        Ok(found.len())
    }

    fn close(&mut self) {
        self.file = None;
    }

    fn read_at(&mut self, from: u64, buf: &mut [u8]) -> io::Result<usize> {
        self.file()?.read_at(buf, from)
    }

    fn write_at(&mut self, from: u64, bytes: &[u8]) -> io::Result<usize> {
        self.file()?.write_at(bytes, from)
    }

    fn set_len(&mut self, len: u64) -> io::Result<()> {
        self.file()?.set_len(len)
    }

    fn sync_data(&mut self) -> io::Result<()> {
        self.file()?.sync_data()
    }

    fn sync_folder(&mut self) -> io::Result<()> {
        fs::open(&self.rt, self.folder.as_str())?.sync_all()
    }
}

fn no_file() -> Error {
    Error::other("what has the file's name is no regular file")
}
