// What no clause says: that calls succeed, which files a folder has and when, and how faults in mid-stream go on.
// The helpers have no clauses, so that a test doesn't carry what each call ensures.
use crate::memory_file::MemoryFile;
use crate::{FileDisk, StdSink, StdSource};
use clone_values::Text;
use disk_trait::{Area, Disk};
use edge_traits::{Failed, Sink, Source};
use std::alloc::Global;
use std::fmt::Write;
use std::fs;
use std::test::Fail;

#[derive(Clone, Copy)]
enum Step {
    Len(Area),
    Read(Area, u64, usize),
    Write(Area, u64, &'static [u8]),
    Cut(Area, u64),
    Sync(Area),
    Restart,
}

fn tell_done(said: &mut String, answer: Result<(), Failed>) -> Result<(), Fail> {
    match answer {
        Ok(()) => write!(said, " done")?,
        Err(_) => write!(said, " failed")?,
    }
    Ok(())
}

fn tell_read<D: Disk>(
    said: &mut String,
    disk: &mut D,
    area: Area,
    from: u64,
    n: usize,
) -> Result<(), Fail> {
    let mut buf = [0; 16];
    match disk.len(area) {
        Ok(len) if n <= 16 && from <= len && n as u64 <= len - from => {
            match disk.read(area, from, &mut buf[..n]) {
                Ok(()) => write!(said, " {}", str::from_utf8(&buf[..n])?)?,
                Err(_) => write!(said, " failed")?,
            }
        }
        _ => write!(said, " behind")?,
    }
    Ok(())
}

fn tell_write<D: Disk>(
    said: &mut String,
    disk: &mut D,
    area: Area,
    from: u64,
    bytes: &[u8],
) -> Result<(), Fail> {
    match disk.len(area) {
        Ok(len) if from <= len => {
            let answer = disk.write_at(area, from, bytes);
            tell_done(said, answer)
        }
        _ => Ok(write!(said, " behind")?),
    }
}

fn tell_cut<D: Disk>(said: &mut String, disk: &mut D, area: Area, to: u64) -> Result<(), Fail> {
    match disk.len(area) {
        Ok(len) if to <= len => {
            let answer = disk.cut(area, to);
            tell_done(said, answer)
        }
        _ => Ok(write!(said, " behind")?),
    }
}

// Makes one call, and says how it went.
fn tell<D: Disk>(said: &mut String, disk: &mut D, step: Step) -> Result<(), Fail> {
    match step {
        Step::Len(area) => match disk.len(area) {
            Ok(len) => Ok(write!(said, " {len}")?),
            Err(_) => Ok(write!(said, " unseen")?),
        },
        Step::Read(area, from, n) => tell_read(said, disk, area, from, n),
        Step::Write(area, from, bytes) => tell_write(said, disk, area, from, bytes),
        Step::Cut(area, len) => tell_cut(said, disk, area, len),
        Step::Sync(area) => {
            let answer = disk.sync(area);
            tell_done(said, answer)
        }
        Step::Restart => {
            let answer = disk.restart();
            tell_done(said, answer)
        }
    }
}

// Makes the calls, and says how each went and how many faults there were.
fn told<D: Disk>(alloc: Global, disk: &mut D, steps: &[Step]) -> Result<String, Fail> {
    let mut said = String::new(alloc);
    for step in steps {
        tell(&mut said, disk, *step)?;
    }
    write!(said, ", {}", disk.fault_count())?;
    Ok(said)
}

fn memory_disk(alloc: Global, fails: u64) -> Result<FileDisk<MemoryFile>, Fail> {
    let mut fail_at = Vec::new(alloc);
    fail_at.push(fails)?;
    let zero = MemoryFile::new(alloc, 2, fail_at);
    Ok(FileDisk::over(zero, MemoryFile::new(alloc, 2, Vec::new(alloc))))
}

// A call moves two bytes, and one call of the file of area zero fails: the third of a write, a sync, the second of a
// read, the opening, a cut. Calls 1 to 3 open the file.
#[test]
fn one_fault_in_mid_stream_is_told_and_the_next_call_goes_on(rt: HostRuntime) -> Result<(), Fail> {
    let steps = [
        Step::Write(Area::Zero, 0, b"abcdefg"),
        Step::Len(Area::Zero),
        Step::Sync(Area::Zero),
        Step::Read(Area::Zero, 1, 3),
        Step::Cut(Area::Zero, 3),
        Step::Read(Area::Zero, 0, 3),
    ];
    for (fails, want) in [
        (0, " done 7 done bcd done abc, 0"),
        (1, " failed 0 done behind behind behind, 1"),
        (6, " failed 4 done bcd done abc, 1"),
        (8, " done 7 failed bcd done abc, 1"),
        (10, " done 7 done failed done abc, 1"),
        (11, " done 7 done bcd failed abc, 1"),
    ] {
        let mut disk = memory_disk(rt.alloc(), fails)?;
        let said = told(rt.alloc(), &mut disk, &steps)?;
        assert_eq!(rt; said.as_str(), want, "call {fails}");
    }
    Ok(())
}

/// What is done to a disk over files, or to the files beside it.
#[derive(Clone, Copy)]
enum Act {
    Call(Step),
    RemoveFolder(&'static str),
    Put(&'static str, &'static str),
    /// The text of a file, or that there is none.
    Show(&'static str),
}

fn show(rt: HostRuntime, said: &mut String, path: &str) -> Result<(), Fail> {
    if fs::exists(&rt, path)? {
        let text = fs::read_to_string(&rt, path)?;
        write!(said, " [{text}]")?;
    } else {
        write!(said, " none")?;
    }
    Ok(())
}

/// Does it, and says how a call went.
fn make_act<D: Disk>(
    rt: HostRuntime,
    said: &mut String,
    disk: &mut D,
    act: Act,
) -> Result<(), Fail> {
    match act {
        Act::Call(step) => tell(said, disk, step)?,
        Act::RemoveFolder(path) => fs::remove_dir_all(&rt, path)?,
        Act::Put(path, text) => fs::write(&rt, path, text)?,
        Act::Show(path) => show(rt, said, path)?,
    }
    Ok(())
}

/// Makes the folder anew, with a file of this name that holds a text and an inner folder, if they are named.
fn make_folder(
    rt: HostRuntime,
    folder: &str,
    file: Option<&'static str>,
    inner: Option<&'static str>,
) -> Result<(), Fail> {
    let _ = fs::remove_dir_all(&rt, folder);
    fs::create_dir(&rt, folder)?;
    if let Some(file) = file {
        fs::write(&rt, file, "abc")?;
    }
    if let Some(inner) = inner {
        fs::create_dir(&rt, inner)?;
    }
    Ok(())
}

/// Does all acts, and says how the calls went and how many faults there were.
fn done<D: Disk>(rt: HostRuntime, disk: &mut D, acts: &[Act]) -> Result<String, Fail> {
    let mut said = String::new(rt.alloc());
    for it in acts {
        make_act(rt, &mut said, disk, *it)?;
    }
    write!(said, ", {}", disk.fault_count())?;
    Ok(said)
}

use Act::{Call, Put, RemoveFolder, Show};

const FOLDER: &str = "edge_adapters_files";

// No file is made before it is needed, and each area is in its own file.
#[test]
fn a_folder_keeps_two_files(rt: HostRuntime) -> Result<(), Fail> {
    make_folder(rt, FOLDER, None, None)?;
    let alloc = rt.alloc();
    let mut disk = FileDisk::in_folder(alloc, rt, Text::copy_of(alloc, FOLDER)?)?;
    let acts = [
        Call(Step::Len(Area::Zero)),
        Call(Step::Read(Area::One, 0, 0)),
        Show("edge_adapters_files/idb.0"),
        Call(Step::Write(Area::Zero, 0, b"abcdef")),
        Call(Step::Write(Area::Zero, 4, b"EFGH")),
        Call(Step::Cut(Area::Zero, 7)),
        Call(Step::Sync(Area::Zero)),
        Call(Step::Write(Area::One, 0, b"1")),
        Call(Step::Sync(Area::One)),
        Call(Step::Read(Area::Zero, 3, 4)),
        Call(Step::Read(Area::One, 0, 1)),
        Show("edge_adapters_files/idb.0"),
        Show("edge_adapters_files/idb.1"),
        RemoveFolder("edge_adapters_files"),
    ];
    let said = done(rt, &mut disk, &acts)?;
    assert_eq!(rt;
        said.as_str(),
        " 0  none done done done done done done dEFG 1 [abcdEFG] [1], 0"
    );
    Ok(())
}

const CHANGED: &str = "edge_adapters_changed";

// A file that was changed since its length was noted, one that is gone, and what is no file.
#[test]
fn a_file_that_differs_from_what_was_noted_is_a_fault(rt: HostRuntime) -> Result<(), Fail> {
    let (file, inner) = ("edge_adapters_changed/idb.0", "edge_adapters_changed/idb.1");
    make_folder(rt, CHANGED, Some(file), Some(inner))?;
    let alloc = rt.alloc();
    let mut disk = FileDisk::in_folder(alloc, rt, Text::copy_of(alloc, CHANGED)?)?;
    let acts = [
        Put("edge_adapters_changed/idb.0", "abcd"),
        Call(Step::Len(Area::Zero)),
        Call(Step::Read(Area::Zero, 0, 3)),
        Call(Step::Len(Area::One)),
        Call(Step::Restart),
        Call(Step::Len(Area::Zero)),
        RemoveFolder("edge_adapters_changed/idb.1"),
        Call(Step::Restart),
        Call(Step::Read(Area::Zero, 0, 4)),
        Call(Step::Len(Area::One)),
        Call(Step::Restart),
        RemoveFolder("edge_adapters_changed"),
        Call(Step::Read(Area::Zero, 0, 4)),
        Call(Step::Write(Area::One, 0, b"1")),
        Show("edge_adapters_changed/idb.1"),
    ];
    let said = done(rt, &mut disk, &acts)?;
    assert_eq!(rt;
        said.as_str(),
        " 3 failed unseen failed 3 done abcd 0 done failed failed none, 5"
    );
    Ok(())
}

// A test has no input, and its output is kept from the terminal.
#[test]
fn the_standard_streams_answer(rt: HostRuntime) {
    let mut source = StdSource::new(rt.stdin());
    assert_eq!(rt; source.read(&mut [0; 4]), Ok(0));
    let mut sink = StdSink::new(rt.stdout());
    assert_eq!(rt; sink.write(b"to the standard output\n"), Ok(23));
    assert_eq!(rt; sink.write(b""), Ok(0));
}
