// The program `idbrun`: it gives the words, standard input, standard output and the disk over the files `idb.0` and `idb.1` of the
// current folder to `run_words`, prints the line of the status on standard error, and ends with the status's number.
#![tactic(auto)]

use clone_values::Text;
use edge_adapters::{FileDisk, StdSink, StdSource, SystemFile};
use edge_traits::OpenGate;
use idb_base::{GREATEST_LENGTH, NoMemory};
use script_runner::{Ended, run_words};
use std::alloc::Global;
use std::env;
use std::env::Env;
use std::io::ErrorKind;
use std::process::ExitCode;

// The words after the program's name. Where one of them is no text, or longer than any text, there are none, which is no command.
fn words(alloc: Global, rt: &(impl Env + Alloc<A = Global>)) -> Result<Vec<Text>, NoMemory> {
    let mut words = Vec::new(alloc);
    match env::args(rt) {
        Ok(args) => {
            for arg in args.skip(1) {
                if arg.len() > GREATEST_LENGTH {
                    return Ok(Vec::new(alloc));
                }
                words.push(Text::from_string(alloc, arg)?)?;
            }
        }
        Err(e) if e.kind() == ErrorKind::OutOfMemory => return Err(NoMemory),
        Err(_) => {}
    }
    Ok(words)
}

// What the program is given: its words, and the disk over the files of the current folder. No file is made yet.
fn given(rt: HostRuntime) -> Result<(Vec<Text>, FileDisk<SystemFile<HostRuntime>>), NoMemory> {
    let words = words(rt.alloc(), &rt)?;
    let folder = Text::copy_of(rt.alloc(), ".")?;
    Ok((words, FileDisk::in_folder(rt.alloc(), rt, folder)?))
}

fn main(rt: HostRuntime) -> ExitCode {
    let (words, disk) = match given(rt) {
        Ok(given) => given,
        Err(_) => {
            let _ = rt.eprintln("idbrun: no memory");
            return ExitCode::from(9);
        }
    };
    let mut source = StdSource::new(rt.stdin());
    let mut sink = StdSink::new(rt.stdout());
    let Ended { status, disk: _ } = run_words(
        &rt,
        rt.alloc(),
        words.as_slice(),
        &mut source,
        &mut sink,
        disk,
        &OpenGate,
    );
    if !status.is_done() {
        let _ = eprintln!(rt; "{status}");
    }
    ExitCode::from(status.number())
}
