// The real outside: standard input, standard output, and a disk over two files of a folder, as the traits that every
// layer above stands on.
//
// None of them tells its content. What is proved of them is that each call of the system that fails is a counted fault,
// and that `FileDisk` makes the right calls: over files that tell their bytes, a read gives them, a write and a cut that
// answer `Ok` are done whole, and a sync has made sure of them.
#![tactic(auto)]

mod area_file;
mod file_area;
mod file_disk;
#[cfg(test)]
mod memory_file;
mod stand;
mod streams;
mod system_file;
#[cfg(test)]
mod tests;

pub use area_file::AreaFile;
pub use file_disk::FileDisk;
pub use streams::{StdSink, StdSource};
pub use system_file::SystemFile;
