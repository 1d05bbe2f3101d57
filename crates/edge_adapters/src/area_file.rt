// The file of an area: what a file of a system does, call by call.
ghost use Rattle.std.specs.Prelude.{◌≡◌, ◌≤◌, Option, length, take, drop, IfSome, IsTrue, IfOk, OnOk, OnErr};
ghost use Rattle.disk_trait.specs.Disk.{Written, Torn, Shortened, Cut};
ghost use Rattle.edge_adapters.specs.Files.{FileState, BytesBecome, SameBytes, KeepsName};

use std::io;

/// A file with a name in a folder. Each method is one call of a system, which may fail, and may move fewer bytes than it
/// was given. A file of the system tells nothing; one in memory tells what it holds.
///
/// Places and lengths are in bytes. A file has at most 9,223,372,036,854,775,807.
pub trait AreaFile {
    /// What is known of the file.
    ghost shows: { Self → Option FileState };

    /// The length of the file that has this name now; 0 where there is none.
    fn len(&self) -> io::Result<u64>
        ensures length { IfOk result (λ n. IfSome (shows self.now) (λ file. n ≡ length file.held)) };

    /// Opens the file anew, and gives its length. Where there is none it is made, if `make` says so.
    fn open(&mut self, make: bool) -> io::Result<u64>
        ensures length { IfOk result (λ n. IfSome (shows self.new) (λ file. n ≡ length file.held)) }
        ensures bytes { BytesBecome SameBytes (shows self.old) (shows self.new) };

    /// Closes the file, where it is open.
    fn close(&mut self)
        ensures bytes { BytesBecome SameBytes (shows self.old) (shows self.new) };

    /// Reads bytes from a place on to the front of `buf`, as many as the answer says; 0 at the end of the file.
    fn read_at(&mut self, from: u64, buf: &mut [u8]) -> io::Result<usize>
        ensures fits { IfOk result (λ n. n ≤ length buf.new) }
        ensures bytes { IfOk result (λ n. IfSome (shows self.old)
            (λ file. take n buf.new ≡ take n (drop from file.held))) }
        ensures unchanged { shows self.new ≡ shows self.old };

    /// Writes bytes from the front of `bytes` at a place, as many as the answer says. After an `Err` the range of all of
    /// them may hold any bytes.
    fn write_at(&mut self, from: u64, bytes: &[u8]) -> io::Result<usize>
        requires { IfSome (shows self.old) (λ file. from ≤ length file.held) }
        ensures fits { IfOk result (λ n. n ≤ length bytes.now) }
        ensures written { IfOk result (λ n.
            BytesBecome (Written from (take n bytes.now)) (shows self.old) (shows self.new)) }
        ensures torn { OnErr result
            (BytesBecome (Torn from (length bytes.now)) (shows self.old) (shows self.new)) }
        ensures name { KeepsName (shows self.old) (shows self.new) };

    /// Cuts the file to a length. After an `Err` it may be cut or not.
    fn set_len(&mut self, len: u64) -> io::Result<()>
        requires { IfSome (shows self.old) (λ file. len ≤ length file.held) }
        ensures cut { OnOk result (BytesBecome (Shortened len) (shows self.old) (shows self.new)) }
        ensures in_doubt { OnErr result (BytesBecome (Cut len) (shows self.old) (shows self.new)) }
        ensures name { KeepsName (shows self.old) (shows self.new) };

    /// Makes sure that the disk has the file's bytes and its length.
    fn sync_data(&mut self) -> io::Result<()>
        ensures synced { OnOk result (IfSome (shows self.new) (λ file. IsTrue file.is_synced)) }
        ensures bytes { BytesBecome SameBytes (shows self.old) (shows self.new) }
        ensures name { KeepsName (shows self.old) (shows self.new) };

    /// Makes sure that the disk has the file's name, in its folder.
    fn sync_folder(&mut self) -> io::Result<()>
        ensures named { OnOk result (IfSome (shows self.new) (λ file. IsTrue file.is_named)) }
        ensures bytes { BytesBecome SameBytes (shows self.old) (shows self.new) };
}
