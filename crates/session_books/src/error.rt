// Why a transaction is not entered, and a book not flushed.

/// Why a transaction is not entered, and a book not flushed.
#[derive(Clone, Copy, Debug, PartialEq, Eq)]
pub enum EnterError {
    /// The disk failed in this call, as a batch was written. Its commits are found on reopening all together or not at all.
    DiskFault,
    /// Memory ran out.
    NoMemory,
}
