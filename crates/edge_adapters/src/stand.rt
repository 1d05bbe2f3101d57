// How the length that was noted of an area stands to its file.

/// How an area stands.
#[derive(Clone, Copy)]
pub(crate) enum Stand {
    /// Its length couldn't be looked at: each call fails until a restart can.
    Unseen,
    /// Its length was noted. The file isn't open, and may have changed since.
    Closed,
    /// Its file is open and has the noted length.
    Open,
}
