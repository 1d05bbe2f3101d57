// The state of a connection that isn't closed (Indexed Database API 3.0, "Database connection").
ghost use Rattle.std.specs.Prelude.{◌≡◌, ◌||◌};
ghost use Rattle.name_queues.specs.Names.{is_sent, is_taken, noted_change};
ghost use Rattle.name_queues.specs.Moves.{new_conn, is_to_tell, told, closing};

/// What became of the versionchange event of a connection.
#[derive(Clone, Copy, Drop)]
pub enum Change {
    /// It wasn't sent.
    Untold,
    /// It lies in the client's inbox.
    Sent,
    /// The client took it, and hasn't handled it.
    Taken,
    /// It was handled, or lost.
    Heard,
}

/// A connection that isn't closed.
#[derive(Clone, Copy, Drop)]
pub struct Conn {
    /// It has close pending.
    pub is_closing: bool,
    /// Once it is closed its client gets `Closed`.
    pub tells: bool,
    pub change: Change,
    /// How many of its transactions aren't finished; an upgrade isn't counted.
    pub txs: u64,
}

impl Conn {
    /// A connection that was just opened.
    pub fn new() -> Conn
        ensures { result ≡ new_conn }
    {
        Conn {
            is_closing: false,
            tells: false,
            change: Change::Untold,
            txs: 0,
        }
    }

    /// A versionchange event was sent to it and isn't handled.
    pub fn is_unheard(&self) -> bool
        ensures { result ≡ is_sent self.now.change || is_taken self.now.change }
    {
        matches!(self.change, Change::Sent | Change::Taken)
    }

    /// It gets a versionchange event where one is sent.
    pub fn is_to_tell(&self) -> bool
        ensures { result ≡ is_to_tell self.now }
    {
        !self.is_closing && matches!(self.change, Change::Untold)
    }

    /// It got one, where it gets one.
    pub fn told(self) -> Conn
        ensures { result ≡ told self }
    {
        if self.is_to_tell() {
            self.noted_change(Change::Sent)
        } else {
            self
        }
    }

    /// The versionchange event is now this.
    pub fn noted_change(self, change: Change) -> Conn
        ensures { result ≡ noted_change change self }
    {
        Conn { change, ..self }
    }

    /// It gets close pending, and loses a versionchange event that wasn't taken.
    pub fn closing(self, tells: bool) -> Conn
        ensures { result ≡ closing tells self }
    {
        let change = match self.change {
            Change::Sent => Change::Heard,
            change => change,
        };
        Conn {
            is_closing: true,
            tells,
            change,
            txs: self.txs,
        }
    }
}
