// What is told before a request runs.

/// Is told of each request before it runs, and says nothing back.
pub trait Gate {
    /// The request with this number, in this transaction of this client, is next.
    fn at(&self, client: u32, tx: u64, request: u32);
}

/// The gate that does nothing: it returns at once.
#[derive(Clone, Copy, Debug)]
pub struct OpenGate;

impl Gate for OpenGate {
    fn at(&self, _client: u32, _tx: u64, _request: u32) {}
}
