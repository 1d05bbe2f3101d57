// A payload, ready to be written.
ghost use Rattle.std.specs.Prelude.{◌≡◌, ◌+◌, ◌<◌, ◌≤◌, ◌^◌, ◌++◌, length, drop, vec_len, IfOk, IfErr};
ghost use Rattle.gate_areas.specs.Frames.{frame_of};

use idb_base::NoMemory;
use std::alloc::{AllocError, Global};
use std::marker::Model;

const CLOSED: u8 = 0;

/// A payload with the bytes that are written round it, so that an append takes no memory. Callers see it as the payload.
#[derive(Drop)]
pub struct Frame {
    bytes: Vec<u8>,
}

impl Model for Frame {
    ghost use Rattle.std.specs.Prelude.{List, ℕ};
    ghost use Rattle.gate_areas.specs.Frames.{payload_of, IsFramed};

    ghost Value = { List ℕ };

    ghost view = { λ f. payload_of f.bytes.items };

    ghost invariant = { λ f. IsFramed f.bytes.items };
}

impl Frame {
    /// The frame of a payload, of which it keeps a copy.
    pub fn new(alloc: Global, payload: &[u8]) -> Result<Frame, NoMemory>
        ensures { IfOk result (λ frame. frame ≡ payload.now) }
    {
        Ok(Frame {
            bytes: framed(alloc, payload)?,
        })
    }

    /// The frame of a payload that stands behind eight bytes of room, whatever they are. Nothing is copied where the
    /// list has memory for one byte more. Where memory runs out the bytes are given back.
    pub fn from_vec(bytes: Vec<u8>) -> Result<Frame, Vec<u8>>
        requires { 8 ≤ vec_len bytes }
        ensures framed { IfOk result (λ frame. frame ≡ drop 8 bytes.items) }
        ensures given_back { IfErr result (λ left. left.items ≡ bytes.items) }
    {
        let mut bytes = bytes;
        let len = (bytes.len() - 8) as u64;
        match bytes.push(CLOSED) {
            Ok(()) => {
                put_front(&mut bytes, &len.to_be_bytes());
                Ok(Frame { bytes })
            }
            Err(_) => Err(bytes),
        }
    }

    /// The payload.
    pub fn payload(&self) -> &[u8]
        ensures { result.now ≡ self.now }
    {
        &self.bytes[8..self.bytes.len() - 1]
    }

    /// Gives the list back: eight bytes of room, and the payload behind them.
    pub fn into_vec(self) -> Vec<u8>
        ensures payload { drop 8 result.items ≡ self }
        ensures room { 8 ≤ vec_len result }
    {
        let mut bytes = self.bytes;
        bytes.truncate(bytes.len() - 1);
        bytes
    }

    // All that is written: the length, the payload and a closed gate.
    pub(crate) fn as_slice(&self) -> &[u8]
        ensures bytes { result.now ≡ frame_of self.now }
        ensures size { length self.now < 2 ^ 64 }
        ensures length { length result.now ≡ length self.now + 9 }
    {
        self.bytes.as_slice()
    }
}

fn framed(alloc: Global, payload: &[u8]) -> Result<Vec<u8>, AllocError>
    ensures { IfOk result (λ bytes. bytes.items ≡ frame_of payload.now) }
{
    let mut bytes = Vec::with_capacity(alloc, payload.len() + 9)?;
    bytes.extend_from_slice(&(payload.len() as u64).to_be_bytes())?;
    bytes.extend_from_slice(payload)?;
    bytes.push(CLOSED)?;
    Ok(bytes)
}

// Writes over the first bytes.
fn put_front(bytes: &mut Vec<u8>, front: &[u8])
    requires { length front.now ≤ vec_len bytes.old }
    ensures { bytes.new.items ≡ front.now ++ drop (length front.now) bytes.old.items }
{
    bytes[0..front.len()].copy_from_slice(front);
}
