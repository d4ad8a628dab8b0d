//! The bytes of a connection that were taken and belong to no request yet.
ghost use Rattle.std.specs.Prelude.{◌≡◌, ◌+◌, ◌≤◌, ◌<◌, [], true, length, drop, OnErr, IfOk, OnOk};
ghost use Rattle.link_trait.specs.Link.{HasCause, Goes};
ghost use Rattle.http_session.specs.Limits.{most_head_bytes};
ghost use Rattle.http_session.specs.Pulled.{FillStep};

use crate::head::MAX_HEAD_BYTES;
use link_trait::{Failed, Link};
use std::alloc::{AllocError, Global};
use std::marker::Model;

/// Room for one head, of whose bytes those before `end` are held.
#[derive(Drop)]
pub(crate) struct Buffer {
    bytes: Vec<u8>,
    end: usize,
}

impl Model for Buffer {
    ghost use Rattle.std.specs.Prelude.{◌≡◌, ◌≤◌, ℕ, List, length, take};

    ghost Value = { List ℕ };

    ghost use Rattle.http_session.specs.Limits.{most_head_bytes};

    ghost view = { λ a. take a.end a.bytes.items };

    ghost invariant = { λ a. (a.end ≤ most_head_bytes) × (length a.bytes.items ≡ most_head_bytes) };
}

impl Buffer {
    pub(crate) fn new(alloc: Global) -> Result<Buffer, AllocError>
        ensures { IfOk result (λ buffer. buffer ≡ []) }
    {
        let bytes = vec![in alloc; 0; MAX_HEAD_BYTES]?;
        Ok(Buffer { bytes, end: 0 })
    }

    /// The bytes held.
    pub(crate) fn held(&self) -> &[u8]
        ensures value { result.now ≡ self.now }
        ensures bound { length result.now ≤ most_head_bytes }
    {
        &self.bytes[..self.end]
    }

    /// Lets the first bytes go.
    pub(crate) fn consume(&mut self, count: usize)
        requires { count ≤ length self.old }
        ensures { self.new ≡ drop count self.old }
    {
        self.bytes.copy_within(count..self.end, 0);
        self.end -= count;
    }

    /// Reads more bytes to the end of those held. 0 is the end of input.
    pub(crate) fn fill<L: Link>(&mut self, link: &mut L) -> Result<usize, Failed>
        requires room { length self.old < most_head_bytes }
        requires open { L.is_open link.old ≡ true }
        ensures open { OnOk result (L.is_open link.new ≡ true) }
        ensures grows { IfOk result (λ count. length self.new ≡ length self.old + count) }
        ensures kept { OnErr result (self.new ≡ self.old) }
        ensures told { Goes (FillStep result self.old self.new) (L.told link.old) (L.told link.new) }
        ensures cause { HasCause (L.faults link.old) (L.faults link.new) result }
    {
        match link.read(&mut self.bytes[self.end..]) {
            Ok(count) => {
                self.end += count;
                Ok(count)
            }
            Err(Failed) => Err(Failed),
        }
    }
}
