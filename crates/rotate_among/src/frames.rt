//! Frames that are kept in memory.

ghost use Rattle.std.specs.Prelude.{◌≡◌, [], false};
ghost use Rattle.ae_edge.specs.Devices.{exposing};

use ae_edge::sinks::{Put, Sink};
use std::alloc::Global;
use std::marker::Model;

/// Frames, one after another, which contracts see as the list of their bytes.
pub struct Frames {
    bytes: Vec<u8>,
}

impl Drop for Frames {
    fn drop(self) {
        let Frames { bytes: _ } = self;
    }
}

impl Model for Frames {
    ghost use Rattle.std.specs.Prelude.{List, ℕ};

    ghost Value = { List ℕ };

    ghost view = { λ f. f.bytes.items };
}

impl Frames {
    /// None yet. It takes no memory.
    pub fn new(alloc: Global) -> Frames
        ensures { result ≡ [] }
    {
        Frames {
            bytes: Vec::new(alloc),
        }
    }

    /// Their bytes.
    pub fn as_slice(&self) -> &[u8]
        ensures { result.now ≡ self.now }
    {
        self.bytes.as_slice()
    }
}

/// A sink that fails by out of memory alone.
impl Sink for Frames {
    ghost seen = { λ f. exposing f 0 };

    ghost closed = { λ _. false };

    fn put(&mut self, bytes: &[u8]) -> Put {
        match self.bytes.extend_from_slice(bytes) {
            Ok(()) => Put::Bytes(bytes.len()),
            Err(_) => Put::OutOfMemory,
        }
    }
}
