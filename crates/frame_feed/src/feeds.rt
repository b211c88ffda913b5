//! Streams of frames in pieces.

ghost use Rattle.std.specs.Prelude.{◌≡◌, true, false, OnOk, OnErr, IsOk};
ghost use Rattle.frame_feed.specs.Feeding.{StandsWhole, empty_feed, with_piece, behind, rest_of};
ghost use Rattle.frame_feed.specs.Steps.{Steps, after};

use crate::messages::{Message, decode};
use bytes::BytesMut;
use std::alloc::{AllocError, Global};
use std::marker::Model;
use wire_frames::{Decoded, Way};

/// The frames of one direction, from bytes that come in any pieces. Contracts see the direction,
/// the place of the first byte that is held, the bytes held, and whether a frame was refused.
/// Places past 2^64 - 1 are told as that.
pub struct FrameFeed {
    way: Way,
    at: u64,
    held: BytesMut,
    failed: bool,
}

impl Drop for FrameFeed {
    fn drop(self) {
        let FrameFeed {
            way: _,
            at: _,
            held: _,
            failed: _,
        } = self;
    }
}

impl Model for FrameFeed {
    ghost use Rattle.std.specs.Prelude.{◌≡◌, true};
    ghost use Rattle.wire_frames.specs.Decoding.{has_head};
    ghost use Rattle.wire_frames.specs.Frames.{IsRefused};
    ghost use Rattle.frame_feed.specs.Feeding.{Feeding, SpellsMessage};

    ghost Value = { Feeding };

    ghost view = { λ f. record { way = f.way; at = f.at; held = f.held.items; failed = f.failed } };

    ghost invariant = { λ f. f.failed ≡ true
        → IsRefused (has_head f.way) (SpellsMessage f.way) f.held.items };
}

/// What stands next.
#[derive(Drop)]
pub enum Next<'a> {
    /// A message, the place of its first byte, and how many bytes its frame has.
    One {
        place: u64,
        used: usize,
        message: Message<'a>,
    },
    /// Less than a frame, or nothing.
    NotYet,
    /// What no frame begins with, or a frame that spells nothing, from that place on.
    Bad {
        place: u64,
    },
    /// A frame for whose message no memory is left.
    OutOfMemory,
}

impl FrameFeed {
    /// No bytes yet. It takes no memory.
    pub fn new(alloc: Global, way: Way) -> FrameFeed
        ensures { result ≡ empty_feed way }
    {
        FrameFeed {
            way,
            at: 0,
            held: BytesMut::new(alloc),
            failed: false,
        }
    }

    /// Takes the next piece of the stream. Out of memory, nothing changes. Behind a frame that
    /// was refused no byte is wanted, and none is taken.
    pub fn feed(&mut self, piece: &[u8]) -> Result<(), AllocError>
        ensures fed { OnOk result (self.new ≡ with_piece self.old piece.now) }
        ensures kept { OnErr result (self.new ≡ self.old) }
        ensures failed { self.old.failed ≡ true → IsOk result }
    {
        if self.failed {
            return Ok(());
        }
        self.held.extend_from_slice(piece)
    }

    /// What stands next: a message, where it is whole, whose parts borrow from the bytes that are
    /// held. `advance` lets them go, once the message is done with.
    ///
    /// A body that comes in many pieces is read once: until all the bytes are there that the header
    /// states, the header alone is read. So a stream costs what it has bytes, and for each piece
    /// the six of a header.
    pub fn front(&self, alloc: Global) -> Next<'_>
        ensures { Steps result self.now (after result self.now) }
    {
        if self.failed {
            return Next::Bad { place: self.at };
        }
        match decode(alloc, self.way, self.held.as_slice()) {
            Decoded::One(message, used) => Next::One {
                place: self.at,
                used,
                message,
            },
            Decoded::NotYet => Next::NotYet,
            Decoded::Bad => Next::Bad { place: self.at },
            Decoded::OutOfMemory => Next::OutOfMemory,
        }
    }

    /// Lets go of the bytes of the message that stands next, and of nothing else: so many bytes are
    /// its frame.
    pub fn advance(&mut self, used: usize)
        requires waits { self.old.failed ≡ false }
        requires whole { StandsWhole used self.old }
        ensures { self.new ≡ behind self.old used }
    {
        self.held.advance(used);
        self.at = self.at.saturating_add(used as u64);
    }

    /// What stands next, and borrows nothing.
    fn own_front(&self, alloc: Global) -> Next<'static>
        ensures { Steps result self.now (after result self.now) }
    {
        match self.front(alloc) {
            Next::One {
                place,
                used,
                message,
            } => match message.to_own(alloc) {
                Ok(message) => Next::One {
                    place,
                    used,
                    message,
                },
                Err(_) => Next::OutOfMemory,
            },
            Next::NotYet => Next::NotYet,
            Next::Bad { place } => Next::Bad { place },
            Next::OutOfMemory => Next::OutOfMemory,
        }
    }

    /// The next message, where it is whole, as one that borrows nothing; its bytes are let go. A
    /// feed that met what is no frame answers so from then on. In the other cases nothing changes.
    pub fn next(&mut self, alloc: Global) -> Next<'static>
        ensures { Steps result self.old self.new }
    {
        match self.own_front(alloc) {
            Next::One {
                place,
                used,
                message,
            } => {
                self.advance(used);
                Next::One {
                    place,
                    used,
                    message,
                }
            }
            Next::NotYet => Next::NotYet,
            Next::Bad { place } => {
                self.failed = true;
                Next::Bad { place }
            }
            Next::OutOfMemory => Next::OutOfMemory,
        }
    }

    /// At the end of the stream: the place of the frame that isn't whole, where bytes are held.
    pub fn finish(&self) -> Option<u64>
        ensures { result ≡ rest_of self.now }
    {
        if self.held.is_empty() {
            None
        } else {
            Some(self.at)
        }
    }
}
