//! The versions of frames.

/// How messages are spelled: each row of an answer in a frame of its own, or many rows in one.
#[derive(Clone, Copy, PartialEq, Eq, Debug)]
pub enum FrameVersion {
    V1,
    V2,
}
