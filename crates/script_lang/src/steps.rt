//! The steps of a script.

use ae_base::batches::Batch;
use ae_base::keys::KeyPath;
use ae_base::names::Name;
use ae_base::sessions::SessionId;

/// What a session does in a turn.
#[derive(Drop)]
pub enum Act {
    /// A batch is described and executed.
    Whole(Batch),
    /// Half a batch is described.
    Half(Batch),
    /// What is pending is executed.
    Execute,
    /// A table's rows move to another one, which takes its place and its name.
    Rotate { old: Name, new: Name },
}

/// A step of a script.
#[derive(Drop)]
pub enum Step {
    /// A turn of a session.
    Turn { session: SessionId, act: Act },
    /// From here on the path of a master key is trusted, in all sessions.
    Trust(KeyPath),
}
