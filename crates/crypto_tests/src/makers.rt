//! Names, paths and wrapped keys for tests.

// Names, paths and wrapped keys of tests, `None` where there is no such one or no memory.

use ae_base::blobs::Blob;
use ae_base::keys::{KeyPath, WrappedKey};
use ae_base::names::Name;
use ae_base::texts::Txt;
use std::alloc::Global;

pub(crate) fn name(alloc: Global, text: &str) -> Option<Name> {
    Name::from_txt(Txt::copied(alloc, text).ok()?)
}

pub(crate) fn path(alloc: Global, text: &str) -> Option<KeyPath> {
    KeyPath::from_txt(Txt::copied(alloc, text).ok()?)
}

pub(crate) fn wrapped(alloc: Global, bytes: &[u8]) -> Option<WrappedKey> {
    WrappedKey::from_blob(Blob::copied(alloc, bytes).ok()?)
}
