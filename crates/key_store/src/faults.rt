//! Why a key is not opened.

use ae_base::keys::KeyPath;
use ae_base::names::Name;
use std::alloc::AllocError;

/// Why a column key has no keys for its cells.
#[derive(Drop)]
pub enum KeyFault {
    /// The vault has no master key at the path.
    NoMasterKey(KeyPath),
    /// The master key doesn't unwrap the column key of the name.
    KeyRefused(Name),
}

/// Why a call gives no keys.
#[derive(Drop)]
pub enum OpenFault {
    /// There are none.
    Fault(KeyFault),
    /// A call on the vault failed.
    VaultFault,
    OutOfMemory,
}

impl From<AllocError> for OpenFault {
    ghost use Rattle.std.specs.Prelude.{◌≡◌};
    ghost use Rattle.key_store.specs.declared.faults.OpenFault.TheVariants.{OutOfMemory};

    ghost from_gives = { λ _ fault. fault ≡ OutOfMemory };

    fn from(_error: AllocError) -> OpenFault {
        OpenFault::OutOfMemory
    }
}
