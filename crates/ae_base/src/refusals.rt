//! A fault, or out of memory.

use crate::faults::SqlFault;
use std::alloc::AllocError;

/// Why a call gives no value: a fault, or out of memory.
#[derive(Drop)]
pub enum Refusal<F = SqlFault> {
    /// The fault.
    Fault(F),
    OutOfMemory,
}

impl<F> From<AllocError> for Refusal<F> {
    ghost use Rattle.std.specs.Prelude.{◌≡◌};
    ghost use Rattle.ae_base.specs.declared.refusals.Refusal.TheVariants.{OutOfMemory};

    ghost from_gives = { λ _ refusal. refusal ≡ OutOfMemory };

    fn from(_error: AllocError) -> Refusal<F> {
        Refusal::OutOfMemory
    }
}
