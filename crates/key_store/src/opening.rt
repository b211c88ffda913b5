//! Keys that are unwrapped.

ghost use Rattle.std.specs.Prelude.{◌≡◌, IfSome};
ghost use Rattle.hmac_kdf.specs.Keys.{keys_of};
ghost use Rattle.key_wrap.specs.Wrap.{unwrapping_of};
ghost use Rattle.ae_edge.specs.Devices.{Calls, Stays};
ghost use Rattle.key_store.specs.Opening.{CountsOpen, is_there, opened, Tries};

use crate::faults::OpenFault;
use ae_base::key_values::KeyValue;
use ae_edge::vaults::{MasterKey, Vault};
use aes_block::Aes256;
use hmac_kdf::CellKeys;
use std::marker::Model;

/// A column key, and the keys of its cells, which are derived from it once.
#[derive(Drop)]
pub struct OpenedKey {
    column_key: [u8; 32],
    cell_keys: CellKeys,
}

impl Model for OpenedKey {
    ghost use Rattle.std.specs.Prelude.{◌≡◌, List, ℕ};
    ghost use Rattle.hmac_kdf.specs.Keys.{keys_of};

    ghost Value = { List ℕ };

    ghost view = { λ o. o.column_key };

    ghost invariant = { λ o. o.cell_keys ≡ keys_of o.column_key };
}

impl OpenedKey {
    /// The column key with the keys of its cells.
    pub fn of(column_key: [u8; 32]) -> OpenedKey
        ensures { result ≡ column_key }
    {
        OpenedKey {
            column_key,
            cell_keys: CellKeys::derive(&column_key),
        }
    }

    /// The keys of its cells.
    pub fn cell_keys(&self) -> CellKeys
        ensures { result ≡ keys_of self.now }
    {
        self.cell_keys.copy()
    }
}

/// The result of opening a value of a column key.
#[derive(Drop)]
pub enum Tried<A> {
    Opened(A),
    /// It gives no key. The vault has its path, or hasn't.
    Shut { is_there: bool },
}

/// Opens a value of a column key by a call on the vault.
pub(crate) fn open<V: Vault>(vault: &mut V, value: &KeyValue) -> Result<Tried<[u8; 32]>, OpenFault>
    ensures opens { IfSome (V.seen vault.old).content
        (λ map. Tries result (opened map value.now) (is_there map value.now)) }
    ensures asked { Calls Stays (CountsOpen result) (V.seen vault.old) (V.seen vault.new) }
{
    match vault.master(value.path.as_txt()) {
        MasterKey::Found(master) => match unwrapped(&master, value.wrapped.as_slice()) {
            Some(key) => Ok(Tried::Opened(key)),
            None => Ok(Tried::Shut { is_there: true }),
        },
        MasterKey::NotThere => Ok(Tried::Shut { is_there: false }),
        MasterKey::Failed => Err(OpenFault::VaultFault),
    }
}

/// The key that some bytes wrap, where they are 40 and unwrap.
#[tactic(auto, unfolding(key_wrap::specs::Wrap::unwrapping_of))]
fn unwrapped(master: &[u8; 32], wrapped: &[u8]) -> Option<[u8; 32]>
    ensures { result ≡ unwrapping_of master.now wrapped.now }
{
    if wrapped.len() != 40 {
        return None;
    }
    let mut bytes = [0; 40];
    bytes.copy_from_slice(wrapped);
    key_wrap::unwrap(&Aes256::new(master), &bytes)
}
