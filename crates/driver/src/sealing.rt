//! Parameters as they are sent: plain, or sealed under their keys.

ghost use Rattle.std.specs.Prelude.{◌≡◌, List, ℕ, true};
ghost use Rattle.ae_base.specs.Values.{value_is_within};
ghost use Rattle.ae_base.specs.declared.atoms.AtomOf.{AtomOf};
ghost use Rattle.key_store.specs.Stores.{IsOf};
ghost use Rattle.conversation.specs.Cells.{det_atom};
ghost use Rattle.conversation.specs.declared.faults.DriverFault.{DriverFault};
ghost use Rattle.conversation.specs.Devices.{Devices, KeyLeads, Leads};
ghost use Rattle.conversation.specs.Talk.{Talk, Draws};
ghost use Rattle.conversation.specs.Turns.{on_result, opening_by, drawing, sealing_value};
ghost use Rattle.driver.specs.Listed.{IsListed};

use crate::describing::meta_of;
use crate::opening::open_key;
use crate::parts::{det_part, plain_part, rnd_part};
use ae_base::keys::{KeyMeta, KeyPath};
use ae_base::types::{Enc, Ty};
use ae_base::values::Value;
use ae_edge::entropies::{Draw, Entropy};
use ae_edge::vaults::Vault;
use conversation::faults::{DriverFault, Halt};
use hmac_kdf::CellKeys;
use key_store::KeyStore;
use std::alloc::Global;
use wire_parts::atoms::AtomPart;

/// Draws 16 bytes.
fn draw<E: Entropy>(entropy: &mut E) -> Result<[u8; 16], Halt>
    ensures { (beside : Devices) (f : List ℕ → Talk)
        → Leads result (Draws f) f
        (record beside { entropy = E.seen entropy.old })
        (record beside { entropy = E.seen entropy.new }) }
{
    match entropy.draw() {
        Draw::Drawn(bytes) => Ok(bytes),
        Draw::Failed => Err(Halt::EntropyFault),
    }
}

fn seal_always<'r, V: Vault>(
    alloc: Global,
    store: &mut KeyStore,
    vault: &mut V,
    trusted: &[KeyPath],
    meta: &KeyMeta,
    ty: &Ty,
    value: &Value,
) -> Result<Result<AtomPart<'r>, DriverFault>, Halt>
    requires of_vault { IsOf (V.seen vault.old).content store.old }
    requires fits { value_is_within value.now ty.now ≡ true }
    ensures leads { (beside : Devices) (k : AtomOf (List ℕ) → Talk) (fails : DriverFault → Talk)
        → KeyLeads result
        (opening_by trusted.now meta.now (on_result (λ keys. k
        (det_atom keys ty.now value.now)) fails))
        (on_result k fails)
        (record beside { vault = V.seen vault.old })
        (record beside { vault = V.seen vault.new }) }
    ensures of_vault { IsOf (V.seen vault.new).content store.new }
{
    let opened = match open_key(store, vault, trusted, meta) {
        Ok(opened) => opened,
        Err(halt) => return Err(halt),
    };
    let keys = match opened {
        Ok(keys) => keys,
        Err(fault) => return Ok(Err(fault)),
    };
    match det_part(alloc, &keys, ty, value) {
        Ok(part) => Ok(Ok(part)),
        Err(_) => Err(Halt::OutOfMemory),
    }
}

/// The cell of a value under the next 16 bytes that are drawn, or NULL.
fn seal_drawn<'r, E: Entropy>(
    alloc: Global,
    entropy: &mut E,
    keys: &CellKeys,
    ty: &Ty,
    value: &Value,
) -> Result<AtomPart<'r>, Halt>
    requires { value_is_within value.now ty.now ≡ true }
    ensures { (beside : Devices) (k : AtomOf (List ℕ) → Talk)
        → Leads result (drawing keys.now ty.now value.now k) k
        (record beside { entropy = E.seen entropy.old })
        (record beside { entropy = E.seen entropy.new }) }
{
    let datum = match value {
        Value::Null => return Ok(AtomPart::null()),
        Value::Is(datum) => datum,
    };
    let iv = match draw(entropy) {
        Ok(iv) => iv,
        Err(halt) => return Err(halt),
    };
    match rnd_part(alloc, keys, ty, datum, &iv) {
        Ok(part) => Ok(part),
        Err(_) => Err(Halt::OutOfMemory),
    }
}

fn seal_randomly<'r, V: Vault, E: Entropy>(
    alloc: Global,
    store: &mut KeyStore,
    vault: &mut V,
    entropy: &mut E,
    trusted: &[KeyPath],
    meta: &KeyMeta,
    ty: &Ty,
    value: &Value,
) -> Result<Result<AtomPart<'r>, DriverFault>, Halt>
    requires of_vault { IsOf (V.seen vault.old).content store.old }
    requires fits { value_is_within value.now ty.now ≡ true }
    ensures leads { (k : AtomOf (List ℕ) → Talk) (fails : DriverFault → Talk)
        → Leads result (opening_by trusted.now meta.now (on_result
        (λ keys. drawing keys ty.now value.now k) fails))
        (on_result k fails)
        (record { entropy = E.seen entropy.old; vault = V.seen vault.old })
        (record { entropy = E.seen entropy.new; vault = V.seen vault.new }) }
    ensures of_vault { IsOf (V.seen vault.new).content store.new }
{
    let opened = match open_key(store, vault, trusted, meta) {
        Ok(opened) => opened,
        Err(halt) => return Err(halt),
    };
    let keys = match opened {
        Ok(keys) => keys,
        Err(fault) => return Ok(Err(fault)),
    };
    match seal_drawn(alloc, entropy, &keys, ty, value) {
        Ok(part) => Ok(Ok(part)),
        Err(halt) => Err(halt),
    }
}

/// A value as it is sent.
pub fn seal_value<'r, V: Vault, E: Entropy>(
    alloc: Global,
    store: &mut KeyStore,
    vault: &mut V,
    entropy: &mut E,
    trusted: &[KeyPath],
    metas: &[KeyMeta],
    enc: Enc,
    ty: &Ty,
    value: &Value,
) -> Result<Result<AtomPart<'r>, DriverFault>, Halt>
    requires listed { IsListed metas.now enc }
    requires of_vault { IsOf (V.seen vault.old).content store.old }
    requires fits { value_is_within value.now ty.now ≡ true }
    ensures leads { (k : AtomOf (List ℕ) → Talk) (fails : DriverFault → Talk)
        → Leads result (sealing_value trusted.now metas.now enc ty.now value.now k fails)
        (on_result k fails)
        (record { entropy = E.seen entropy.old; vault = V.seen vault.old })
        (record { entropy = E.seen entropy.new; vault = V.seen vault.new }) }
    ensures of_vault { IsOf (V.seen vault.new).content store.new }
{
    match enc {
        Enc::Plain => match plain_part(value, ty) {
            Ok(part) => Ok(Ok(part)),
            Err(_) => Err(Halt::OutOfMemory),
        },
        Enc::Det(id) => {
            seal_always(alloc, store, vault, trusted, meta_of(metas, id), ty, value)
        },
        Enc::Rnd(id) => {
            seal_randomly(
                alloc,
                store,
                vault,
                entropy,
                trusted,
                meta_of(metas, id),
                ty,
                value,
            )
        }
    }
}
