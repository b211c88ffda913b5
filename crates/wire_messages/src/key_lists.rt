//! The keys that a message lists: those of its encryptions in the order of their first use.

ghost use Rattle.std.specs.Prelude.{◌≡◌, ◌≤◌, ◌∷◌, ◌==◌, ◌↔◌, List, MatchOption, IsTrue, length, map, false};
ghost use Rattle.std.specs.List.{list_any};
ghost use Rattle.ae_base.specs.declared.types.Enc.{Enc};
ghost use Rattle.ae_base.specs.declared.types.Enc.TheVariants as enc;
ghost use Rattle.wire_messages.specs.KeyLists.{AreTheKeysOf, lists_from, ids_of};

use crate::columns::SentColumn;
use crate::key_entries::are_few;
use crate::params::UsedParam;
use ae_base::types::{Enc, KeyId};
use wire_parts::keys::KeyPart;

/// What a message says to be encrypted or not.
pub trait Encrypted {
    /// How it is encrypted.
    ghost enc_of: { Self → Enc };

    /// How it is encrypted.
    fn enc(&self) -> Enc
        ensures { result ≡ enc_of self.now };
}

impl<'a> Encrypted for UsedParam<'a> {
    ghost enc_of = { λ p. p.enc };

    fn enc(&self) -> Enc {
        self.enc
    }
}

impl<'a> Encrypted for SentColumn<'a> {
    ghost enc_of = { λ c. c.enc };

    fn enc(&self) -> Enc {
        self.enc
    }
}

/// Whether the keys are those of the items, in the order of their first use, and have at most 128
/// entries.
pub(crate) fn are_the_keys_of<T: Encrypted>(items: &[T], keys: &[KeyPart<'_>]) -> bool
    ensures { IsTrue result ↔ AreTheKeysOf (map T.enc_of items.now) keys.now }
{
    if !are_few(keys) {
        return false;
    }
    let mut used = 0;
    for item in items {
        match used_after(keys, used, item.enc()) {
            Some(count) => used = count,
            None => return false,
        }
    }
    used == keys.len()
}

/// How many of the keys are used after one more encryption, where so many were used before it and
/// the encryption's key is one of these or the next.
fn used_after(keys: &[KeyPart<'_>], used: usize, enc: Enc) -> Option<usize>
    requires { used ≤ length keys.now }
    ensures { MatchOption result
        ((encs : List Enc) → lists_from (ids_of keys.now) used (enc ∷ encs) ≡ false)
        (λ count. (count ≤ length keys.now)
        × ((encs : List Enc) → lists_from (ids_of keys.now) used (enc ∷ encs)
        ≡ lists_from (ids_of keys.now) count encs)) }
{
    match enc {
        Enc::Plain => Some(used),
        Enc::Det(key) | Enc::Rnd(key) => used_after_key(keys, used, key),
    }
}

fn used_after_key(keys: &[KeyPart<'_>], used: usize, key: KeyId) -> Option<usize>
    requires { used ≤ length keys.now }
    ensures { MatchOption result
        ((encs : List Enc) → lists_from (ids_of keys.now) used (enc.Det key ∷ encs) ≡ false)
        (λ count. (count ≤ length keys.now)
        × ((encs : List Enc) → lists_from (ids_of keys.now) used (enc.Det key ∷ encs)
        ≡ lists_from (ids_of keys.now) count encs)) }
{
    if has_key(&keys[..used], key) {
        return Some(used);
    }
    if used < keys.len() && keys[used].id() == key {
        Some(used + 1)
    } else {
        None
    }
}

fn has_key(keys: &[KeyPart<'_>], key: KeyId) -> bool
    ensures { result ≡ list_any (λ id. id == key) (ids_of keys.now) }
{
    match keys {
        [] => false,
        [first, rest @ ..] => first.id() == key || has_key(rest, key),
    }
}
