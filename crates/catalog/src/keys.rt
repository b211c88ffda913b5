//! The entries of a catalog for keys.

ghost use Rattle.std.specs.Prelude.{◌≡◌};
ghost use Rattle.std.specs.Option.{option_copied};
ghost use Rattle.catalog.specs.Catalogs.{is_value_under, has_value, other_value};

use ae_base::keys::{EncryptedValue, KeyPath};
use ae_base::lists::Duplicate;
use ae_base::names::Name;
use ae_base::one_or_two::OneOrTwo;
use ae_base::types::KeyId;
use std::alloc::AllocError;

/// A column master key, and the path of its bytes in a key store.
pub struct MasterKey {
    pub name: Name,
    pub path: KeyPath,
}

impl Drop for MasterKey {
    fn drop(self) {
        let MasterKey { name: _, path: _ } = self;
    }
}

/// A column encryption key: its number, its name, and its values in the order in which they were
/// added.
pub struct ColumnKey {
    pub id: KeyId,
    pub name: Name,
    pub values: OneOrTwo<EncryptedValue>,
}

impl Drop for ColumnKey {
    fn drop(self) {
        let ColumnKey {
            id: _,
            name: _,
            values: _,
        } = self;
    }
}

/// Whether a value is under the master key of a name.
pub(crate) fn is_value_under(value: &EncryptedValue, master: &Name) -> bool
    ensures { result ≡ is_value_under master.now value.now }
{
    value.master == *master
}

/// Whether one of the values is under the master key of a name.
pub(crate) fn has_value(values: &OneOrTwo<EncryptedValue>, master: &Name) -> bool
    ensures { result ≡ has_value master.now values.now }
{
    if is_value_under(&values.first, master) {
        return true;
    }
    match &values.second {
        Some(second) => is_value_under(second, master),
        None => false,
    }
}

/// The value beside the one under the master key of a name. It takes no memory.
pub(crate) fn other_value<'a>(
    values: &'a OneOrTwo<EncryptedValue>,
    master: &Name,
) -> Option<&'a EncryptedValue>
    ensures { option_copied result ≡ other_value master.now values.now }
{
    if is_value_under(&values.first, master) {
        values.second.as_ref()
    } else {
        Some(&values.first)
    }
}

impl Duplicate for MasterKey {
    fn copy(&self) -> Result<MasterKey, AllocError> {
        Ok(MasterKey {
            name: self.name.copy()?,
            path: self.path.copy()?,
        })
    }
}

impl Duplicate for ColumnKey {
    fn copy(&self) -> Result<ColumnKey, AllocError> {
        Ok(ColumnKey {
            id: self.id,
            name: self.name.copy()?,
            values: self.values.copy()?,
        })
    }
}
