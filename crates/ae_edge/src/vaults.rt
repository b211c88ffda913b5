//! Vaults of master keys.

ghost use Rattle.ae_edge.specs.Devices.{Calls, Device, lent};
ghost use Rattle.ae_edge.specs.Vaults.{CountsMaster, KeyMap, LooksUp};

use ae_base::texts::Txt;

/// What a call on a vault answers.
#[derive(Clone, Copy)]
pub enum MasterKey {
    /// The master key at the path.
    Found([u8; 32]),
    /// The vault hasn't this path.
    NotThere,
    /// The call failed.
    Failed,
}

/// Where master keys are kept.
pub trait Vault {
    /// What is seen of it. Its content is the keys beside their paths. Calls leave them as they are.
    ghost seen: { Self → Device KeyMap };

    /// Looks up the master key at a path.
    fn master(&mut self, path: &Txt) -> MasterKey
        ensures { Calls (LooksUp path.now result) (CountsMaster result)
            (seen self.old) (seen self.new) };
}

/// A borrowed vault.
impl<V: Vault> Vault for &mut V {
    ghost seen = { λ v. lent (V.seen v.now) v.ghost_name };

    fn master(&mut self, path: &Txt) -> MasterKey {
        (**self).master(path)
    }
}
