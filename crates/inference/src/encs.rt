//! The encryptions that a typing gives to parameters.

ghost use Rattle.std.specs.Prelude.{◌≡◌, OnOk, if◌then◌else◌};
ghost use Rattle.ae_base.specs.declared.types.Enc.TheVariants.{Plain};
ghost use Rattle.enc_types.specs.SiteLaws.{site_eq};
ghost use Rattle.enc_types.specs.declared.sites.Site.{Site};
ghost use Rattle.inference.specs.Found.{enc_in};

use ae_base::types::Enc;
use enc_types::sites::Site;
use std::alloc::{AllocError, Global};
use std::collections::HashMap;

/// The encryptions that were found so far. Where none was found a site is plain.
pub(crate) struct Encs {
    found: HashMap<Site, Enc>,
}

impl Drop for Encs {
    fn drop(self) {
        let Encs { found: _ } = self;
    }
}

impl Encs {
    pub(crate) fn new(alloc: Global) -> Encs
        ensures { (site : Site) → enc_in result.found site ≡ Plain }
    {
        Encs {
            found: HashMap::new(alloc),
        }
    }

    pub(crate) fn get(&self, site: Site) -> Enc
        ensures { result ≡ enc_in self.now.found site }
    {
        self.found.get(&site).copied().unwrap_or(Enc::Plain)
    }

    pub(crate) fn set(&mut self, site: Site, enc: Enc) -> Result<(), AllocError>
        ensures { OnOk result ((other : Site)
            → enc_in self.new.found other
            ≡ (if site_eq site other then enc else enc_in self.old.found other)) }
    {
        self.found.insert(site, enc)?;
        Ok(())
    }
}
