//! Steps of a chain.

use enc_types::rules::Rule;
use enc_types::sites::Site;

/// A rule by which an encryption went on from one site to another.
#[derive(Clone, Copy, PartialEq, Eq, Debug)]
pub struct Step {
    pub rule: Rule,
    pub from: Site,
    pub to: Site,
}
