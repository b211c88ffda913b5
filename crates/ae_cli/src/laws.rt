//! The headline as one law: a function that does nothing, whose contract is the law.

ghost use Rattle.ae_cli.specs.Headline.{Headline};
ghost use Rattle.server_core.specs.Laws.{ServedAlike};

use plaintext_laws::laws::clashes_exactly;
use server_core::laws::served_alike;

/// Over a server that begins empty, the text that `ae run` prints is plain SQL's over the same
/// values, with `EncryptionClash` exactly at the steps whose statement has no encryption typing,
/// and the frames on the tap are those of the exchange; or each is a beginning, and a device has
/// failed or memory has run out. And two servers whose cells differ by a renaming answer requests
/// that are renamed alike with replies that are renamed alike.
pub fn headline()
    ensures plain { Headline }
    ensures alike { ServedAlike }
{
    clashes_exactly();
    served_alike();
}
