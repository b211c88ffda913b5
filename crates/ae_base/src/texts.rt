//! Texts that contracts see as characters.

ghost use Rattle.std.specs.Prelude.{◌≡◌, List, ℕ, IfOk, IsTrue, length, string_bytes, encode_utf8_all, refl};
ghost use Rattle.std.specs.Str.{bytes_eq, chars, all_scalars};
ghost use Rattle.std.specs.Cmp.Lexicographic.{nat_list_eq_equiv};
ghost use Rattle.std.specs.Cmp.{partial_equiv_from_equiv};

use crate::lists::Duplicate;
use std::alloc::{AllocError, Global};
use std::marker::Model;

/// A text, which contracts see as the list of its characters.
pub struct Txt {
    text: String,
}

impl Drop for Txt {
    fn drop(self) {
        let Txt { text: _ } = self;
    }
}

impl Model for Txt {
    ghost Value = { List ℕ };

    ghost view = { λ t. chars (string_bytes t.text) };
}

impl Txt {
    /// The text of a string. It takes no memory.
    pub fn from_string(text: String) -> Txt
        ensures { result ≡ chars (string_bytes text) }
    {
        Txt { text }
    }

    /// A copy of a borrowed text.
    pub fn copied(alloc: Global, text: &str) -> Result<Txt, AllocError>
        ensures { IfOk result (λ copy. copy ≡ chars text.now) }
    {
        Ok(Txt {
            text: String::from_str(alloc, text)?,
        })
    }

    /// The text as a borrowed one, in UTF-8.
    pub fn as_str(&self) -> &str
        ensures bytes { result.now ≡ encode_utf8_all self.now }
        ensures characters { chars result.now ≡ self.now }
        ensures scalars { IsTrue (all_scalars self.now) }
    {
        self.text.as_str()
    }

    /// How many characters the text has.
    pub fn char_count(&self) -> usize
        ensures { result ≡ length self.now }
    {
        char_count(self.as_str())
    }
}

/// How many characters a borrowed text has.
pub fn char_count(text: &str) -> usize
    ensures { result ≡ length (chars text.now) }
{
    text.chars().count()
}

/// How many bytes a borrowed text has.
pub fn byte_count(text: &str) -> usize
    ensures { result ≡ length (encode_utf8_all (chars text.now)) }
{
    text.len()
}

impl PartialEq for Txt {
    ghost eq = { bytes_eq };

    ghost laws = { partial_equiv_from_equiv nat_list_eq_equiv };

    fn eq(&self, other: &Txt) -> bool {
        self.text == other.text
    }
}

impl Eq for Txt {
    ghost laws = { nat_list_eq_equiv };
}

impl Duplicate for Txt {
    fn copy(&self) -> Result<Txt, AllocError> {
        Ok(Txt {
            text: self.text.clone()?,
        })
    }
}
