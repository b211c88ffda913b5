//! Texts that meet a condition: one type over the rule that states it.

ghost use Rattle.std.specs.Prelude.{◌≡◌, ◌↔◌, List, ℕ, IfSome, IsSome, IsTrue, encode_utf8_all};
ghost use Rattle.std.specs.Str.{bytes_eq, chars, all_scalars};
ghost use Rattle.std.specs.Cmp.Lexicographic.{nat_list_eq_equiv};
ghost use Rattle.std.specs.Cmp.{partial_equiv_from_equiv};

use crate::lists::Duplicate;
use crate::texts::Txt;
use std::alloc::AllocError;
use std::marker::{Model, PhantomData};

/// A condition on texts.
pub trait TextRule: Drop {
    /// The condition on the characters.
    ghost Asks: { List ℕ → Type 0 };

    /// Whether a text meets it.
    fn is_met(text: &str) -> bool
        ensures { IsTrue result ↔ Asks (chars text.now) };
}

/// A text that meets the condition of a rule, which contracts see as the list of its characters.
pub struct Ruled<R: TextRule> {
    text: Txt,
    rule: PhantomData<R>,
}

impl<R: TextRule> Drop for Ruled<R> {
    fn drop(self) {
        let Ruled { text: _, rule: _ } = self;
    }
}

impl<R: TextRule> Model for Ruled<R> {
    ghost use Rattle.std.specs.Prelude.{List, ℕ};

    ghost Value = { List ℕ };

    ghost view = { λ r. r.text };

    ghost invariant = { λ r. R.Asks r.text };
}

impl<R: TextRule> Ruled<R> {
    /// The text, where it meets the condition. It takes no memory.
    pub fn from_txt(text: Txt) -> Option<Ruled<R>>
        ensures text { IfSome result (λ ruled. ruled ≡ text) }
        ensures exactly { IsSome result ↔ R.Asks text }
    {
        if !R::is_met(text.as_str()) {
            return None;
        }
        Some(Ruled {
            text,
            rule: PhantomData,
        })
    }

    /// The text, by value. It takes no memory.
    pub fn into_txt(self) -> Txt
        ensures text { result ≡ self }
        ensures condition { R.Asks self }
    {
        let Ruled { text, rule: _ } = self;
        text
    }

    /// The text.
    pub fn as_txt(&self) -> &Txt
        ensures text { result.now ≡ self.now }
        ensures condition { R.Asks self.now }
    {
        &self.text
    }

    /// The text as a borrowed one, in UTF-8.
    pub fn as_str(&self) -> &str
        ensures bytes { result.now ≡ encode_utf8_all self.now }
        ensures characters { chars result.now ≡ self.now }
        ensures scalars { IsTrue (all_scalars self.now) }
        ensures condition { R.Asks self.now }
    {
        self.text.as_str()
    }
}

impl<R: TextRule> PartialEq for Ruled<R> {
    ghost eq = { bytes_eq };

    ghost laws = { partial_equiv_from_equiv nat_list_eq_equiv };

    fn eq(&self, other: &Ruled<R>) -> bool {
        self.text == other.text
    }
}

impl<R: TextRule> Eq for Ruled<R> {
    ghost laws = { nat_list_eq_equiv };
}

impl<R: TextRule> Duplicate for Ruled<R> {
    fn copy(&self) -> Result<Ruled<R>, AllocError> {
        Ok(Ruled {
            text: self.text.copy()?,
            rule: PhantomData,
        })
    }
}
