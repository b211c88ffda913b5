//! Texts that meet a condition, own or borrowed, which contracts see as the list of their
//! characters.

ghost use Rattle.std.specs.Prelude.{◌≡◌, IfOk, IfSome, IsSome, ◌↔◌, IsTrue, encode_utf8_all};
ghost use Rattle.std.specs.Str.{chars, all_scalars};
ghost use Rattle.ae_base.specs.Names.{IsParamName};
ghost use Rattle.wire_parts.specs.Texts.{IsStatementText};

use crate::parts::TxtPart;
use ae_base::keys::KeyPathRule;
use ae_base::limits::MOST_STATEMENT_BYTES;
use ae_base::names::{NameRule, ParamNameRule, TitleRule};
use ae_base::ruled::{Ruled, TextRule};
use ae_base::texts::byte_count;
use std::alloc::{AllocError, Global};
use std::marker::{Model, PhantomData};

/// The rule that a statement's text has at most 65,536 bytes.
#[derive(Drop)]
pub struct StatementRule;

impl TextRule for StatementRule {
    ghost Asks = { IsStatementText };

    fn is_met(text: &str) -> bool {
        byte_count(text) <= MOST_STATEMENT_BYTES
    }
}

/// A text that meets the condition of a rule, own or borrowed.
pub struct RuledPart<'a, R: TextRule> {
    text: TxtPart<'a>,
    rule: PhantomData<R>,
}

impl<'a, R: TextRule> Drop for RuledPart<'a, R> {
    fn drop(self) {
        let RuledPart { text: _, rule: _ } = self;
    }
}

/// The text of a statement, of at most 65,536 bytes.
pub type StatementPart<'a> = RuledPart<'a, StatementRule>;

/// An identifier of 1 to 128 characters.
pub type NamePart<'a> = RuledPart<'a, NameRule>;

/// A parameter's name, without its `@`.
pub type ParamNamePart<'a> = RuledPart<'a, ParamNameRule>;

/// The name of a result's column, of at most 128 characters.
pub type TitlePart<'a> = RuledPart<'a, TitleRule>;

/// The path of a master key, of 1 to 1,024 bytes.
pub type PathPart<'a> = RuledPart<'a, KeyPathRule>;

impl<'a, R: TextRule> Model for RuledPart<'a, R> {
    ghost use Rattle.std.specs.Prelude.{List, ℕ};

    ghost Value = { List ℕ };

    ghost view = { λ t. t.text };

    ghost invariant = { λ t. R.Asks t.text };
}

impl<'a, R: TextRule> RuledPart<'a, R> {
    /// The text that it is, where it is one. It takes no memory.
    pub fn from_part(text: TxtPart<'a>) -> Option<RuledPart<'a, R>>
        ensures text { IfSome result (λ part. part ≡ text.entry) }
        ensures exactly { IsSome result ↔ R.Asks text.entry }
    {
        if !R::is_met(text.as_str()) {
            return None;
        }
        Some(RuledPart {
            text,
            rule: PhantomData,
        })
    }

    /// A text of one's own. It takes no memory.
    pub fn own(text: Ruled<R>) -> RuledPart<'a, R>
        ensures { result ≡ text }
    {
        RuledPart {
            text: TxtPart::own(text.into_txt()),
            rule: PhantomData,
        }
    }

    /// A text that is borrowed. It takes no memory.
    pub fn lent(text: &'a Ruled<R>) -> RuledPart<'a, R>
        ensures { result ≡ text.now }
    {
        RuledPart {
            text: TxtPart::lent(text.as_str()),
            rule: PhantomData,
        }
    }

    /// The text, in UTF-8.
    pub fn as_str(&self) -> &str
        ensures bytes { result.now ≡ encode_utf8_all self.now }
        ensures characters { chars result.now ≡ self.now }
        ensures scalars { IsTrue (all_scalars self.now) }
        ensures condition { R.Asks self.now }
    {
        self.text.as_str()
    }

    // The text, by value. It takes no memory.
    fn into_part(self) -> TxtPart<'a>
        ensures { result ≡ self.entry }
    {
        let RuledPart { text, rule: _ } = self;
        text
    }

    /// An own copy of the text.
    pub fn to_ruled(&self, alloc: Global) -> Result<Ruled<R>, AllocError>
        ensures { IfOk result (λ copy. copy ≡ self.now) }
    {
        Ok(Ruled::from_txt(self.text.to_txt(alloc)?).unwrap())
    }

    /// A copy that borrows nothing.
    pub fn to_own<'b>(&self, alloc: Global) -> Result<RuledPart<'b, R>, AllocError>
        ensures { IfOk result (λ copy. copy ≡ self.now) }
    {
        Ok(RuledPart {
            text: self.text.to_own(alloc)?,
            rule: PhantomData,
        })
    }
}

impl<'a> RuledPart<'a, ParamNameRule> {
    /// The name that it is, where it is one. It takes no memory.
    pub fn from_name(name: NamePart<'a>) -> Option<ParamNamePart<'a>>
        ensures name { IfSome result (λ part. part ≡ name.entry) }
        ensures exactly { IsSome result ↔ IsParamName name.entry }
    {
        RuledPart::from_part(name.into_part())
    }
}
