//! Names of tables, columns and keys, of parameters, and the titles of columns.

ghost use Rattle.std.specs.Prelude.{◌≡◌, [], IfSome, IsSome, ◌↔◌};
ghost use Rattle.std.specs.Str.{chars};
ghost use Rattle.std.specs.List.{list_all};
ghost use Rattle.ae_base.specs.Names.{IsName, IsParamName, IsTitle, is_param_char};

use crate::limits::MOST_NAME_CHARACTERS;
use crate::ruled::{Ruled, TextRule};
use crate::texts::{Txt, char_count};
use std::alloc::Global;

/// The rule of identifiers.
#[derive(Drop)]
pub struct NameRule;

impl TextRule for NameRule {
    ghost Asks = { IsName };

    fn is_met(text: &str) -> bool {
        let count = char_count(text);
        count != 0 && count <= Name::MOST_CHARACTERS
    }
}

/// An identifier: a text of 1 to 128 characters.
pub type Name = Ruled<NameRule>;

impl Ruled<NameRule> {
    /// The most characters that an identifier has.
    pub const MOST_CHARACTERS: usize = MOST_NAME_CHARACTERS;
}

/// The rule of parameters' names.
#[derive(Drop)]
pub struct ParamNameRule;

impl TextRule for ParamNameRule {
    ghost Asks = { IsParamName };

    fn is_met(text: &str) -> bool {
        NameRule::is_met(text) && has_param_chars(text)
    }
}

/// A parameter's name, without its `@`: an identifier of ASCII letters, digits and `_` alone.
pub type ParamName = Ruled<ParamNameRule>;

impl Ruled<ParamNameRule> {
    /// The parameter that a name is one of, where it is. It takes no memory.
    pub fn from_name(name: Name) -> Option<ParamName>
        ensures name { IfSome result (λ param. param ≡ name) }
        ensures exactly { IsSome result ↔ IsParamName name }
    {
        ParamName::from_txt(name.into_txt())
    }
}

/// Whether a text has letters of ASCII, digits and `_` alone.
fn has_param_chars(text: &str) -> bool
    ensures { result ≡ list_all is_param_char (chars text.now) }
{
    text.chars().all(|c| c.is_ascii_alphanumeric() || c == '_')
}

/// The rule of titles.
#[derive(Drop)]
pub struct TitleRule;

impl TextRule for TitleRule {
    ghost Asks = { IsTitle };

    fn is_met(text: &str) -> bool {
        char_count(text) <= Name::MOST_CHARACTERS
    }
}

/// The name of a result's column: a text of at most 128 characters, which may be empty.
pub type Title = Ruled<TitleRule>;

impl Ruled<TitleRule> {
    /// The title without characters. It takes no memory.
    pub fn empty(alloc: Global) -> Title
        ensures { result ≡ [] }
    {
        Title::from_txt(Txt::from_string(String::new(alloc))).unwrap()
    }

    /// The title that a name is. It takes no memory.
    pub fn from_name(name: Name) -> Title
        ensures { result ≡ name }
    {
        Title::from_txt(name.into_txt()).unwrap()
    }
}
