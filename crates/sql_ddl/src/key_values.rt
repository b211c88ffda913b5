//! The values of a column key, from the tokens.

ghost use Rattle.std.specs.Prelude.{List, Option};
ghost use Rattle.sql_grammar.specs.Parse as parse;
ghost use Rattle.sql_expressions.specs.Reads.{Gives};

use crate::settings::{WrappedSettingReader, key_of};
use ae_base::names::Name;
use ae_base::one_or_two::OneOrTwo;
use ae_base::refusals::Refusal;
use sql_expressions::cursor::{Cursor, syntax};
use sql_expressions::reading::in_parens;
use sql_tree::lexemes::Symbol;
use sql_tree::statements::WrittenValue;
use std::alloc::Global;

/// A value in parentheses: its master key, the algorithm and its wrapped key, in any order.
pub(crate) fn key_value(alloc: Global, tokens: &mut Cursor) -> Result<WrittenValue, Refusal>
    ensures { Gives (λ value. value) result tokens.new (parse.key_value tokens.old) }
{
    let settings = in_parens::<WrappedSettingReader>(alloc, tokens)?;
    match key_of(settings) {
        Some((master, wrapped)) => Ok(WrittenValue { master, wrapped }),
        None => Err(syntax()),
    }
}

/// The second value, where a comma is next.
fn second_value(alloc: Global, tokens: &mut Cursor) -> Result<Option<WrittenValue>, Refusal>
    ensures { Gives (λ value. value) result tokens.new (parse.second_key_value tokens.old) }
{
    if !tokens.next_is_sign(Symbol::Comma) {
        return Ok(None);
    }
    tokens.sign(Symbol::Comma)?;
    Ok(Some(key_value(alloc, tokens)?))
}

/// One value, or two with a comma between.
pub(crate) fn key_values(
    alloc: Global,
    tokens: &mut Cursor,
) -> Result<OneOrTwo<WrittenValue>, Refusal>
    ensures { Gives (λ values. values) result tokens.new (parse.key_values tokens.old) }
{
    let first = key_value(alloc, tokens)?;
    let second = second_value(alloc, tokens)?;
    Ok(OneOrTwo { first, second })
}

/// The master key that COLUMN_MASTER_KEY names.
pub(crate) fn master_name(tokens: &mut Cursor) -> Result<Name, Refusal>
    ensures { Gives (λ name. name) result tokens.new (parse.master_name tokens.old) }
{
    tokens.reads("COLUMN_MASTER_KEY")?;
    tokens.sign(Symbol::Equal)?;
    tokens.name()
}
