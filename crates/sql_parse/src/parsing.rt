//! The statement that a text spells, or the first fault.

ghost use Rattle.std.specs.Prelude.{◌≡◌, IfErr, None};
ghost use Rattle.ae_base.specs.Results.{AnswersAs};
ghost use Rattle.sql_tree.specs.Statements.{statement_of};
ghost use Rattle.sql_tree.specs.Tokens.{first_wide};
ghost use Rattle.sql_grammar.specs.Texts.{statement_in, parsed_narrow};
ghost use Rattle.sql_parse.specs.Faults.{IsParseFault};

use crate::limits::{has_long, opens_too_deep, passes_a_limit};
use crate::statements::statement;
use ae_base::faults::SqlFault;
use ae_base::limits::{MOST_NUMBER, MOST_STATEMENT_BYTES};
use ae_base::lists::Seq;
use ae_base::refusals::Refusal;
use sql_expressions::cursor::Cursor;
use sql_tree::lexemes::Token;
use sql_tree::statements::Statement;
use sql_tree::tokens::{TokensFault, tokens};
use std::alloc::Global;

/// The statement that a text spells. A fault is the first of: TooLong for a text over 65,536
/// bytes; Syntax for one that is no list of tokens; NumberTooWide at the first number above
/// 9223372036854775807; TooDeep for more than 64 parentheses open at once; Syntax where no
/// statement spells the tokens; TooLong for a statement past a limit.
#[tactic(auto, using(crate::proofs::Parsed::parsed_long, crate::proofs::Parsed::parsed_none, crate::proofs::Parsed::parsed_wide, crate::proofs::Parsed::parsed_answers))]
pub fn parse(alloc: Global, text: &str) -> Result<Statement, Refusal>
    ensures exact { AnswersAs statement_of result (statement_in text.now) }
    ensures causes { IfErr result IsParseFault }
{
    if text.len() > MOST_STATEMENT_BYTES {
        return Err(Refusal::Fault(SqlFault::TooLong));
    }
    match tokens(alloc, text, MOST_NUMBER) {
        Ok(tokens) => parse_tokens(alloc, tokens),
        Err(TokensFault::NotTokens) => Err(Refusal::Fault(SqlFault::Syntax)),
        Err(TokensFault::NumberTooWide { at }) => {
            Err(Refusal::Fault(SqlFault::NumberTooWide { at }))
        }
        Err(TokensFault::OutOfMemory) => Err(Refusal::OutOfMemory),
    }
}

/// The statement that tokens spell, each number at most `MOST_NUMBER`.
#[tactic(auto, using(crate::proofs::Parsed::parsed_deep, crate::proofs::Parsed::parsed_no_tree, crate::proofs::Parsed::parsed_past, crate::proofs::Parsed::parsed_within))]
fn parse_tokens(alloc: Global, tokens: Seq<Token>) -> Result<Statement, Refusal>
    requires { first_wide MOST_NUMBER tokens ≡ None }
    ensures exact { AnswersAs statement_of result (parsed_narrow tokens None) }
    ensures causes { IfErr result IsParseFault }
{
    if opens_too_deep(tokens.as_slice()) {
        return Err(Refusal::Fault(SqlFault::TooDeep));
    }
    let has_long = has_long(tokens.as_slice());
    let statement = statement(alloc, Cursor::new(tokens))?;
    if has_long || passes_a_limit(&statement) {
        drop(statement);
        return Err(Refusal::Fault(SqlFault::TooLong));
    }
    Ok(statement)
}

/// Lets a statement go.
pub fn discard(statement: Statement) {
    drop(statement);
}
