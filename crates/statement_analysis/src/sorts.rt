//! What sort a text is.

ghost use Rattle.std.specs.Prelude.{◌≡◌, IfOk};
ghost use Rattle.sql_tree.specs.Statements.{statement_of};
ghost use Rattle.statement_analysis.specs.Sorts as spec;

use ae_base::refusals::Refusal;
use sql_parse::parsing::{discard, parse};
use sql_tree::statements::{Definition, Statement, TransactionControl};
use std::alloc::{AllocError, Global};
use wire_parts::texts::StatementPart;

/// What sort a text is: a statement that asks for rows, makes a change that a transaction may make,
/// or defines keys or tables; BEGIN, COMMIT or ROLLBACK; or no statement.
#[derive(Clone, Copy, PartialEq, Eq, Debug)]
pub enum Sort {
    Reads,
    Changes,
    Defines,
    Begins,
    Commits,
    RollsBack,
    NoStatement,
}

/// The sort of a text: that of the statement which it parses to.
pub fn sort_of(alloc: Global, text: &StatementPart<'_>) -> Result<Sort, AllocError>
    ensures { IfOk result (λ sort. sort ≡ spec.sort_of text.now) }
{
    match parse(alloc, text.as_str()) {
        Ok(statement) => {
            let sort = of_statement(&statement);
            discard(statement);
            Ok(sort)
        }
        Err(Refusal::Fault(fault)) => {
            drop(fault);
            Ok(Sort::NoStatement)
        }
        Err(Refusal::OutOfMemory) => Err(AllocError),
    }
}

fn of_statement(statement: &Statement) -> Sort
    ensures { result ≡ spec.sort_of_statement (statement_of statement.now) }
{
    match statement {
        Statement::Definition(definition) => of_definition(definition),
        Statement::Insert { .. } | Statement::Update { .. } | Statement::Delete { .. } => {
            Sort::Changes
        }
        Statement::Select(_) => Sort::Reads,
        Statement::Control(control) => of_control(*control),
    }
}

fn of_definition(definition: &Definition) -> Sort
    ensures { result ≡ spec.sort_of_definition definition.now }
{
    match definition {
        Definition::ReplaceTable { .. } => Sort::Changes,
        Definition::CreateMaster { .. }
        | Definition::CreateKey { .. }
        | Definition::AddValue { .. }
        | Definition::DropValue { .. }
        | Definition::CreateTable { .. }
        | Definition::DropTable(_)
        | Definition::DropMaster(_)
        | Definition::DropKey(_) => Sort::Defines,
    }
}

fn of_control(control: TransactionControl) -> Sort
    ensures { result ≡ spec.sort_of_control control }
{
    match control {
        TransactionControl::Begin => Sort::Begins,
        TransactionControl::Commit => Sort::Commits,
        TransactionControl::Rollback => Sort::RollsBack,
    }
}
