//! What sort a statement is, and which table it changes.

ghost use Rattle.std.specs.Prelude.{◌≡◌};
ghost use Rattle.std.specs.Option.{option_copied};
ghost use Rattle.sql_tree.specs.Bound.{statement_of};
ghost use Rattle.sql_tree.specs.Sorts as sorts;
ghost use Rattle.sql_tree.specs.Statements as written;

use crate::bound::{BoundDefinition, BoundStatement};
use crate::statements::{Statement, TransactionControl};
use ae_base::names::Name;

/// What sort a statement is: it defines keys or tables, changes rows (or puts one table in the
/// place of another), asks for rows, or begins or ends a transaction.
#[derive(Clone, Copy, PartialEq, Eq, Debug)]
pub enum Sort {
    Definition,
    Change,
    Query,
    Control,
}

impl Sort {
    /// Whether it is that of a definition, which a transaction refuses.
    pub fn defines(self) -> bool
        ensures { result ≡ sorts.defines self }
    {
        match self {
            Sort::Definition => true,
            Sort::Change | Sort::Query | Sort::Control => false,
        }
    }
}

impl Statement {
    /// Whether it makes another catalog: CREATE, ALTER or DROP.
    pub fn is_defining(&self) -> bool
        ensures { result ≡ sorts.is_written_defining (written.statement_of self.now) }
    {
        match self {
            Statement::Definition(_) => true,
            Statement::Insert { .. }
            | Statement::Update { .. }
            | Statement::Delete { .. }
            | Statement::Select(_)
            | Statement::Control(_) => false,
        }
    }
}

impl BoundStatement {
    /// What sort the statement is.
    pub fn sort(&self) -> Sort
        ensures { result ≡ sorts.sort_of (statement_of self.now) }
    {
        match self {
            BoundStatement::Definition(BoundDefinition::ReplaceTable { .. }) => Sort::Change,
            BoundStatement::Definition(_) => Sort::Definition,
            BoundStatement::Insert(_) | BoundStatement::Update(_) | BoundStatement::Delete(_) => {
                Sort::Change
            }
            BoundStatement::Select(_) => Sort::Query,
            BoundStatement::Control(_) => Sort::Control,
        }
    }

    /// The table whose rows it changes.
    pub fn target(&self) -> Option<&Name>
        ensures { option_copied result ≡ sorts.target (statement_of self.now) }
    {
        match self {
            BoundStatement::Insert(insert) => Some(&insert.table),
            BoundStatement::Update(update) => Some(&update.table),
            BoundStatement::Delete(delete) => Some(&delete.table),
            BoundStatement::Definition(_)
            | BoundStatement::Select(_)
            | BoundStatement::Control(_) => None,
        }
    }

    /// Which of BEGIN, COMMIT and ROLLBACK it is.
    pub fn control(&self) -> Option<TransactionControl>
        ensures { result ≡ sorts.control_in (statement_of self.now) }
    {
        match self {
            BoundStatement::Control(control) => Some(*control),
            BoundStatement::Definition(_)
            | BoundStatement::Insert(_)
            | BoundStatement::Update(_)
            | BoundStatement::Delete(_)
            | BoundStatement::Select(_) => None,
        }
    }
}
