//! The tables of a FROM.

ghost use Rattle.std.specs.Prelude.{◌≡◌, [], ◌∷◌, map};
ghost use Rattle.sql_tree.specs.Statements.{join_of, query_of};
ghost use Rattle.ae_base.specs.Results.{Answers, AnswersAs};
ghost use Rattle.resolve.specs.Tables.{joined_from, source_for, sources_for, table_for, visible};
ghost use Rattle.expression_binding.specs.Seen.{source_seen};
ghost use Rattle.resolve.specs.Seen.{joined_seen, sources_seen};

use ae_base::faults::SqlFault;
use ae_base::lists::{Duplicate, Seq};
use ae_base::names::{Name, ParamName};
use ae_base::refusals::Refusal;
use ae_base::tables::TableDef;
use catalog::catalogs::Catalog;
use expression_binding::scopes::{Source, is_source};
use sql_tree::conditions::Condition;
use sql_tree::operands::ColumnRef;
use sql_tree::statements::{Join, Query, SourceTable};
use std::alloc::Global;

/// A further table of a query, with its condition ON.
#[derive(Clone, Copy, Drop)]
pub(crate) struct Joined<'a> {
    pub source: Source<'a>,
    pub on: &'a Condition<ColumnRef, ParamName>,
}

/// The tables of a query.
#[derive(Drop)]
pub(crate) struct Sources<'a> {
    pub from: Source<'a>,
    pub joins: Seq<Joined<'a>>,
}

/// The table of a name.
pub(crate) fn table_for<'a>(catalog: &'a Catalog, name: &Name) -> Result<&'a TableDef, Refusal>
    ensures { AnswersAs (λ table. table.now) result (table_for catalog.now name.now) }
{
    match catalog.table(name) {
        Some(table) => Ok(table),
        None => Err(Refusal::Fault(SqlFault::NoTable(name.copy()?))),
    }
}

/// A table's visible name: its alias, else its own.
fn visible(source: &SourceTable) -> &Name
    ensures { result.now ≡ visible source.now }
{
    match &source.alias {
        Some(alias) => alias,
        None => &source.table,
    }
}

fn source_for<'a>(
    catalog: &'a Catalog,
    given: &[&Name],
    source: &'a SourceTable,
) -> Result<Source<'a>, Refusal>
    ensures { AnswersAs source_seen result
        (source_for catalog.now (map (λ name. name.now) given.now) source.now) }
{
    let def = table_for(catalog, &source.table)?;
    let visible = visible(source);
    if is_source(given, visible) {
        return Err(Refusal::Fault(SqlFault::Ambiguous(visible.copy()?)));
    }
    Ok(Source {
        table: &source.table,
        visible,
        def,
    })
}

fn joined_from<'a>(
    alloc: Global,
    catalog: &'a Catalog,
    first: &'a Name,
    joins: &'a [Join],
) -> Result<Seq<Joined<'a>>, Refusal>
    ensures { AnswersAs (map joined_seen) result
        (joined_from catalog.now (first.now ∷ []) (map join_of joins.now)) }
{
    let mut given = Seq::new(alloc);
    given.push(first)?;
    let mut joined = Seq::new(alloc);
    for join in joins {
        let source = source_for(catalog, given.as_slice(), &join.source)?;
        given.push(source.visible)?;
        joined.push(Joined {
            source,
            on: &join.on,
        })?;
    }
    Ok(joined)
}

/// The tables of a query.
pub(crate) fn sources_for<'a>(
    alloc: Global,
    catalog: &'a Catalog,
    query: &'a Query,
) -> Result<Sources<'a>, Refusal>
    ensures { AnswersAs sources_seen result (sources_for catalog.now (query_of query.now)) }
{
    let from = source_for(catalog, &[], &query.from)?;
    Ok(Sources {
        from,
        joins: joined_from(alloc, catalog, from.visible, query.joins.as_slice())?,
    })
}
