//! The parameters of a row, and batches.

ghost use Rattle.std.specs.Prelude.{◌≡◌, ◌≤◌, [], ℕ, List, IfOk, length, string_bytes, encode_utf8_all};
ghost use Rattle.column_rotate.specs.Texts as spelled;

use ae_base::batches::{Batch, Param, ParamDecl, Params};
use ae_base::lists::{Duplicate, Seq};
use ae_base::names::ParamName;
use ae_base::texts::Txt;
use ae_base::values::Value;
use driver::AcceptedColumn;
use std::alloc::{AllocError, Global};
use std::fmt::Write;

/// The name of the parameter of a column, counted from 1.
fn param_name(alloc: Global, number: usize) -> Result<ParamName, AllocError>
    requires { number ≤ 64 }
    ensures { IfOk result (λ name. name ≡ spelled.param_name number) }
{
    let mut name = String::new(alloc);
    write!(name, "c{number}")?;
    match ParamName::from_txt(Txt::from_string(name)) {
        Some(name) => Ok(name),
        None => unreachable!(),
    }
}

/// The parameter of a column, counted from 1, with a value.
fn param(
    alloc: Global,
    number: usize,
    column: &AcceptedColumn,
    value: &Value,
) -> Result<Param, AllocError>
    requires { number ≤ 64 }
    ensures { IfOk result (λ param. param
        ≡ record {
          declaration = record { name = spelled.param_name number; ty = column.now.ty };
          value = value.now;
        }) }
{
    Ok(Param {
        declaration: ParamDecl {
            name: param_name(alloc, number)?,
            ty: column.ty(),
        },
        value: value.copy()?,
    })
}

fn listed(
    alloc: Global,
    columns: &[AcceptedColumn],
    values: &[Value],
) -> Result<Seq<Param>, AllocError>
    requires { length columns.now ≤ 64 }
    ensures { IfOk result (λ params. params ≡ spelled.params_from 1 columns.now values.now) }
{
    let mut params = Seq::new(alloc);
    for i in 0..columns.len().min(values.len()) {
        params.push(param(alloc, i + 1, &columns[i], &values[i])?)?;
    }
    Ok(params)
}

/// The values of a row as parameters, each with its column's type.
pub fn params_of(
    alloc: Global,
    columns: &[AcceptedColumn],
    values: &[Value],
) -> Result<Params, AllocError>
    requires { length columns.now ≤ 64 }
    ensures { IfOk result (λ params. params ≡ spelled.params_from 1 columns.now values.now) }
{
    match Params::from_seq(listed(alloc, columns, values)?) {
        Some(params) => Ok(params),
        None => unreachable!(),
    }
}

/// The batch of a text with parameters.
pub fn batch_of(alloc: Global, text: String, params: Params) -> Batch
    ensures { (characters : List ℕ) → string_bytes text ≡ encode_utf8_all characters
        → result ≡ spelled.batch_of characters params }
{
    Batch {
        text: Txt::from_string(text),
        params,
        forced: Seq::new(alloc),
    }
}

/// The batch of a text alone.
pub fn batch_alone(alloc: Global, text: String) -> Batch
    ensures { (characters : List ℕ) → string_bytes text ≡ encode_utf8_all characters
        → result ≡ spelled.batch_of characters [] }
{
    batch_of(alloc, text, Params::new(alloc))
}
