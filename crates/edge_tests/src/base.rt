//! Names, texts, faults and copies.

// The values of the base.

use ae_base::atoms::{Atom, AtomOf, Row};
use ae_base::batches::{Batch, Param, ParamDecl};
use ae_base::cells::Cell;
use ae_base::faults::SqlFault;
use ae_base::lists::{Duplicate, Seq};
use ae_base::names::{Name, ParamName};
use ae_base::params::ParamList;
use ae_base::texts::Txt;
use ae_base::types::{TextSize, Ty};
use ae_base::uniques::UniqueNumber;
use ae_base::values::{Datum, Value};
use ae_base::versions::Versions;
use std::alloc::{AllocError, Global};
use std::test::Fail;

fn name_of(alloc: Global, text: &str) -> Result<Option<Name>, AllocError> {
    Ok(Name::from_txt(Txt::copied(alloc, text)?))
}

fn param_name_of(alloc: Global, text: &str) -> Result<Option<ParamName>, AllocError> {
    match name_of(alloc, text)? {
        Some(name) => Ok(ParamName::from_name(name)),
        None => Ok(None),
    }
}

#[test]
fn texts_are_names(rt: HostRuntime) -> Result<(), Fail> {
    let alloc = rt.alloc();
    for (text, is_name, is_param) in [
        ("", false, false),
        ("né", true, false),
        ("p_1", true, true),
    ] {
        assert_eq!(rt; name_of(alloc, text)?.is_some(), is_name);
        assert_eq!(rt; param_name_of(alloc, text)?.is_some(), is_param);
    }
    Ok(())
}

fn fault_of(alloc: Global, code: u8) -> Result<Option<SqlFault>, AllocError> {
    Ok(match code {
        11 => Some(SqlFault::NumberTooWide { at: 7 }),
        21 => name_of(alloc, "zz")?.map(SqlFault::NoColumn),
        40 => Versions::that_differ(3, 5).map(SqlFault::Moved),
        41 => param_name_of(alloc, "p")?.map(SqlFault::ParamClash),
        55 => UniqueNumber::from_number(1).map(SqlFault::DuplicateKey),
        _ => Some(SqlFault::Syntax),
    })
}

fn printed(alloc: Global, fault: Option<SqlFault>) -> Result<String, AllocError> {
    match fault {
        Some(fault) => format!(in alloc; "{fault}"),
        None => Ok(String::new(alloc)),
    }
}

#[test]
fn faults_are_printed_with_their_details(rt: HostRuntime) -> Result<(), Fail> {
    for (code, line) in [
        (10, "error 10 Syntax"),
        (11, "error 11 NumberTooWide at 7"),
        (21, "error 21 NoColumn zz"),
        (40, "error 40 Moved seen 3 now 5"),
        (41, "error 41 ParamClash @p"),
        (55, "error 55 DuplicateKey 1"),
    ] {
        let line_printed = printed(rt.alloc(), fault_of(rt.alloc(), code)?)?;
        assert_eq!(rt; line_printed.as_str(), line);
    }
    Ok(())
}

fn has_room(datum: Datum, most: u16) -> bool {
    match TextSize::from_number(most) {
        Some(size) => datum.fits(Ty::NVarChar(size)),
        None => false,
    }
}

// A character past the first plane has two units.
#[test]
fn texts_fit_by_their_units(rt: HostRuntime) -> Result<(), Fail> {
    for (most, fits) in [(1, false), (2, true)] {
        let text = Txt::copied(rt.alloc(), "😀")?;
        assert_eq!(rt; has_room(Datum::Text(text), most), fits);
    }
    Ok(())
}

#[test]
fn null_equals_nothing_and_is_alike_to_null(rt: HostRuntime) {
    let null: Atom<Cell> = Atom::new(AtomOf::Null);
    assert!(rt; !null.same(&null) && null.alike(&null));
}

fn copies<T: Duplicate>(value: &T) -> bool {
    value.copy().is_ok()
}

fn batch_of(alloc: Global, name: ParamName) -> Result<Batch, AllocError> {
    let declaration = ParamDecl { name, ty: Ty::Int };
    let mut params = ParamList::new(alloc);
    params.push(Param {
        declaration,
        value: Value::Null,
    })?;
    Ok(Batch {
        text: Txt::copied(alloc, "SELECT @p FROM t")?,
        params,
        forced: Seq::new(alloc),
    })
}

fn row_of(alloc: Global) -> Result<Row<Cell>, AllocError> {
    let mut row = Seq::new(alloc);
    row.push(Atom::new(AtomOf::Sealed(Cell::from_bytes(alloc, &[1, 9])?)))?;
    Ok(row)
}

#[test]
fn a_batch_and_a_row_are_taken_twice(rt: HostRuntime) -> Result<(), Fail> {
    let name = param_name_of(rt.alloc(), "p")?.ok_or("a parameter's name")?;
    assert!(rt; copies(&batch_of(rt.alloc(), name)?));
    assert!(rt; copies(&row_of(rt.alloc())?));
    Ok(())
}
