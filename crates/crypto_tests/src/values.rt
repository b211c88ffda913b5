//! The bytes of values in cells.

// The bytes of values.

use ae_base::blobs::Blob;
use ae_base::texts::Txt;
use ae_base::types::{BinarySize, TextSize, Ty};
use ae_base::values::Datum;
use std::alloc::Global;
use std::process::Abort;
use std::test::Fail;
use value_norm::{NormError, ReadError, from_cell_bytes, most_bytes, to_cell_bytes};

// A type as a case writes it.
#[derive(Clone, Copy)]
pub(crate) enum Column {
    Int,
    BigInt,
    Text(u16),
    Binary(u16),
}

pub(crate) fn ty_of(column: Column) -> Option<Ty> {
    Some(match column {
        Column::Int => Ty::Int,
        Column::BigInt => Ty::BigInt,
        Column::Text(most) => Ty::NVarChar(TextSize::from_number(most)?),
        Column::Binary(most) => Ty::VarBinary(BinarySize::from_number(most)?),
    })
}

// A value as a case writes it.
#[derive(Clone, Copy)]
enum Given {
    Number(i64),
    Text(&'static str),
    Bytes(&'static [u8]),
}

fn datum_of(alloc: Global, given: Given) -> Result<Datum, Fail> {
    Ok(match given {
        Given::Number(n) => Datum::Num(n),
        Given::Text(text) => Datum::Text(Txt::copied(alloc, text)?),
        Given::Bytes(bytes) => Datum::Bin(Blob::copied(alloc, bytes)?),
    })
}

fn spelled(alloc: Global, given: Given, column: Column) -> Result<Vec<u8>, Fail> {
    let value = datum_of(alloc, given)?;
    let ty = ty_of(column).ok_or("a type")?;
    Ok(to_cell_bytes(alloc, &value, ty)?)
}

fn read(alloc: Global, bytes: &[u8], column: Column) -> Result<Datum, Fail> {
    let ty = ty_of(column).ok_or("a type")?;
    Ok(from_cell_bytes(alloc, bytes, ty)?)
}

const SPELLED: [(Given, Column, &[u8]); 11] = [
    (
        Given::Number(258),
        Column::BigInt,
        &[2, 1, 0, 0, 0, 0, 0, 0],
    ),
    (Given::Number(-1), Column::Int, &[0xff; 8]),
    (
        Given::Number(2_147_483_647),
        Column::Int,
        &[0xff, 0xff, 0xff, 0x7f, 0, 0, 0, 0],
    ),
    (
        Given::Number(-2_147_483_648),
        Column::Int,
        &[0, 0, 0, 0x80, 0xff, 0xff, 0xff, 0xff],
    ),
    (
        Given::Number(i64::MIN),
        Column::BigInt,
        &[0, 0, 0, 0, 0, 0, 0, 0x80],
    ),
    (Given::Text(""), Column::Text(1), &[]),
    (Given::Text("ab"), Column::Text(2), &[0x61, 0, 0x62, 0]),
    (Given::Text("\u{20ac}"), Column::Text(1), &[0xac, 0x20]),
    (
        Given::Text("\u{1f600}"),
        Column::Text(2),
        &[0x3d, 0xd8, 0x00, 0xde],
    ),
    (Given::Bytes(&[]), Column::Binary(1), &[]),
    (Given::Bytes(&[7, 0, 255]), Column::Binary(3), &[7, 0, 255]),
];

#[test]
fn cell_bytes(rt: HostRuntime) -> Result<(), Fail> {
    for (given, column, bytes) in SPELLED {
        assert_eq!(rt; spelled(rt.alloc(), given, column)?.as_slice(), bytes);
        let value = datum_of(rt.alloc(), given)?;
        assert!(rt; read(rt.alloc(), bytes, column)? == value);
    }
    Ok(())
}

const TOO_WIDE: [(Given, Column); 4] = [
    (Given::Number(2_147_483_648), Column::Int),
    (Given::Text("\u{1f600}"), Column::Text(1)),
    (Given::Bytes(&[0, 0]), Column::Binary(1)),
    (Given::Number(0), Column::Text(8)),
];

#[test]
fn does_not_fit(rt: HostRuntime) -> Result<(), Fail> {
    for (given, column) in TOO_WIDE {
        let value = datum_of(rt.alloc(), given)?;
        let ty = ty_of(column).ok_or("a type")?;
        assert_eq!(rt;
            to_cell_bytes(rt.alloc(), &value, ty).err(),
            Some(NormError::DoesNotFit)
        );
    }
    Ok(())
}

const NOT_NORMAL: [(&[u8], Column); 7] = [
    (&[0x3d, 0xd8], Column::Text(8)),
    (&[0x00, 0xde, 0x3d, 0xd8], Column::Text(8)),
    (&[0x61, 0, 0x62], Column::Text(8)),
    (&[0x61, 0, 0x62, 0], Column::Text(1)),
    (&[0, 0, 0], Column::BigInt),
    (&[0, 0, 0, 0x80, 0, 0, 0, 0], Column::Int),
    (&[0, 0], Column::Binary(1)),
];

#[test]
fn not_normal(rt: HostRuntime) -> Result<(), Fail> {
    for (bytes, column) in NOT_NORMAL {
        let ty = ty_of(column).ok_or("a type")?;
        assert_eq!(rt;
            from_cell_bytes(rt.alloc(), bytes, ty).err(),
            Some(ReadError::NotNormal)
        );
    }
    Ok(())
}

#[test]
fn most(rt: HostRuntime) -> Result<(), Fail> {
    for (column, wanted) in [
        (Column::Int, 8),
        (Column::BigInt, 8),
        (Column::Text(4000), 8000),
        (Column::Binary(8000), 8000),
    ] {
        let ty = ty_of(column).ok_or("a type")?;
        assert_eq!(rt; most_bytes(ty), wanted);
    }
    Ok(())
}
