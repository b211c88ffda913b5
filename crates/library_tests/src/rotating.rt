//! The rotation of a table, whose rows are moved to a table with another column key.

use crate::batches::{are_defined, batch, ends, first_session, with_number};
use crate::ends::Ends;
use ae_base::faults::SqlFault;
use ae_base::limits::MOST_TABLE_ROWS;
use ae_base::names::Name;
use ae_base::sessions::SessionId;
use ae_base::texts::Txt;
use ae_base::types::Enc;
use ae_base::values::{Datum, Value};
use column_rotate::{Next, Rotation};
use conversation::faults::{DriverFault, Halt};
use driver::{Fault, Outcome};
use std::alloc::Global;
use std::test::Fail;

const DEFINITIONS: [&str; 5] = [
    "CREATE COLUMN MASTER KEY m WITH (KEY_STORE_PROVIDER_NAME = N'KEYFILE', KEY_PATH = N'main')",
    "CREATE COLUMN ENCRYPTION KEY k WITH VALUES (COLUMN_MASTER_KEY = m, ALGORITHM = 'AES_256_KW',
        ENCRYPTED_VALUE = 0x28C9F404C4B810F4CBCCB35CFB87F8263F5786E2D80ED326CBC7F0E71A99F43BFB988B9B7A02DD21)",
    "CREATE COLUMN ENCRYPTION KEY l WITH VALUES (COLUMN_MASTER_KEY = m, ALGORITHM = 'AES_256_KW',
        ENCRYPTED_VALUE = 0x810B3893CB3D94C44183741D488D1941D4A03335C845FB4E3CA83FEF83D525DFA18B62E1C47158B4)",
    "CREATE TABLE t (id INT, number NVARCHAR(11) COLLATE Latin1_General_BIN2 ENCRYPTED WITH (
        COLUMN_ENCRYPTION_KEY = k, ENCRYPTION_TYPE = DETERMINISTIC, ALGORITHM = 'AEAD_AES_256_CBC_HMAC_SHA256'))",
    "CREATE TABLE u (id INT, number NVARCHAR(11) COLLATE Latin1_General_BIN2 ENCRYPTED WITH (
        COLUMN_ENCRYPTION_KEY = l, ENCRYPTION_TYPE = DETERMINISTIC, ALGORITHM = 'AEAD_AES_256_CBC_HMAC_SHA256'))",
];

const ONE: &str = "078-05-1120";

const TWO: &str = "219-09-9999";

/// Moves the rows of a table to a new one, which takes its place: the last that the rotation says. A
/// table of N rows takes N + 5 batches.
fn rotate(
    alloc: Global,
    ends: &mut Ends,
    session: SessionId,
    old: Name,
    new: Name,
) -> Result<Next, Halt> {
    let mut rotation = Rotation::start(session, old, new);
    let mut outcome = None;
    for _ in 0..MOST_TABLE_ROWS + 5 {
        match rotation.next(alloc, ends.driver(), outcome)? {
            Next::Send(batch) => outcome = Some(ends.run(alloc, session, batch)?),
            last => return Ok(last),
        }
    }
    Ok(rotation.next(alloc, ends.driver(), outcome)?)
}

/// A table of two rows under key 1, and an empty one under key 2: whether they were made.
fn are_made(alloc: Global, ends: &mut Ends, session: SessionId) -> Result<bool, Halt> {
    let defined = are_defined(alloc, ends, session, &DEFINITIONS)?;
    let one = with_number(alloc, "INSERT INTO t (id, number) VALUES (1, @number)", ONE)?;
    let one = ends.run(alloc, session, one)?;
    let two = with_number(alloc, "INSERT INTO t (id, number) VALUES (2, @number)", TWO)?;
    let two = ends.run(alloc, session, two)?;
    Ok(defined && matches!(one, Outcome::Changed(1)) && matches!(two, Outcome::Changed(1)))
}

fn is_text(row: &[Value], text: &str) -> bool {
    match row {
        [Value::Is(Datum::Text(value))] => value.as_str() == text,
        _ => false,
    }
}

/// The number of the key under which the table has the two numbers, where it has them so.
fn key_of_the_two(alloc: Global, ends: &mut Ends, session: SessionId) -> Result<Option<u32>, Halt> {
    let selected = ends.run(alloc, session, batch(alloc, "SELECT number FROM t")?)?;
    let are_they = match &selected {
        Outcome::Rows(rows) => match rows.as_slice() {
            [one, two] => is_text(one.as_slice(), ONE) && is_text(two.as_slice(), TWO),
            _ => false,
        },
        _ => false,
    };
    if !are_they {
        return Ok(None);
    }
    match ends.driver().columns_of(session) {
        Some(columns) => match columns.as_slice() {
            [column] => match column.enc() {
                Enc::Det(key) => Ok(Some(key.number())),
                Enc::Plain | Enc::Rnd(_) => Ok(None),
            },
            _ => Ok(None),
        },
        None => Ok(None),
    }
}

/// The two rows are moved, and are there under the other key.
fn are_moved(
    alloc: Global,
    ends: &mut Ends,
    session: SessionId,
    old: Name,
    new: Name,
) -> Result<[bool; 4], Halt> {
    let made = are_made(alloc, ends, session)?;
    let before = key_of_the_two(alloc, ends, session)?;
    let last = rotate(alloc, ends, session, old, new)?;
    let after = key_of_the_two(alloc, ends, session)?;
    Ok([
        made,
        before == Some(1),
        matches!(last, Next::Finished(2)),
        after == Some(2),
    ])
}

/// A rotation to a table that has a row fails. The rows are where they were, and no transaction is
/// left open.
fn are_left(
    alloc: Global,
    ends: &mut Ends,
    session: SessionId,
    old: Name,
    new: Name,
) -> Result<[bool; 4], Halt> {
    let made = are_made(alloc, ends, session)?;
    ends.run(
        alloc,
        session,
        batch(alloc, "INSERT INTO u (id) VALUES (3)")?,
    )?;
    let last = rotate(alloc, ends, session, old, new)?;
    let after = key_of_the_two(alloc, ends, session)?;
    let commit = ends.run(alloc, session, batch(alloc, "COMMIT")?)?;
    Ok([
        made,
        matches!(
            last,
            Next::Failed(Fault::OfDriver(DriverFault::NotEmpty(_)))
        ),
        after == Some(1),
        matches!(
            commit,
            Outcome::Refused(Fault::OfServer(SqlFault::NoTransaction))
        ),
    ])
}

fn name(alloc: Global, text: &str) -> Result<Name, Fail> {
    match Name::from_txt(Txt::copied(alloc, text)?) {
        Some(name) => Ok(name),
        None => Err(Fail::new("no name")),
    }
}

#[test]
fn rows_are_moved_to_another_key(rt: HostRuntime) -> Result<(), Fail> {
    let alloc = rt.alloc();
    let (old, new) = (name(alloc, "t")?, name(alloc, "u")?);
    let mut ends = ends(alloc)?;
    let moved = are_moved(alloc, &mut ends, first_session(), old, new);
    drop(ends);
    assert!(rt; moved == Ok([true; 4]));
    Ok(())
}

#[test]
fn a_table_that_has_a_row_takes_no_other_place(rt: HostRuntime) -> Result<(), Fail> {
    let alloc = rt.alloc();
    let (old, new) = (name(alloc, "t")?, name(alloc, "u")?);
    let mut ends = ends(alloc)?;
    let left = are_left(alloc, &mut ends, first_session(), old, new);
    drop(ends);
    assert!(rt; left == Ok([true; 4]));
    Ok(())
}
