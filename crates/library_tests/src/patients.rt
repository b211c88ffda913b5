//! A patient, who is found by a number that the server never sees.

use crate::batches::{are_defined, ends, first_session, with_number};
use crate::ends::Ends;
use ae_base::sessions::SessionId;
use ae_base::values::{Datum, Value};
use conversation::faults::Halt;
use driver::Outcome;
use std::alloc::Global;
use std::test::Fail;

const DEFINITIONS: [&str; 3] = [
    "CREATE COLUMN MASTER KEY m WITH (KEY_STORE_PROVIDER_NAME = N'KEYFILE', KEY_PATH = N'main')",
    "CREATE COLUMN ENCRYPTION KEY k WITH VALUES (COLUMN_MASTER_KEY = m, ALGORITHM = 'AES_256_KW',
        ENCRYPTED_VALUE = 0x693add69cc58456380c656773889542f4a668afa72adc727acc9c4eff4dac04cc98be258b15b4a7d)",
    "CREATE TABLE patients (id INT, number NVARCHAR(11) COLLATE Latin1_General_BIN2 ENCRYPTED WITH (
        COLUMN_ENCRYPTION_KEY = k, ENCRYPTION_TYPE = DETERMINISTIC, ALGORITHM = 'AEAD_AES_256_CBC_HMAC_SHA256'))",
];

const INSERT: &str = "INSERT INTO patients (id, number) VALUES (1, @number)";

const SELECT: &str = "SELECT id, number FROM patients WHERE number = @number";

const NUMBER: &str = "078-05-1120";

/// Whether these are the rows of patient 1 alone.
fn are_the_patient(outcome: &Outcome) -> bool {
    let Outcome::Rows(rows) = outcome else {
        return false;
    };
    match rows.as_slice() {
        [row] => match row.as_slice() {
            [Value::Is(Datum::Num(id)), Value::Is(Datum::Text(number))] => {
                *id == 1 && number.as_str() == NUMBER
            }
            _ => false,
        },
        _ => false,
    }
}

/// What is asked of both ends, and whether it is answered as the guide says.
fn finds_the_patient(
    alloc: Global,
    ends: &mut Ends,
    session: SessionId,
) -> Result<[bool; 3], Halt> {
    let defined = are_defined(alloc, ends, session, &DEFINITIONS)?;
    let inserted = ends.run(alloc, session, with_number(alloc, INSERT, NUMBER)?)?;
    let selected = ends.run(alloc, session, with_number(alloc, SELECT, NUMBER)?)?;
    Ok([
        defined,
        matches!(inserted, Outcome::Changed(1)),
        are_the_patient(&selected),
    ])
}

#[test]
fn a_patient_is_found_by_a_protected_number(rt: HostRuntime) -> Result<(), Fail> {
    let alloc = rt.alloc();
    let mut ends = ends(alloc)?;
    let found = finds_the_patient(alloc, &mut ends, first_session());
    drop(ends);
    assert!(rt; found == Ok([true; 3]));
    Ok(())
}
