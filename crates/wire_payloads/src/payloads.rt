//! What a frame to the driver carries.

ghost use Rattle.std.specs.Prelude.{◌≡◌, ◌↔◌, All, IfOk, IfSome, IsSome, IsTrue, length};
ghost use Rattle.wire_payloads.specs.Batches.{IsBatch};

use ae_base::limits::MOST_FRAME_ROWS;
use ae_base::lists::Seq;
use std::alloc::{AllocError, Global};
use std::marker::Model;
use wire_messages::replies::{Reply, RowParts};

/// Rows of an answer that share a frame: 1 to 4,096, each of as many atoms. Contracts see the list
/// of them.
pub struct RowBatch<'a> {
    rows: Seq<RowParts<'a>>,
}

impl<'a> Drop for RowBatch<'a> {
    fn drop(self) {
        let RowBatch { rows: _ } = self;
    }
}

impl<'a> Model for RowBatch<'a> {
    ghost use Rattle.std.specs.Prelude.{List, ℕ};
    ghost use Rattle.ae_base.specs.declared.atoms.AtomOf.{AtomOf};
    ghost use Rattle.wire_payloads.specs.Batches.{IsBatch};

    ghost Value = { List (List (AtomOf (List ℕ))) };

    ghost view = { λ b. b.rows };

    ghost invariant = { λ b. IsBatch b.rows };
}

/// Whether each row has so many atoms.
fn are_as_wide(rows: &[RowParts<'_>], columns: usize) -> bool
    ensures { IsTrue result ↔ All (λ row. length row ≡ columns) rows.now }
{
    rows.iter().all(|row| row.atoms().len() == columns)
}

impl<'a> RowBatch<'a> {
    /// The rows, where these are 1 to 4,096 of as many atoms each. It takes no memory.
    pub fn new(rows: Seq<RowParts<'a>>) -> Option<RowBatch<'a>>
        ensures batch { IfSome result (λ batch. batch ≡ rows.entry) }
        ensures exactly { IsSome result ↔ IsBatch rows.entry }
    {
        let [first, ..] = rows.as_slice() else {
            return None;
        };
        if rows.len() > MOST_FRAME_ROWS || !are_as_wide(rows.as_slice(), first.atoms().len()) {
            return None;
        }
        Some(RowBatch { rows })
    }

    /// The rows.
    pub fn rows(&self) -> &[RowParts<'a>]
        ensures rows { result.now ≡ self.now }
        ensures batch { IsBatch self.now }
    {
        self.rows.as_slice()
    }

    /// The rows, by value. It takes no memory.
    pub fn into_rows(self) -> Seq<RowParts<'a>>
        ensures rows { result ≡ self.entry }
        ensures batch { IsBatch self.entry }
    {
        let RowBatch { rows } = self;
        rows
    }

    /// A copy that borrows nothing.
    pub fn to_own<'b>(&self, alloc: Global) -> Result<RowBatch<'b>, AllocError>
        ensures { IfOk result (λ copy. copy ≡ self.now) }
    {
        Ok(RowBatch {
            rows: own_rows(alloc, self.rows.as_slice())?,
        })
    }
}

/// Copies of rows that borrow nothing.
fn own_rows<'b>(alloc: Global, rows: &[RowParts<'_>]) -> Result<Seq<RowParts<'b>>, AllocError>
    ensures { IfOk result (λ copies. copies ≡ rows.now) }
{
    let mut copies = Seq::new(alloc);
    for row in rows {
        copies.push(row.to_own(alloc)?)?;
    }
    Ok(copies)
}

/// What a frame to the driver carries: a reply, or rows of an answer.
#[derive(Drop)]
pub enum Payload<'a> {
    One(Reply<'a>),
    Rows(RowBatch<'a>),
}

impl<'a> Payload<'a> {
    /// A copy that borrows nothing.
    pub fn to_own<'b>(&self, alloc: Global) -> Result<Payload<'b>, AllocError>
        ensures { IfOk result (λ copy. copy ≡ self.now) }
    {
        match self {
            Payload::One(reply) => Ok(Payload::One(reply.to_own(alloc)?)),
            Payload::Rows(batch) => Ok(Payload::Rows(batch.to_own(alloc)?)),
        }
    }
}
