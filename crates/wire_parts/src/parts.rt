//! The parts of a message that are long or of changing length. Each is own, or borrowed, as from
//! the bytes that the message was read from.

ghost use Rattle.std.specs.Prelude.{◌≡◌, List, ℕ, IfOk, IsTrue, encode_utf8_all};
ghost use Rattle.std.specs.Str.{chars, all_scalars};

use ae_base::blobs::Blob;
use ae_base::cells::Cell;
use ae_base::texts::Txt;
use std::alloc::{AllocError, Global};
use std::marker::Model;

#[derive(Drop)]
enum TxtSource<'a> {
    Own(Txt),
    Lent(&'a str),
}

/// A text, own or borrowed, which contracts see as the list of its characters.
pub struct TxtPart<'a> {
    source: TxtSource<'a>,
}

impl<'a> Drop for TxtPart<'a> {
    fn drop(self) {
        let TxtPart { source: _ } = self;
    }
}

impl<'a> Model for TxtPart<'a> {
    ghost use Rattle.std.specs.Prelude.{List, ℕ};
    ghost use Rattle.wire_parts.specs.Sources.{text_of};

    ghost Value = { List ℕ };

    ghost view = { λ p. text_of p.source };
}

impl<'a> TxtPart<'a> {
    /// An own text. It takes no memory.
    pub fn own(text: Txt) -> TxtPart<'a>
        ensures { result ≡ text }
    {
        TxtPart {
            source: TxtSource::Own(text),
        }
    }

    /// A borrowed text. It takes no memory.
    pub fn lent(text: &'a str) -> TxtPart<'a>
        ensures { result ≡ chars text.now }
    {
        TxtPart {
            source: TxtSource::Lent(text),
        }
    }

    /// The text, in UTF-8.
    pub fn as_str(&self) -> &str
        ensures bytes { result.now ≡ encode_utf8_all self.now }
        ensures characters { chars result.now ≡ self.now }
        ensures scalars { IsTrue (all_scalars self.now) }
    {
        match &self.source {
            TxtSource::Own(text) => text.as_str(),
            TxtSource::Lent(text) => {
                // A proof learns from this call that the bytes are UTF-8.
                let _ = text.as_bytes();
                text
            }
        }
    }

    /// An own copy of the text.
    pub fn to_txt(&self, alloc: Global) -> Result<Txt, AllocError>
        ensures { IfOk result (λ text. text ≡ self.now) }
    {
        Txt::copied(alloc, self.as_str())
    }

    /// A copy that borrows nothing.
    pub fn to_own<'b>(&self, alloc: Global) -> Result<TxtPart<'b>, AllocError>
        ensures { IfOk result (λ copy. copy ≡ self.now) }
    {
        Ok(TxtPart::own(self.to_txt(alloc)?))
    }
}

#[derive(Drop)]
enum BytesSource<'a, T> {
    Own(T),
    Lent(&'a [u8]),
}

/// Some bytes, own or borrowed, which contracts see as the list of them.
pub struct BlobPart<'a> {
    source: BytesSource<'a, Blob>,
}

impl<'a> Drop for BlobPart<'a> {
    fn drop(self) {
        let BlobPart { source: _ } = self;
    }
}

impl<'a> Model for BlobPart<'a> {
    ghost use Rattle.std.specs.Prelude.{List, ℕ};
    ghost use Rattle.wire_parts.specs.Sources.{bytes_of};

    ghost Value = { List ℕ };

    ghost view = { λ p. bytes_of p.source };
}

impl<'a> BlobPart<'a> {
    /// Own bytes. It takes no memory.
    pub fn own(bytes: Blob) -> BlobPart<'a>
        ensures { result ≡ bytes }
    {
        BlobPart {
            source: BytesSource::Own(bytes),
        }
    }

    /// Borrowed bytes. It takes no memory.
    pub fn lent(bytes: &'a [u8]) -> BlobPart<'a>
        ensures { result ≡ bytes.now }
    {
        BlobPart {
            source: BytesSource::Lent(bytes),
        }
    }

    /// The bytes.
    pub fn as_slice(&self) -> &[u8]
        ensures { result.now ≡ self.now }
    {
        match &self.source {
            BytesSource::Own(bytes) => bytes.as_slice(),
            BytesSource::Lent(bytes) => bytes,
        }
    }

    /// An own copy of the bytes.
    pub fn to_blob(&self, alloc: Global) -> Result<Blob, AllocError>
        ensures { IfOk result (λ bytes. bytes ≡ self.now) }
    {
        Blob::copied(alloc, self.as_slice())
    }

    /// A copy that borrows nothing.
    pub fn to_own<'b>(&self, alloc: Global) -> Result<BlobPart<'b>, AllocError>
        ensures { IfOk result (λ copy. copy ≡ self.now) }
    {
        Ok(BlobPart::own(self.to_blob(alloc)?))
    }
}

/// A cell, own or borrowed, which contracts see as the list of its bytes.
pub struct CellPart<'a> {
    source: BytesSource<'a, Cell>,
}

impl<'a> Drop for CellPart<'a> {
    fn drop(self) {
        let CellPart { source: _ } = self;
    }
}

impl<'a> Model for CellPart<'a> {
    ghost use Rattle.std.specs.Prelude.{List, ℕ};
    ghost use Rattle.wire_parts.specs.Sources.{bytes_of};

    ghost Value = { List ℕ };

    ghost view = { λ p. bytes_of p.source };
}

impl<'a> CellPart<'a> {
    /// An own cell. It takes no memory.
    pub fn own(cell: Cell) -> CellPart<'a>
        ensures { result ≡ cell }
    {
        CellPart {
            source: BytesSource::Own(cell),
        }
    }

    /// The cell of borrowed bytes. It takes no memory.
    pub fn lent(bytes: &'a [u8]) -> CellPart<'a>
        ensures { result ≡ bytes.now }
    {
        CellPart {
            source: BytesSource::Lent(bytes),
        }
    }

    /// The bytes of the cell.
    pub fn bytes(&self) -> &[u8]
        ensures { result.now ≡ self.now }
    {
        match &self.source {
            BytesSource::Own(cell) => cell.bytes(),
            BytesSource::Lent(bytes) => bytes,
        }
    }

    /// An own copy of the cell.
    pub fn to_cell(&self, alloc: Global) -> Result<Cell, AllocError>
        ensures { IfOk result (λ cell. cell ≡ self.now) }
    {
        Cell::from_bytes(alloc, self.bytes())
    }

    /// A copy that borrows nothing.
    pub fn to_own<'b>(&self, alloc: Global) -> Result<CellPart<'b>, AllocError>
        ensures { IfOk result (λ copy. copy ≡ self.now) }
    {
        Ok(CellPart::own(self.to_cell(alloc)?))
    }
}
