//! How many bytes atoms take.

ghost use Rattle.std.specs.Prelude.{◌≡◌, ◌≤◌, length, flat_map};
ghost use Rattle.wire_encoding.specs.Spelling as spell;

use wire_messages::replies::RowParts;
use wire_parts::atoms::{AtomCase, AtomPart};

/// How many bytes an atom takes.
fn atom_size(atom: &AtomPart<'_>) -> usize
    ensures size { result ≡ length (spell.atom atom.now) }
    ensures within { result ≤ 16387 }
{
    match atom.case() {
        AtomCase::Null => 1,
        AtomCase::Num(_) => 9,
        AtomCase::Text(text) => 3 + text.as_str().len(),
        AtomCase::Bin(bytes) => 3 + bytes.as_slice().len(),
        AtomCase::Sealed(cell) => 3 + cell.bytes().len(),
    }
}

/// How many bytes the atoms of a row take.
pub fn row_size(row: &RowParts<'_>) -> usize
    ensures size { result ≡ length (flat_map spell.atom row.now) }
    ensures within { result ≤ 8390144 }
{
    let atoms = row.atoms();
    let mut size = 0;
    for atom in atoms {
        size += atom_size(atom);
    }
    size
}
