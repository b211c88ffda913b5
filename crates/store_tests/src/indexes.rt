//! Indexes: the number of each key.

use ae_base::atoms::{Atom, AtomOf, Row};
use ae_base::cells::Cell;
use ae_base::values::Datum;
use key_index::index::KeyIndex;
use key_index::keys::Key;
use key_index::lookups::first_uncounted;
use std::alloc::{AllocError, Global};

fn key(alloc: Global, n: Option<i64>) -> Result<Key<Cell>, AllocError> {
    let mut row: Row<Cell> = Row::new(alloc);
    row.push(Atom::new(match n {
        Some(n) => AtomOf::Plain(Datum::Num(n)),
        None => AtomOf::Null,
    }))?;
    Key::of_row(alloc, &[0], &row)
}

fn keys(alloc: Global, numbers: &[Option<i64>]) -> Result<Vec<Key<Cell>>, AllocError> {
    let mut keys = Vec::new(alloc);
    for n in numbers {
        keys.push(key(alloc, *n)?)?;
    }
    Ok(keys)
}

// Puts keys into an index, with numbers that count up from 10.
fn fill(alloc: Global, index: &mut KeyIndex<Cell>, keys: &[Option<i64>]) -> Result<(), AllocError> {
    for (i, n) in keys.iter().enumerate() {
        let key = key(alloc, *n)?;
        index.reserve(1)?;
        index.put(key, 10 + i);
    }
    Ok(())
}

fn keeps_numbers(alloc: Global, index: &mut KeyIndex<Cell>) -> Result<[bool; 5], AllocError> {
    fill(alloc, index, &[Some(7), None, Some(8)])?;
    let first = index.number_of(&key(alloc, Some(7))?) == Some(10);
    let null = index.number_of(&key(alloc, None)?) == Some(11);
    let seven = key(alloc, Some(7))?;
    index.reserve(1)?;
    index.remove(seven);
    let gone = index.number_of(&key(alloc, Some(7))?).is_none();
    let stays = index.number_of(&key(alloc, Some(8))?) == Some(12);
    fill(alloc, index, &[Some(8)])?;
    let later = index.number_of(&key(alloc, Some(8))?) == Some(10);
    Ok([first, null, gone, stays, later])
}

/// A key has the number that it was given last, NULL is a key like others, and what is taken out is
/// gone.
#[test]
fn numbers_of_keys(rt: HostRuntime) -> Result<(), AllocError> {
    let mut index = KeyIndex::new(rt.alloc());
    let kept = keeps_numbers(rt.alloc(), &mut index);
    drop(index);
    assert!(rt; kept? == [true; 5]);
    Ok(())
}

fn differs_from_its_copy(
    alloc: Global,
    index: &mut KeyIndex<Cell>,
) -> Result<[bool; 5], AllocError> {
    fill(alloc, index, &[Some(7), Some(8)])?;
    index.seal(alloc);
    let mut copy = index.copy(alloc)?;
    let seven = key(alloc, Some(7))?;
    copy.reserve(1)?;
    copy.remove(seven);
    fill(alloc, &mut copy, &[Some(9)])?;
    let gone = copy.number_of(&key(alloc, Some(7))?).is_none();
    let put = copy.number_of(&key(alloc, Some(9))?) == Some(10);
    let both = copy.number_of(&key(alloc, Some(8))?) == Some(11);
    let stays = index.number_of(&key(alloc, Some(7))?) == Some(10);
    let lacks = index.number_of(&key(alloc, Some(9))?).is_none();
    Ok([gone, put, both, stays, lacks])
}

/// What is put into a copy, or taken out of it, isn't seen in the index that it was made of.
#[test]
fn copies_of_a_sealed_index(rt: HostRuntime) -> Result<(), AllocError> {
    let mut index = KeyIndex::new(rt.alloc());
    let kept = differs_from_its_copy(rt.alloc(), &mut index);
    drop(index);
    assert!(rt; kept? == [true; 5]);
    Ok(())
}

// The first of some new keys that an index of the keys 1 and 5 has, with another number than one
// that goes, or that is alike to one before it.
fn first_alike(
    alloc: Global,
    index: &mut KeyIndex<Cell>,
    gone: Option<usize>,
    new: &[Option<i64>],
) -> Result<Option<usize>, AllocError> {
    fill(alloc, index, &[Some(1), Some(5)])?;
    let new = keys(alloc, new)?;
    match gone {
        Some(number) => first_uncounted(alloc, index, &[number], new.as_slice()),
        None => first_uncounted(alloc, index, &[], new.as_slice()),
    }
}

/// The first new key that is known, or alike to one before it.
#[test]
fn first_key_that_is_alike(rt: HostRuntime) -> Result<(), AllocError> {
    let cases: [(Option<usize>, &[Option<i64>], Option<usize>); 5] = [
        (None, &[Some(2), Some(3), Some(2)], Some(2)),
        (None, &[None, Some(1)], Some(1)),
        (None, &[Some(2), Some(3)], None),
        (Some(10), &[Some(2), Some(1)], None),
        (Some(10), &[Some(1), Some(5)], Some(1)),
    ];
    for (gone, new, first) in cases {
        let mut index = KeyIndex::new(rt.alloc());
        let found = first_alike(rt.alloc(), &mut index, gone, new);
        drop(index);
        assert!(rt; found? == first);
    }
    Ok(())
}
