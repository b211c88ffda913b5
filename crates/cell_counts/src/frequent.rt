//! The commonest cells.

ghost use Rattle.std.specs.Prelude.{◌≡◌, ◌<◌, [], IfOk, IfSome, OnOk, length, nat_lt};
ghost use Rattle.std.specs.List.{position};
ghost use Rattle.cell_counts.specs.Counts.{commonest, placed};

use std::alloc::{AllocError, Global};

/// A cell's number, and how often it came.
#[derive(Clone, Copy, PartialEq, Eq, Debug)]
pub struct Common {
    pub number: usize,
    pub count: u64,
}

/// The first place whose cell came less often.
fn first_rarer(best: &[Common], count: u64) -> Option<usize>
    ensures index { result ≡ position (λ b. nat_lt b.count count) best.now }
    ensures within { IfSome result (λ index. index < length best.now) }
{
    best.iter().position(|b| b.count < count)
}

/// Puts a cell before the first that came less often, and lets the last go where there are more
/// than ten.
fn index(best: &mut Vec<Common>, one: Common) -> Result<(), AllocError>
    ensures { OnOk result (best.new.items ≡ placed one best.old.items) }
{
    match first_rarer(best.as_slice(), one.count) {
        Some(index) => best.insert(index, one)?,
        None => best.push(one)?,
    }
    best.truncate(10);
    Ok(())
}

/// The ten cells that came most often, the commonest first; of equally common ones, first that
/// which was seen first.
pub fn commonest(alloc: Global, numbers: &[u64]) -> Result<Vec<Common>, AllocError>
    ensures { IfOk result (λ best. best.items ≡ commonest [] 0 numbers.now) }
{
    let mut best = Vec::new(alloc);
    for number in 0..numbers.len() {
        let count = numbers[number];
        index(&mut best, Common { number, count })?;
    }
    Ok(best)
}
