//! The keys of a message value by value, as they are listed.

ghost use Rattle.std.specs.Prelude.{◌≡◌, ◌≤◌, ◌↔◌, IfOk, IsTrue, length};
ghost use Rattle.wire_messages.specs.KeyLists.{are_of_one_key, entries_of, gathered, lone, pair};

use ae_base::limits::MOST_COLUMN_KEYS;
use ae_base::lists::Seq;
use ae_base::one_or_two::OneOrTwo;
use ae_base::types::KeyId;
use std::alloc::{AllocError, Global};
use wire_parts::keys::{KeyPart, ValuePart};
use wire_parts::texts::NamePart;

/// The most entries of a list of keys.
const MOST_ENTRIES: usize = 2 * MOST_COLUMN_KEYS;

/// What is listed of one value of a key.
#[derive(Drop)]
pub struct KeyEntry<'a> {
    pub id: KeyId,
    pub name: NamePart<'a>,
    pub value: ValuePart<'a>,
}

impl<'a> KeyEntry<'a> {
    /// Whether both are values of one key: of one number and one name.
    fn is_of_the_key_of(&self, other: &KeyEntry<'a>) -> bool
        ensures { result ≡ are_of_one_key self.now other.now }
    {
        self.id == other.id && self.name.as_str() == other.name.as_str()
    }

    /// The key of this value alone. It takes no memory.
    fn into_key(self) -> KeyPart<'a>
        ensures { result ≡ lone self.entry }
    {
        let KeyEntry { id, name, value } = self;
        let values = OneOrTwo {
            first: value,
            second: None,
        };
        KeyPart::new(id, name, values)
    }

    /// The key of this value and a second one. It takes no memory.
    fn into_key_with(self, second: KeyEntry<'a>) -> KeyPart<'a>
        ensures { result ≡ pair self.entry second.entry }
    {
        let KeyEntry { id, name, value } = self;
        let values = OneOrTwo {
            first: value,
            second: Some(second.value),
        };
        KeyPart::new(id, name, values)
    }
}

/// The keys of some entries: two neighbours of one number and one name are the values of one key.
pub fn gather<'a>(alloc: Global, entries: Seq<KeyEntry<'a>>) -> Result<Seq<KeyPart<'a>>, AllocError>
    ensures { IfOk result (λ keys. keys ≡ gathered entries.entry) }
{
    let mut keys = Seq::new(alloc);
    let mut before: Option<KeyEntry<'a>> = None;
    for entry in entries.into_vec() {
        match before.take() {
            Some(first) => {
                if first.is_of_the_key_of(&entry) {
                    keys.push(first.into_key_with(entry))?;
                } else {
                    keys.push(first.into_key())?;
                    before = Some(entry);
                }
            }
            None => before = Some(entry),
        }
    }
    if let Some(last) = before {
        keys.push(last.into_key())?;
    }
    Ok(keys)
}

/// How many entries some keys have.
pub fn entry_count(keys: &[KeyPart<'_>]) -> usize
    requires { length keys.now ≤ 128 }
    ensures { result ≡ length (entries_of keys.now) }
{
    let mut count = 0;
    for key in keys {
        count += match key.values().second {
            Some(_) => 2,
            None => 1,
        };
    }
    count
}

/// Whether some keys have at most 128 entries.
#[tactic(auto, using(crate::proofs::Gathering::entries_within))]
pub(crate) fn are_few(keys: &[KeyPart<'_>]) -> bool
    ensures { IsTrue result ↔ (length (entries_of keys.now) ≤ 128) }
{
    keys.len() <= MOST_ENTRIES && entry_count(keys) <= MOST_ENTRIES
}
