//! Names and their numbers.

ghost use Rattle.std.specs.Prelude.{◌≡◌, ◌<◌, ◌≤◌, ◌^◌, ◌++◌, ◌∷◌, [], List, ℕ, true, Some, None, length, bytes_eq, if◌then◌else◌, OnOk, OnErr};
ghost use Rattle.std.specs.Option.{option_or};
ghost use Rattle.std.specs.BTreeMap.{get};
ghost use Rattle.std.specs.Ordering.{nat_cmp};
ghost use Rattle.text.specs.Words.{is_name as is_name_of};
ghost use Rattle.text.specs.Names.{defined, key_of, name as name_of, new_name as new_name_of};

use crate::fault::Reason;
use crate::words::is_name;
use arrayvec::ArrayVec;
use std::alloc::{AllocError, Global};
use std::collections::BTreeMap;
use std::marker::Model;

/// A name: a letter a to z, and then at most 15 of a to z, 0 to 9 and `_`.
#[derive(Drop)]
pub struct Name {
    bytes: ArrayVec<u8, 16>,
}

impl Model for Name {
    ghost use Rattle.std.specs.Prelude.{List, ℕ, ◌≡◌, true};
    ghost use Rattle.text.specs.Words.{is_name};

    ghost Value = { List ℕ };

    ghost view = { λ n. n.bytes.items };

    ghost invariant = { λ n. is_name n.bytes.items ≡ true };
}

/// Returns bytes as one number, the first byte in its lowest eight bits.
fn key_in(bytes: &[u8]) -> u128
    requires { length bytes.now ≤ 16 }
    ensures value { result ≡ key_of bytes.now }
    ensures range { result < 256 ^ length bytes.now }
{
    match bytes.split_first() {
        None => 0,
        Some((byte, rest)) => u128::from(*byte) + 256 * key_in(rest),
    }
}

impl Name {
    /// Returns a word as a name. A word that is not a name is `UnknownWord`.
    pub fn new(word: &[u8]) -> Result<Name, Reason>
        ensures { result ≡ name_of word.now }
    {
        if !is_name(word) {
            return Err(Reason::UnknownWord);
        }
        let mut bytes = ArrayVec::new();
        let _ = bytes.try_extend_from_slice(word);
        Ok(Name { bytes })
    }

    /// Returns a number that no other name has, the key of a `BTreeMap`. With a list, 80,000 labels of one program took
    /// ten seconds. With a `HashMap`, which has a known seed, names could be chosen to collide.
    fn key(&self) -> u128
        ensures value { result ≡ key_of self.now }
        ensures name { is_name_of self.now ≡ true }
    {
        key_in(self.bytes.as_slice())
    }
}

/// A name, and the code address or the number of a program that it stands for.
#[derive(Drop)]
pub struct Definition {
    pub name: Name,
    pub number: u16,
}

/// Maps a name to a number, unless it has a number. Fails, without a change, if there is no memory.
fn index(numbers: &mut BTreeMap<u128, u16>, name: &Name, number: u16) -> Result<(), AllocError>
    ensures ok { OnOk result ((n : List ℕ) → is_name_of n ≡ true → get nat_cmp numbers.new (key_of n) ≡ option_or (get nat_cmp numbers.old (key_of n)) (if bytes_eq name.now n then Some number else None)) }
    ensures err { OnErr result ((key : ℕ) → get nat_cmp numbers.new key ≡ get nat_cmp numbers.old key) }
{
    let key = name.key();
    if numbers.get(&key).is_some() {
        return Ok(());
    }
    numbers.insert(key, number)?;
    Ok(())
}

/// Names and their numbers, in the order of their definitions. A search takes logarithmic time, because a text can
/// define a name on each of its lines.
#[derive(Drop)]
pub struct Definitions {
    list: Vec<Definition>,
    /// The number of each name of the list.
    numbers: BTreeMap<u128, u16>,
}

impl Model for Definitions {
    ghost use Rattle.std.specs.Prelude.{List, ℕ, ◌≡◌, true};
    ghost use Rattle.std.specs.Ordering.{nat_cmp};
    ghost use Rattle.std.specs.BTreeMap.{get};
    ghost use Rattle.text.specs.Words.{is_name};
    ghost use Rattle.text.specs.Names.{defined, key_of};
    ghost use Rattle.text.specs.declared.names.Definition.{Definition};

    ghost Value = { List Definition };

    ghost view = { λ d. d.list.items };

    ghost invariant = { λ d. (n : List ℕ) → is_name n ≡ true → get nat_cmp d.numbers (key_of n) ≡ defined n d.list.items };
}

impl Definitions {
    /// Returns an empty list of names.
    pub fn new(alloc: Global) -> Definitions
        ensures { result ≡ [] }
    {
        Definitions {
            list: Vec::new(alloc),
            numbers: BTreeMap::new(alloc),
        }
    }

    /// Returns the number of a name; `None` if the name is not defined.
    pub fn number_of(&self, name: &Name) -> Option<u16>
        ensures { result ≡ defined name.now self.now }
    {
        self.numbers.get(&name.key()).copied()
    }

    /// Returns a word as a name that is not defined yet. A word that is not a name is `UnknownWord`, and a defined name
    /// is `NameTwice`.
    pub fn new_name(&self, word: &[u8]) -> Result<Name, Reason>
        ensures { result ≡ new_name_of self.now word.now }
    {
        let name = Name::new(word)?;
        if self.number_of(&name).is_some() {
            return Err(Reason::NameTwice);
        }
        Ok(name)
    }

    /// Defines a name. If it is defined already, it keeps its number. Fails, without a change, if there is no memory.
    pub fn push(&mut self, name: Name, number: u16) -> Result<(), AllocError>
        ensures ok { OnOk result (self.new ≡ self.old ++ record { name = name; number = number } ∷ []) }
        ensures err { OnErr result (self.new ≡ self.old) }
    {
        self.list.reserve(1)?;
        index(&mut self.numbers, &name, number)?;
        self.list.push_reserved(Definition { name, number });
        Ok(())
    }
}
