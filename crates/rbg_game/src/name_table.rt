//! Tables of names: the things of a description by their numbers, and the number of a name.
ghost use Rattle.std.specs.Prelude.{◌≡◌, ◌≤◌, ◌^◌, [], ◌∷◌, ◌++◌, length, map, slice_get, Some, true, Contains, MatchOption, OnOk, OnErr, IfErr, IfOk, string_bytes};
ghost use Rattle.std.specs.List.{AllZip};
ghost use Rattle.rbg_base.specs.Names.{is_name};
ghost use Rattle.rbg_grammar.specs.Views.{name_of};
ghost use Rattle.rbg_rules.specs.Meaning.{texts, AreLawfulNames};
ghost use Rattle.rbg_game.specs.NameNumbers.{IsNumberOf};
ghost use Rattle.rbg_game.specs.NameTables.{HasLookUpFault, HasNameFault};

use crate::game_error::GameError;
use rbg_grammar::Name;
use std::alloc::{AllocError, Global};
use std::collections::BTreeMap;
use std::marker::Model;

/// Different names, numbered from 0 in order of text.
pub struct NameTable {
    /// The names in order of their numbers.
    names: Vec<Vec<u8>>,
    /// The number of each name.
    numbers: BTreeMap<Vec<u8>, usize>,
}

impl Model for NameTable {
    ghost use Rattle.std.specs.Prelude.{ℕ, List};

    ghost Value = { List (List ℕ) };

    ghost use Rattle.rbg_game.specs.NameTables.{bytes_of};

    ghost view = { λ table. bytes_of table.names.items };

    ghost use Rattle.rbg_game.specs.internal.Tables.{IsTable};

    ghost invariant = { λ table. IsTable (bytes_of table.names.items) table.numbers };
}

/// Written by hand: dropping a table is then one call in the proofs of its owners, not a step for each part.
impl Drop for NameTable {
    fn drop(self) {
        let NameTable {
            names: _,
            numbers: _,
        } = self;
    }
}

impl NameTable {
    pub fn new(alloc: Global) -> NameTable
        ensures { result ≡ [] }
    {
        NameTable {
            names: Vec::new(alloc),
            numbers: BTreeMap::new(alloc),
        }
    }

    pub fn len(&self) -> usize
        ensures count { result ≡ length self.now }
        ensures lawful { AreLawfulNames self.now }
    {
        self.names.len()
    }

    /// The number of a name, if it is in the table.
    pub fn number_of(&self, text: &[u8]) -> Option<usize>
        ensures { MatchOption result (¬ Contains self.now text.now) (λ n.
            slice_get self.now n ≡ Some text.now) }
    {
        self.numbers.get(text).copied()
    }

    /// The number of a name that a description uses.
    pub fn find(&self, name: &Name<'_>) -> Result<u16, GameError>
        requires { length self.now ≤ 2 ^ 16 }
        ensures number { IfOk result (IsNumberOf self.now (name_of name.now)) }
        ensures fault { IfErr result (HasLookUpFault self.now (name_of name.now ∷ [])) }
    {
        match self.number_of(name.text) {
            Some(number) => Ok(number as u16),
            None => Err(GameError::UnknownName { at: name.at }),
        }
    }

    /// The numbers of names that a description uses.
    pub fn find_all(&self, alloc: Global, names: &[Name<'_>]) -> Result<Vec<u16>, GameError>
        requires { length self.now ≤ 2 ^ 16 }
        ensures numbers { IfOk result (λ ns.
            AllZip (IsNumberOf self.now) (map name_of names.now) ns.items) }
        ensures fault { IfErr result (HasLookUpFault self.now (map name_of names.now)) }
    {
        let mut numbers = Vec::with_capacity(alloc, names.len())?;
        for name in names {
            numbers.push(self.find(name)?)?;
        }
        Ok(numbers)
    }

    /// Adds a name after the others.
    pub fn insert(&mut self, name: &Name<'_>) -> Result<(), GameError>
        ensures ok { OnOk result (self.new ≡ self.old ++ name.now.text.now ∷ []) }
        ensures kept { OnErr result (self.new ≡ self.old) }
        ensures fault { IfErr result (HasNameFault self.old (name_of name.now ∷ [])) }
    {
        if self.number_of(name.text).is_some() {
            return Err(GameError::SameName { at: name.at });
        }
        self.push(name.text)?;
        Ok(())
    }

    /// Adds a name that is not in the table.
    fn push(&mut self, text: &[u8]) -> Result<(), AllocError>
        requires name { is_name text.now ≡ true }
        requires new { ¬ Contains self.old text.now }
        ensures ok { OnOk result (self.new ≡ self.old ++ text.now ∷ []) }
        ensures kept { OnErr result (self.new ≡ self.old) }
    {
        let alloc = *self.names.allocator();
        let name = Vec::from_slice(alloc, text)?;
        let key = Vec::from_slice(alloc, text)?;
        self.names.reserve(1)?;
        self.numbers.insert(key, self.names.len())?;
        self.names.push_reserved(name);
        Ok(())
    }

    /// The names in order of their numbers.
    pub fn to_names(&self, alloc: Global) -> Result<Vec<String>, AllocError>
        ensures { IfOk result (λ names. texts names.items ≡ self.now) }
    {
        let mut names = Vec::with_capacity(alloc, self.names.len())?;
        for name in &self.names {
            names.push(name_text(name)?)?;
        }
        Ok(names)
    }
}

/// The bytes of a name as a text: they are ASCII.
#[tactic(auto, using(crate::proofs::NameLemmas::name_texts))]
fn name_text(name: &Vec<u8>) -> Result<String, AllocError>
    requires { is_name name.now.items ≡ true }
    ensures { IfOk result (λ text. string_bytes text ≡ name.now.items) }
{
    Ok(String::from_utf8(name.clone()?).unwrap())
}
