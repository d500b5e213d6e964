//! A dictionary: a list of names in order, and a map from each name to its number. A new name is added to both at once.

ghost use Rattle.std.specs.Prelude.{◌≡◌, ◌↔◌, ◌<◌, ◌≤◌, true, false, [], ◌∷◌, ◌++◌, length, Err, IfOk, OnOk, IsNone, MatchOption, None, Some, ℕ, ◌+◌, ◌≢◌, List, map};
ghost use Rattle.std.specs.List.{slice_get, concat};
ghost use Rattle.std.specs.Option.{option_copied, option_map};
ghost use Rattle.acl_model.specs.Limits.{most_names};
ghost use Rattle.acl_model.specs.Names.{is_name};
ghost use Rattle.acl_model.specs.Document.{is_document, is_well_formed, item_well_formed};
ghost use Rattle.acl_model.specs.Dictionary.{start_names, item_start_names, has_name, name_number, with_name, with_names, dictionary, is_dictionary, spelled_name, dictionary_section};
ghost use Rattle.tag_dictionary.specs.inside.NameReading.{cut_name, may_join, read_names};

use crate::fault::{DictFault, TagFault};
use acl_model::limits::MOST_NAMES;
use acl_model::{Bytes, Doc, Element, Item, Name, is_a_name};
use acl_outside::NoMemory;
use std::alloc::{AllocError, Global};
use std::collections::HashMap;
use std::marker::Model;

/// At most 256 names, each with its number. In contracts it is the list of its names in order. A name's number is how
/// many names come before it.
#[derive(Debug, Drop)]
pub struct Dictionary {
    names: Vec<Name>,
    numbers: HashMap<Vec<u8>, u16>,
}

impl Model for Dictionary {
    ghost use Rattle.std.specs.Prelude.{List, ℕ};
    ghost use Rattle.tag_dictionary.specs.inside.Index.{IsIndex};

    ghost Value = { List (List ℕ) };

    ghost view = { λ d. d.names.items };

    ghost invariant = { λ d. IsIndex d.numbers d.names.items };
}

impl Dictionary {
    /// The names of a document, in the order in which elements of each name first start.
    pub fn of_doc(alloc: Global, doc: &Doc) -> Result<Dictionary, TagFault>
        requires { is_document doc.now ≡ true }
        ensures names { IfOk result (λ d. d ≡ dictionary doc.now) }
        ensures few { OnOk result (length (dictionary doc.now) ≤ most_names) }
        ensures many { result ≡ Err TagFault.TooManyTags
            → most_names < length (dictionary doc.now) }
    {
        let mut dictionary = Dictionary::empty(alloc);
        dictionary.add_element(alloc, &doc.root)?;
        Ok(dictionary)
    }

    /// The dictionary without names.
    pub(crate) fn empty(alloc: Global) -> Dictionary
        ensures { result ≡ [] }
    {
        Dictionary {
            names: Vec::new(alloc),
            numbers: HashMap::new(alloc),
        }
    }

    /// The number of a name. Returns `None` exactly where the dictionary has no such name.
    pub fn number(&self, name: &[u8]) -> Option<u16>
        ensures number { result ≡ name_number self.now name.now }
        ensures none { IsNone result ↔ (has_name self.now name.now ≡ false) }
    {
        self.numbers.get(name).copied()
    }

    /// The name of a number. Returns `None` exactly where the number isn't below the number of names.
    pub fn name(&self, number: u16) -> Option<&[u8]>
        ensures name { option_map (λ name. name.now) result ≡ slice_get self.now number }
        ensures none { IsNone result ↔ (length self.now ≤ number) }
    {
        match self.names.get(number as usize) {
            Some(name) => Some(name.as_slice()),
            None => None,
        }
    }

    /// The names in order.
    pub fn names(&self) -> &[Name]
        ensures { result.now ≡ self.now }
    {
        self.names.as_slice()
    }

    /// Returns an equal dictionary.
    pub fn copy(&self, alloc: Global) -> Result<Dictionary, NoMemory>
        ensures { IfOk result (λ d. d ≡ self.now) }
    {
        let mut copy = Dictionary::empty(alloc);
        for name in self.names.as_slice() {
            match copy.add(alloc, name.as_slice()) {
                Ok(()) => {}
                Err(_) => return Err(NoMemory),
            }
        }
        Ok(copy)
    }

    /// The dictionary section: the number of names in two bytes, highest first, and for each name its length in one byte
    /// and its bytes.
    pub fn bytes(&self, alloc: Global) -> Result<Bytes, NoMemory>
        ensures { IfOk result (λ bytes. bytes ≡ dictionary_section self.now) }
    {
        let mut bytes = Vec::new(alloc);
        bytes.extend_from_slice(&(self.names.len() as u16).to_be_bytes())?;
        for name in self.names.as_slice() {
            bytes.push(name.len() as u8)?;
            bytes.extend_from_slice(name.as_slice())?;
        }
        Ok(Bytes::from_vec(bytes))
    }

    /// Reads a dictionary section. Answers `BadIndex` only where the bytes are the section of no dictionary.
    pub fn read(alloc: Global, bytes: &[u8]) -> Result<Dictionary, DictFault>
        ensures names { IfOk result (λ d. is_dictionary d ≡ true) }
        ensures bytes { IfOk result (λ d. dictionary_section d ≡ bytes.now) }
        ensures bad { result ≡ Err DictFault.BadIndex → (names : List (List ℕ))
            → is_dictionary names ≡ true → dictionary_section names ≢ bytes.now }
    {
        let [high, low, spelled @ ..] = bytes else {
            return Err(DictFault::BadIndex);
        };
        let count = u16::from_be_bytes([*high, *low]);
        if count == 0 || usize::from(count) > MOST_NAMES {
            return Err(DictFault::BadIndex);
        }
        Dictionary::read_names(alloc, count, spelled)
    }

    /// Reads exactly `count` names, which must use all of the bytes.
    fn read_names(alloc: Global, count: u16, bytes: &[u8]) -> Result<Dictionary, DictFault>
        requires some { 1 ≤ count }
        requires few { count ≤ most_names }
        ensures count { IfOk result (λ d. length d ≡ count) }
        ensures names { IfOk result (λ d. is_dictionary d ≡ true) }
        ensures bytes { IfOk result (λ d. concat (map spelled_name d) ≡ bytes.now) }
        ensures bad { result ≡ Err DictFault.BadIndex → read_names count [] bytes.now ≡ None }
    {
        let mut dictionary = Dictionary::empty(alloc);
        let mut rest = bytes;
        for _ in 0..count {
            rest = dictionary.read_name(alloc, rest)?;
        }
        if !rest.is_empty() {
            return Err(DictFault::BadIndex);
        }
        Ok(dictionary)
    }

    /// Reads one more name, adds it, and returns the bytes that follow it.
    fn read_name<'a>(&mut self, alloc: Global, bytes: &'a [u8]) -> Result<&'a [u8], DictFault>
        requires { length self.old < most_names }
        ensures joined { OnOk result (length self.new ≡ length self.old + 1) }
        ensures bytes { IfOk result (λ rest.
            concat (map spelled_name self.old) ++ bytes.now ≡ concat (map spelled_name self.new) ++ rest.now) }
        ensures rest { IfOk result (λ rest.
            (n : ℕ) → read_names (n + 1) self.old bytes.now ≡ read_names n self.new rest.now) }
        ensures bad { result ≡ Err DictFault.BadIndex
            → (n : ℕ) → read_names (n + 1) self.old bytes.now ≡ None }
    {
        let Some((name, rest)) = next_name(bytes) else {
            return Err(DictFault::BadIndex);
        };
        if !self.may_join(name) {
            return Err(DictFault::BadIndex);
        }
        self.push(alloc, name)?;
        Ok(rest)
    }

    /// Whether the bytes have the form of a name that the dictionary doesn't have yet.
    fn may_join(&self, name: &[u8]) -> bool
        ensures { result ≡ may_join self.now name.now }
    {
        is_a_name(name) && !self.numbers.contains_key(name)
    }

    /// Appends a name that the dictionary doesn't have yet.
    pub(crate) fn push(&mut self, alloc: Global, name: &[u8]) -> Result<(), AllocError>
        requires named { is_name name.now ≡ true }
        requires new { has_name self.old name.now ≡ false }
        requires room { length self.old < most_names }
        ensures { OnOk result (self.new ≡ self.old ++ (name.now ∷ [])) }
    {
        let number = self.names.len() as u16;
        let key = Vec::from_slice(alloc, name)?;
        let name = Name::from_slice(alloc, name)?;
        self.names.reserve(1)?;
        match self.numbers.insert(key, number) {
            Ok(_) => {
                self.names.push(name).unwrap();
                Ok(())
            }
            Err(_) => Err(AllocError),
        }
    }

    /// Appends a name unless the dictionary has it already.
    #[tactic(auto, using(acl_model::proofs::DictionaryLaws::joinings))]
    fn add(&mut self, alloc: Global, name: &[u8]) -> Result<(), TagFault>
        requires { is_name name.now ≡ true }
        ensures joined { OnOk result (self.new ≡ with_name self.old name.now) }
        ensures many { result ≡ Err TagFault.TooManyTags
            → most_names < length (with_name self.old name.now) }
    {
        if self.numbers.contains_key(name) {
            return Ok(());
        }
        if self.names.len() >= MOST_NAMES {
            return Err(TagFault::TooManyTags);
        }
        self.push(alloc, name)?;
        Ok(())
    }

    /// Adds the names of an element and of all elements inside it.
    #[cycle(tree)]
    #[tactic(auto, using(acl_model::proofs::DictionaryLaws::start_equations, acl_model::proofs::FormEquations::form_equations))]
    fn add_element(&mut self, alloc: Global, element: &Element) -> Result<(), TagFault>
        requires formed { is_well_formed is_name element.now ≡ true }
        ensures joined { OnOk result (self.new ≡ with_names self.old (start_names element.now)) }
        ensures many { result ≡ Err TagFault.TooManyTags
            → most_names < length (with_names self.old (start_names element.now)) }
    {
        self.add(alloc, element.name.as_slice())?;
        for item in element.items.as_slice() {
            self.add_item(alloc, item)?;
        }
        Ok(())
    }

    /// Adds the names of all elements of an item. A text has none.
    #[cycle(tree)]
    #[tactic(auto, using(acl_model::proofs::DictionaryLaws::start_equations, acl_model::proofs::FormEquations::form_equations))]
    fn add_item(&mut self, alloc: Global, item: &Item) -> Result<(), TagFault>
        requires formed { item_well_formed is_name item.now ≡ true }
        ensures joined { OnOk result (self.new ≡ with_names self.old (item_start_names item.now)) }
        ensures many { result ≡ Err TagFault.TooManyTags
            → most_names < length (with_names self.old (item_start_names item.now)) }
    {
        match item {
            Item::Text(_) => Ok(()),
            Item::Child(element) => self.add_element(alloc, element.get()),
        }
    }
}

/// The name that the bytes begin with, and the bytes that follow it.
fn next_name(bytes: &[u8]) -> Option<(&[u8], &[u8])>
    ensures { MatchOption result
        (cut_name bytes.now ≡ None)
        (λ p. cut_name bytes.now ≡ Some (p.0.now, p.1.now)) }
{
    let [count, rest @ ..] = bytes else {
        return None;
    };
    let count = *count as usize;
    if rest.len() < count {
        return None;
    }
    Some((&rest[..count], &rest[count..]))
}
