// Texts, lists of texts and byte strings. Contracts see them as lists; none is longer than the greatest length.
ghost use Rattle.std.specs.Prelude.{◌≡◌, ℕ, ◌≤◌, List, [], ◌∷◌, ◌++◌, length, string_bytes, slice_get, nat_eq, refl, Some, IfSome, IfNone, OnOk, OnErr, IfOk};
ghost use Rattle.std.specs.Arc.{arc_value};
ghost use Rattle.std.specs.Cmp.{partial_equiv_from_equiv};
ghost use Rattle.std.specs.Cmp.Lexicographic.{pointwise, slice_cmp, nat_list_eq_equiv, nat_list_cmp_total, texts_ties, texts_po};
ghost use Rattle.std.specs.Option.{option_copied};
ghost use Rattle.std.specs.Ordering.{nat_cmp};
ghost use Rattle.std.specs.Str.{IsUtf8};
ghost use Rattle.value_trees.specs.Lists.{IsWithinLimit, FitsOneMore, StandsAt};
ghost use Rattle.clone_values.specs.Held.{items_held};

use crate::holding::{Held, hold, push, share, slice};
use std::alloc::{AllocError, Global};
use std::cmp::Ordering;
use std::marker::Model;
use std::sync::Arc;
use value_trees::{Listed, NoMemory};

/// A list of numbers.
pub type Numbers = Listed<u64>;

/// Unicode text, which its copies share; contracts see its UTF-8 bytes, by which texts compare.
#[derive(Debug, Drop)]
pub struct Text {
    text: Arc<String>,
}

impl Model for Text {
    ghost use Rattle.std.specs.Prelude.{ℕ, List, string_bytes};
    ghost use Rattle.std.specs.Arc.{arc_value};
    ghost use Rattle.value_trees.specs.Lists.{IsWithinLimit};

    ghost Value = { List ℕ };

    ghost view = { λ a. string_bytes (arc_value a.text) };

    ghost invariant = { λ a. IsWithinLimit (string_bytes (arc_value a.text)) };
}

impl Clone for Text {
    ghost is_clone = { λ x y. y ≡ x };

    fn clone(&self) -> Result<Text, AllocError> {
        Ok(Text {
            text: Arc::try_clone(&self.text)?,
        })
    }
}

impl PartialEq for Text {
    ghost eq = { pointwise nat_eq };

    ghost laws = { partial_equiv_from_equiv nat_list_eq_equiv };

    fn eq(&self, other: &Text) -> bool {
        self.as_str() == other.as_str()
    }
}

impl Eq for Text {
    ghost laws = { nat_list_eq_equiv };
}

impl PartialOrd for Text {
    ghost partial_cmp = { λ x y. Some (slice_cmp nat_cmp x y) };

    ghost laws = { texts_po };

    fn partial_cmp(&self, other: &Text) -> Option<Ordering> {
        Some(self.cmp(other))
    }
}

impl Ord for Text {
    ghost cmp = { slice_cmp nat_cmp };

    ghost total = { nat_list_cmp_total };

    ghost matches_partial_cmp = { λ x y. refl };

    ghost matches_eq = { texts_ties };

    fn cmp(&self, other: &Text) -> Ordering {
        self.as_str().cmp(other.as_str())
    }
}

impl Text {
    /// A text of the same characters.
    pub fn copy_of(alloc: Global, s: &str) -> Result<Text, NoMemory>
        requires { IsWithinLimit s.now }
        ensures { IfOk result (λ t. t ≡ s.now) }
    {
        Text::from_string(alloc, String::from_str(alloc, s)?)
    }

    /// The text that the string holds.
    pub fn from_string(alloc: Global, text: String) -> Result<Text, NoMemory>
        requires { IsWithinLimit (string_bytes text) }
        ensures { IfOk result (λ t. t ≡ string_bytes text) }
    {
        Ok(Text {
            text: Arc::new(alloc, text)?,
        })
    }

    /// An equal text; it shares the characters.
    pub fn copy(&self, _alloc: Global) -> Result<Text, NoMemory>
        ensures { IfOk result (λ t. t ≡ self.now) }
    {
        Ok(self.clone()?)
    }

    /// The characters.
    pub fn as_str(&self) -> &str
        ensures value { result.now ≡ self.now }
        ensures utf8 { IsUtf8 self.now }
        ensures short { IsWithinLimit self.now }
    {
        self.text.as_str()
    }
}

/// A list of texts.
#[derive(Debug, Drop)]
pub struct Texts {
    texts: Listed<Text>,
}

impl Model for Texts {
    ghost use Rattle.std.specs.Prelude.{ℕ, List};
    ghost use Rattle.value_trees.specs.Lists.{IsWithinLimit};

    ghost Value = { List (List ℕ) };

    ghost view = { λ a. a.texts };

    ghost invariant = { λ a. IsWithinLimit a.texts };
}

impl Texts {
    /// The empty list; it takes no memory.
    pub fn new(alloc: Global) -> Self
        ensures { result ≡ [] }
    {
        Texts {
            texts: Listed::new(alloc),
        }
    }

    /// The texts of a vector, in order. It takes no memory.
    pub fn from_vec(texts: Vec<Text>) -> Texts
        requires { IsWithinLimit texts.items }
        ensures { result ≡ texts.items }
    {
        Texts {
            texts: Listed::from_vec(texts),
        }
    }

    /// The texts as a vector, in order. It takes no memory.
    pub fn into_vec(self) -> Vec<Text>
        ensures { result.items ≡ self }
    {
        self.texts.into_vec()
    }

    /// How many texts there are.
    pub fn len(&self) -> usize
        ensures count { result ≡ length self.now }
        ensures short { IsWithinLimit self.now }
    {
        self.texts.len()
    }

    /// The text at this place, counted from 0; `None` past the end.
    pub fn at(&self, place: usize) -> Option<&Text>
        ensures item { option_copied result ≡ slice_get self.now place }
        ensures stands { IfSome result (λ x. StandsAt self.now place x.now) }
        ensures past_end { IfNone result (length self.now ≤ place) }
    {
        self.texts.at(place)
    }

    /// Puts a text at the end.
    pub fn push(&mut self, item: Text) -> Result<(), NoMemory>
        requires { FitsOneMore self.old }
        ensures stored { OnOk result (self.new ≡ self.old ++ item ∷ []) }
        ensures unchanged { OnErr result (self.new ≡ self.old) }
    {
        self.texts.push(item)
    }

    /// An equal list.
    pub fn copy(&self, alloc: Global) -> Result<Texts, NoMemory>
        ensures { IfOk result (λ t. t ≡ self.now) }
    {
        Ok(Texts {
            texts: self.texts.copy(alloc)?,
        })
    }
}

/// A byte string, which its copies share.
#[derive(Debug, Drop)]
pub struct Bytes {
    bytes: Held<u8>,
    alloc: Global,
}

impl Model for Bytes {
    ghost use Rattle.std.specs.Prelude.{ℕ, List};
    ghost use Rattle.value_trees.specs.Lists.{IsWithinLimit};
    ghost use Rattle.clone_values.specs.Held.{items_held};

    ghost Value = { List ℕ };

    ghost view = { λ a. items_held a.bytes };

    ghost invariant = { λ a. IsWithinLimit (items_held a.bytes) };
}

impl Clone for Bytes {
    ghost is_clone = { λ x y. y ≡ x };

    fn clone(&self) -> Result<Bytes, AllocError> {
        Ok(Bytes {
            bytes: share(&self.bytes)?,
            alloc: self.alloc,
        })
    }
}

impl Bytes {
    /// The empty byte string; it takes no memory.
    pub fn new(alloc: Global) -> Self
        ensures { result ≡ [] }
    {
        Bytes {
            bytes: Held::Empty,
            alloc,
        }
    }

    /// The bytes of a vector, in order.
    pub fn from_vec(alloc: Global, bytes: Vec<u8>) -> Result<Bytes, NoMemory>
        requires { IsWithinLimit bytes.items }
        ensures { IfOk result (λ b. b ≡ bytes.items) }
    {
        Ok(Bytes {
            bytes: hold(alloc, bytes)?,
            alloc,
        })
    }

    /// How many bytes there are.
    pub fn len(&self) -> usize
        ensures count { result ≡ length self.now }
        ensures short { IsWithinLimit self.now }
    {
        slice(&self.bytes).len()
    }

    /// The byte at this place, counted from 0; `None` past the end.
    pub fn at(&self, place: usize) -> Option<&u8>
        ensures item { option_copied result ≡ slice_get self.now place }
        ensures stands { IfSome result (λ x. StandsAt self.now place x.now) }
        ensures past_end { IfNone result (length self.now ≤ place) }
    {
        slice(&self.bytes).get(place)
    }

    /// Puts a byte at the end.
    pub fn push(&mut self, item: u8) -> Result<(), NoMemory>
        requires { FitsOneMore self.old }
        ensures stored { OnOk result (self.new ≡ self.old ++ item ∷ []) }
        ensures unchanged { OnErr result (self.new ≡ self.old) }
    {
        push(self.alloc, &mut self.bytes, item)
    }

    /// An equal byte string; it shares the bytes.
    pub fn copy(&self, _alloc: Global) -> Result<Bytes, NoMemory>
        ensures { IfOk result (λ b. b ≡ self.now) }
    {
        Ok(self.clone()?)
    }

    /// All bytes in order.
    pub fn as_slice(&self) -> &[u8]
        ensures value { result.now ≡ self.now }
        ensures short { IsWithinLimit self.now }
    {
        slice(&self.bytes)
    }
}
