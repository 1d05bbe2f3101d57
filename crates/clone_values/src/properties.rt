// Named properties: set, found and replaced by their names.
ghost use Rattle.std.specs.Prelude.{◌≡◌, ℕ, ◌<◌, ◌≤◌, true, List, [], length, map, slice_get, option_map, slice_set, vec_len, IfOk, IfErr, IfSome, IfNone, OnOk, OnErr, None, Some};
ghost use Rattle.std.specs.List.{insert};
ghost use Rattle.std.specs.Option.{option_copied};
ghost use Rattle.value_trees.specs.Lists.{IsWithinLimit, FitsOneMore, StandsAt};
ghost use Rattle.clone_values.specs.Held.{items_held};
ghost use Rattle.value_trees.specs.Names.{is_rising, names_of, set_member, set_members, get_member, HasNameAt};
ghost use Rattle.value_trees.specs.Tree.{Tree};
ghost use Rattle.clone_values.specs.View.{tree_of, prop_of, named_value_of};

use crate::holding::{Held, hold, insert_held, own, replace_held, slice};
use crate::small_lists::Text;
use crate::value_types::{Prop, Props, Value};
use std::alloc::Global;
use std::cmp::Ordering;
use std::collections::BTreeMap;
use std::sync::Arc;
use value_trees::NoMemory;

impl Props {
    /// The empty list; it takes no memory.
    pub fn new(alloc: Global) -> Self
        ensures { result ≡ [] }
    {
        Props {
            props: Held::Empty,
            alloc,
        }
    }

    /// The properties of a vector, whose names rise.
    pub fn from_vec(alloc: Global, props: Vec<Prop>) -> Result<Props, NoMemory>
        requires within { IsWithinLimit props.items }
        requires rising { is_rising (names_of (map prop_of props.items)) ≡ true }
        ensures { IfOk result (λ l. l ≡ map prop_of props.items) }
    {
        Ok(Props {
            props: hold(alloc, props)?,
            alloc,
        })
    }

    /// The properties of a vector, set one after the other: of a name that comes twice the last value stands. It takes
    /// the time of a sort.
    #[tactic(auto, using(crate::proofs::Sorting::all_longer, crate::proofs::Sorting::all_rising))]
    pub fn from_unsorted(alloc: Global, props: Vec<Prop>) -> Result<Props, NoMemory>
        requires { IsWithinLimit props.items }
        ensures { IfOk result (λ l. l ≡ set_members [] (map prop_of props.items)) }
    {
        Props::from_vec(alloc, by_name(alloc, props)?)
    }

    /// How many properties there are. Their names rise.
    pub fn len(&self) -> usize
        ensures count { result ≡ length self.now }
        ensures short { IsWithinLimit self.now }
        ensures rising { is_rising (names_of self.now) ≡ true }
    {
        slice(&self.props).len()
    }

    /// The property at this place, counted from 0; `None` past the end.
    pub fn at(&self, place: usize) -> Option<&Prop>
        ensures item { option_map prop_of (option_copied result) ≡ slice_get self.now place }
        ensures stands { IfSome result (λ x. StandsAt self.now place (prop_of x.now)) }
        ensures past_end { IfNone result (length self.now ≤ place) }
    {
        slice(&self.props).get(place)
    }

    /// Sets the property of this name: in its place where there is one, else before the first greater name.
    pub fn set(&mut self, name: Text, value: Value) -> Result<(), NoMemory>
        requires { FitsOneMore self.old }
        ensures stored { OnOk result (self.new ≡ set_member self.old name (tree_of value)) }
        ensures rising { is_rising (names_of self.new) ≡ true }
        ensures unchanged { OnErr result (self.new ≡ self.old) }
    {
        match self.place_of(name.as_str()) {
            Ok(place) => { replace_held(self.alloc, &mut self.props, place, Prop { name, value }) }
            Err(place) => insert_held(self.alloc, &mut self.props, place, Prop { name, value }),
        }
    }

    /// The value of the property of this name; `None` where there is none. It takes no memory, and halves.
    pub fn get(&self, name: &Text) -> Option<&Value>
        ensures { option_map tree_of (option_copied result) ≡ get_member self.now name.now }
    {
        self.find(name.as_str())
    }

    /// As `get`, by a name that is no `Text`.
    pub fn find(&self, name: &str) -> Option<&Value>
        ensures { option_map tree_of (option_copied result) ≡ get_member self.now name.now }
    {
        match self.place_of(name) {
            Ok(place) => match self.at(place) {
                Some(prop) => Some(&prop.value),
                None => None,
            },
            Err(_) => None,
        }
    }

    /// The place of this name, or the place where it would stand. It takes no memory, and halves.
    pub fn place_of(&self, name: &str) -> Result<usize, usize>
        ensures found { IfOk result (λ i. HasNameAt self.now i name.now) }
        ensures set_there { IfOk result (λ i. (v : Tree)
            → set_member self.now name.now v ≡ slice_set self.now i (name.now, v)) }
        ensures got_there { IfOk result (λ i. get_member self.now name.now ≡ option_map
            (λ m. m.1) (slice_get self.now i)) }
        ensures absent { IfErr result (λ i. get_member self.now name.now ≡ None) }
        ensures put_there { IfErr result (λ i. (i ≤ length self.now) × ((v : Tree)
            → set_member self.now name.now v ≡ insert self.now i (name.now, v))) }
    {
        let mut low = 0;
        let mut high = self.len();
        while low < high {
            let middle = low + (high - low) / 2;
            let Some(prop) = self.at(middle) else {
                unreachable!()
            };
            match name.cmp(prop.name.as_str()) {
                Ordering::Less => high = middle,
                Ordering::Equal => return Ok(middle),
                Ordering::Greater => low = middle + 1,
            }
        }
        Err(low)
    }

    /// Puts a value into the property at this place, and gives the one that stood there.
    pub fn replace(&mut self, place: usize, value: Value) -> Result<Value, NoMemory>
        requires { place < length self.old }
        ensures given { IfOk result (λ v. option_map
            (λ m. m.1) (slice_get self.old place) ≡ Some (tree_of v)) }
        ensures put { OnOk result ((name : List ℕ) → HasNameAt self.old place name
            → self.new ≡ slice_set self.old place (name, tree_of value)) }
        ensures same_names { names_of self.new ≡ names_of self.old }
        ensures unchanged { OnErr result (self.new ≡ self.old) }
    {
        let mut other = value;
        swap_held(self.alloc, &mut self.props, place, &mut other).and(Ok(other))
    }
}

fn by_name(alloc: Global, props: Vec<Prop>) -> Result<Vec<Prop>, NoMemory>
    ensures { IfOk result (λ sorted. map prop_of sorted.items ≡ set_members [] (map prop_of props.items)) }
{
    let mut values = BTreeMap::new(alloc);
    for prop in props {
        note(&mut values, prop)?;
    }
    let mut sorted = Vec::with_capacity(alloc, values.len())?;
    for (name, value) in values {
        sorted.push(Prop { name, value })?;
    }
    Ok(sorted)
}

/// Sets a property in a map of the values by their names.
#[tactic(auto, using(crate::proofs::Sorting::inserted))]
fn note(values: &mut BTreeMap<Text, Value>, prop: Prop) -> Result<(), NoMemory>
    ensures { OnOk result (map named_value_of values.new.entries
        ≡ set_member (map named_value_of values.old.entries) (prop_of prop).0 (prop_of prop).1) }
{
    values.insert(prop.name, prop.value)?;
    Ok(())
}

// Puts into each other a value and that of the property at this place.
fn swap_held(
    alloc: Global,
    props: &mut Held<Prop>,
    place: usize,
    value: &mut Value,
) -> Result<(), NoMemory>
    requires { place < length (items_held props.old) }
    ensures given { OnOk result (option_map
        (λ m. m.1) (slice_get (map prop_of (items_held props.old)) place) ≡ Some (tree_of value.new)) }
    ensures put { OnOk result ((name : List ℕ) → HasNameAt (map prop_of (items_held props.old)) place name
        → map prop_of (items_held props.new)
        ≡ slice_set (map prop_of (items_held props.old)) place (name, tree_of value.old)) }
    ensures same_names { names_of (map prop_of (items_held props.new))
        ≡ names_of (map prop_of (items_held props.old)) }
    ensures unchanged { OnErr result (items_held props.new ≡ items_held props.old) }
{
    own(alloc, props)?;
    if let Held::Shared(shared) = props {
        if let Some(own) = Arc::get_mut(shared) {
            swap_value(own, place, value);
            return Ok(());
        }
    }
    Err(NoMemory)
}

fn swap_value(props: &mut Vec<Prop>, place: usize, value: &mut Value)
    requires { place < vec_len props.old }
    ensures given { option_map
        (λ m. m.1) (slice_get (map prop_of props.old.items) place) ≡ Some (tree_of value.new) }
    ensures put { (name : List ℕ) → HasNameAt (map prop_of props.old.items) place name
        → map prop_of props.new.items
        ≡ slice_set (map prop_of props.old.items) place (name, tree_of value.old) }
    ensures same_names { names_of (map prop_of props.new.items) ≡ names_of (map prop_of props.old.items) }
{
    std::mem::swap(&mut props[place].value, value);
}
