// Tests of the names of properties.
ghost use Rattle.std.specs.Prelude.{◌≡◌, map};
ghost use Rattle.std.specs.List.{list_all};
ghost use Rattle.clone_values.specs.Names.{is_rising, names_of};
ghost use Rattle.clone_values.specs.View.{prop_of};
ghost use Rattle.clone_values.specs.WellFormed.{is_array_name};

use clone_values::{Prop, Props, is_array_name};
use std::cmp::Ordering;

/// Whether each name is greater than the one before, by bytes.
pub(crate) fn names_rise(props: &[Prop]) -> bool
    ensures { result ≡ is_rising (names_of (map prop_of props.now)) }
{
    for place in 1..props.len() {
        match props[place - 1]
            .name
            .as_str()
            .cmp(props[place].name.as_str())
        {
            Ordering::Less => {}
            _ => return false,
        }
    }
    true
}

/// Whether an Array may have properties of these names.
pub(crate) fn are_array_names(props: &Props) -> bool
    ensures { result ≡ list_all is_array_name (names_of props.now) }
{
    for place in 0..props.len() {
        if let Some(prop) = props.at(place) {
            if !is_array_name(prop.name.as_str()) {
                return false;
            }
        }
    }
    true
}
