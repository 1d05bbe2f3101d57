// What is asked of the values and keys of a call.
ghost use Rattle.std.specs.Prelude.{◌≡◌, false, option_map};
ghost use Rattle.clone_values.specs.View.{tree_of};
ghost use Rattle.key_paths.specs.Evaluation.{extracted};
ghost use Rattle.idb_cursors.specs.View.{row_shown};
ghost use Rattle.request_lists.specs.Refusals.{can_clone, is_key_faulty, lacks_key, lacks_in_line_key, is_read_count, is_count_refused, is_step, changes_key_by};

use clone_values::{Key, Value, is_cloneable};
use key_paths::{Extraction, could_inject, gives_key, has_room, is_key, would_extract};
use path_grammar::KeyPath;

/// Whether the value can be cloned.
pub(crate) fn can_clone(value: &Value) -> bool
    ensures { result ≡ can_clone (tree_of value.now) }
{
    is_cloneable(value)
}

/// Whether a key is given that is none.
pub(crate) fn is_key_faulty(key: &Option<Value>) -> bool
    ensures { result ≡ is_key_faulty (option_map tree_of key.now) }
{
    match key {
        Some(key) => !is_key(key),
        None => false,
    }
}

/// Whether the store has a key path that finds no key, and to which none can be generated.
pub(crate) fn lacks_in_line_key(path: &Option<KeyPath>, auto: bool, value: &Value) -> bool
    ensures { result ≡ lacks_in_line_key path.now auto (tree_of value.now) }
{
    match path {
        Some(path) => lacks_key(path, auto, value),
        None => false,
    }
}

fn lacks_key(path: &KeyPath, auto: bool, value: &Value) -> bool
    ensures { result
        ≡ lacks_key path.now auto (tree_of value.now) (extracted path.now false (tree_of value.now)) }
{
    match would_extract(path, false, value) {
        Extraction::Key => false,
        Extraction::Keys => true,
        Extraction::Invalid => true,
        Extraction::Failure => !(auto && could_inject(path, value) && has_room(path, value)),
    }
}

/// Whether the count that is given is outside 0 to 4,294,967,295.
pub(crate) fn is_count_refused(count: Option<i64>) -> bool
    ensures { result ≡ is_count_refused count }
{
    match count {
        Some(count) => !(0 <= count && count <= 4_294_967_295),
        None => false,
    }
}

/// Whether the count is in 1 to 4,294,967,295.
pub(crate) fn is_step(count: i64) -> bool
    ensures { result ≡ is_step count }
{
    1 <= count && count <= 4_294_967_295
}

/// Whether the store's key path gives another key than the primary key of the place, or none.
pub(crate) fn changes_key_by(
    path: &Option<KeyPath>,
    place: Option<(&Key, &Key)>,
    value: &Value,
) -> bool
    ensures { result
        ≡ changes_key_by path.now (option_map row_shown place.entry) (tree_of value.now) }
{
    match path {
        Some(path) => match place {
            Some((_, primary)) => !gives_key(path, value, primary),
            None => true,
        },
        None => false,
    }
}
