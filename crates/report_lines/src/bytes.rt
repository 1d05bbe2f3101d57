// Texts and values put at the end of a growing list of bytes.
ghost use Rattle.std.specs.Prelude.{◌≡◌, ◌∷◌, [], ◌++◌, OnOk, IfSome};
ghost use Rattle.clone_values.specs.View.{tree_of};
ghost use Rattle.report_lines.specs.Words.{word_of_value};

use clone_values::Value;
use idb_base::NoMemory;
use std::alloc::Global;
use std::fmt::Display;
use std::io::Write;
use value_json::push_value_text;

// Puts a text at the end.
pub(crate) fn put<D: Display + Drop>(out: &mut Vec<u8>, text: D) -> Result<(), NoMemory>
    ensures { OnOk result (IfSome (D.output text) (λ t. out.new.items ≡ out.old.items ++ t)) }
{
    match out.write_fmt(text) {
        Ok(()) => Ok(()),
        Err(_) => Err(NoMemory),
    }
}

// Puts a value at the end, as JSON with no space.
#[tactic(auto, unfolding(crate::specs::Words::word_of_value))]
pub(crate) fn put_value(alloc: Global, out: &mut Vec<u8>, value: &Value) -> Result<(), NoMemory>
    ensures { OnOk result (out.new.items ≡ out.old.items ++ word_of_value (tree_of value.now)) }
{
    push_value_text(alloc, out, value)
}
