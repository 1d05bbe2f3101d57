// Reads scripts.
ghost use Rattle.std.specs.Prelude.{◌≡◌, None};
ghost use Rattle.std.specs.Str.{IsUtf8};
ghost use Rattle.serde_json.specs.Read.{read};
ghost use Rattle.script_reading.specs.Places.{Reaches};
ghost use Rattle.script_reading.specs.Layers.{script_read};
ghost use Rattle.script_reading.specs.Bytes.{IsDocument};

use crate::ScriptError;
use crate::layers::script_from_json;
use script_statements::Script;
use serde_json::Value as Json;
use std::alloc::Global;

// The document that the bytes are.
fn document_of(alloc: Global, bytes: &[u8]) -> Result<Json, ScriptError>
    ensures { IsDocument bytes.now result }
{
    match Json::from_slice(alloc, bytes) {
        Ok(document) => Ok(document),
        Err(e) => {
            if e.is_memory() {
                Err(ScriptError::NoMemory)
            } else {
                Err(ScriptError::BadScript { place: 0 })
            }
        }
    }
}

/// Reads a script. `BadScript` comes exactly where the bytes are none, with the place of the fault: that of the first
/// faulty node of the JSON document, or 0 where the bytes are no document that nests at most 127 deep.
pub fn read_script(alloc: Global, bytes: &[u8]) -> Result<Script, ScriptError>
    ensures read { IsUtf8 bytes.now → Reaches (λ s. s) result (script_read (read bytes.now)) }
    ensures no_text { (IsUtf8 bytes.now → ⊥) → Reaches (λ s. s) result (script_read None) }
{
    let document = document_of(alloc, bytes)?;
    script_from_json(alloc, &document)
}
