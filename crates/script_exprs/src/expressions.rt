// Reads expressions, by the nesting of their documents.
ghost use Rattle.std.specs.Prelude.{◌≡◌, []};
ghost use Rattle.idb_base.specs.Results.{Gives};
ghost use Rattle.serde_json.specs.View.{view};
ghost use Rattle.value_json.specs.Reading.{IsUnread};
ghost use Rattle.script_exprs.specs.Documents.{datas_of};
ghost use Rattle.script_exprs.specs.Expressions.{expr_in, expr_within, all_read};

use crate::expr::Expr;
use crate::forms::spelled;
use crate::limits::MOST_LEVELS;
use serde_json::Value as Json;
use std::alloc::Global;
use value_json::JsonError;

/// The expression that a document is. `Spelling` comes exactly where it is none.
#[tactic(auto, unfolding(crate::specs::Expressions::expr_in))]
pub fn expr_from_json(alloc: Global, json: &Json) -> Result<Expr, JsonError>
    ensures { Gives IsUnread (λ e. e) result (expr_in (view json.now)) }
{
    read_within(alloc, MOST_LEVELS, json)
}

// The expression, where so many levels suffice.
#[cycle(read)]
#[tactic(auto, using(crate::proofs::ExpressionsLemmas::none_within, crate::proofs::ExpressionsLemmas::none_spelled, crate::proofs::ExpressionsLemmas::none_read, crate::proofs::ExpressionsLemmas::one_read))]
fn read_within(alloc: Global, levels: u32, json: &Json) -> Result<Expr, JsonError>
    ensures { Gives IsUnread (λ e. e) result (expr_within levels (view json.now)) }
{
    if levels == 0 {
        return Err(JsonError::Spelling);
    }
    let (form, documents) = spelled(alloc, json)?;
    let parts = read_parts(alloc, levels - 1, documents.as_slice())?;
    Ok(Expr::new(form, parts))
}

// The parts, where so many levels suffice for each.
#[cycle(read)]
fn read_parts(alloc: Global, levels: u32, documents: &[&Json]) -> Result<Vec<Expr>, JsonError>
    ensures { Gives IsUnread (λ es. es.items) result
        (all_read (expr_within levels) [] (datas_of documents.now)) }
{
    let mut parts = Vec::new(alloc);
    for document in documents {
        parts.push(read_within(alloc, levels, document)?)?;
    }
    Ok(parts)
}
