// The text of a client's line.
ghost use Rattle.std.specs.Prelude.{◌≡◌, ◌∷◌, [], ◌++◌, OnOk, IfSome, codes, decimal};
ghost use Rattle.idb_keys.specs.Names.{error_name};
ghost use Rattle.clone_values.specs.View.{tree_of};
ghost use Rattle.report_lines.specs.Words.{text_of_words, word_of_value};
ghost use Rattle.report_lines.specs.LineWords.{words_of_line, word_of_mode, word_of_durability, word_of_version, word_of_error, words_of_doubt};

use crate::bytes::{put, put_value};
use crate::lines::Line;
use clone_values::Value;
use idb_base::NoMemory;
use idb_keys::{Durability, ErrorName, Mode};
use std::alloc::Global;
use std::fmt::Display;

fn mode_word(mode: Mode) -> &'static str
    ensures { result.now ≡ word_of_mode mode }
{
    match mode {
        Mode::ReadOnly => "readonly",
        Mode::ReadWrite => "readwrite",
        Mode::VersionChange => "versionchange",
    }
}

fn durability_word(durability: Durability) -> &'static str
    ensures { result.now ≡ word_of_durability durability }
{
    match durability {
        Durability::Strict => "strict",
        Durability::Relaxed => "relaxed",
    }
}

fn put_version_change(
    out: &mut Vec<u8>,
    request: u32,
    old_version: u64,
    new_version: Option<u64>,
) -> Result<(), NoMemory>
    ensures { OnOk result (out.new.items ≡ out.old.items
        ++ text_of_words (codes "versionchange" ∷ decimal request ∷ decimal old_version ∷ word_of_version new_version ∷ [])) }
{
    match new_version {
        Some(new_version) => put(
            out,
            format_args!("versionchange {request} {old_version} {new_version}\n"),
        ),
        None => put(
            out,
            format_args!("versionchange {request} {old_version} null\n"),
        ),
    }
}

fn error_word(error: Option<ErrorName>) -> &'static str
    ensures { result.now ≡ word_of_error error }
{
    match error {
        Some(error) => error.name(),
        None => "null",
    }
}

fn put_abort(
    out: &mut Vec<u8>,
    number: u64,
    error: Option<ErrorName>,
    doubt: bool,
) -> Result<(), NoMemory>
    ensures { OnOk result (out.new.items ≡ out.old.items
        ++ text_of_words (codes "tx" ∷ decimal number ∷ codes "abort" ∷ word_of_error error ∷ words_of_doubt doubt)) }
{
    let error = error_word(error);
    if doubt {
        return put(out, format_args!("tx {number} abort {error} doubt\n"));
    }
    put(out, format_args!("tx {number} abort {error}\n"))
}

fn put_with_value<D: Display + Drop>(
    alloc: Global,
    out: &mut Vec<u8>,
    words: D,
    value: &Value,
) -> Result<(), NoMemory>
    ensures { OnOk result (IfSome (D.output words)
        (λ t. out.new.items ≡ out.old.items ++ (t ++ (word_of_value (tree_of value.now) ++ 10 ∷ [])))) }
{
    put(out, words)?;
    put_value(alloc, out, value)?;
    put(out, "\n")
}

// Puts the line at the end.
#[tactic(auto, unfolding(crate::specs::LineWords::words_of_line))]
pub(crate) fn put_line(alloc: Global, out: &mut Vec<u8>, line: &Line) -> Result<(), NoMemory>
    ensures { OnOk result (out.new.items ≡ out.old.items ++ text_of_words (words_of_line line.now)) }
{
    match line {
        Line::Refused { op, error } => {
            let op = op.as_str();
            put(out, format_args!("refused {op} {error}\n"))
        }
        Line::Say { value } => put_with_value(alloc, out, "say ", value),
        Line::Throw => put(out, "throw\n"),
        Line::OpenUpgrade {
            request,
            old_version,
            new_version,
            number,
        } => {
            put(
                out,
                format_args!("open {request} upgrade {old_version} {new_version} tx {number}\n"),
            )
        }
        Line::OpenBlocked {
            request,
            old_version,
            new_version,
        } => {
            put(
                out,
                format_args!("open {request} blocked {old_version} {new_version}\n"),
            )
        }
        Line::OpenSuccess { request, version } => put(
            out,
            format_args!("open {request} success {version}\n"),
        ),
        Line::OpenError { request, error } => put(
            out,
            format_args!("open {request} error {error}\n"),
        ),
        Line::DeleteBlocked {
            request,
            old_version,
        } => put(
            out,
            format_args!("delete {request} blocked {old_version}\n"),
        ),
        Line::DeleteTransaction { request, number } => put(
            out,
            format_args!("delete {request} tx {number}\n"),
        ),
        Line::DeleteSuccess {
            request,
            old_version,
        } => put(
            out,
            format_args!("delete {request} success {old_version}\n"),
        ),
        Line::DeleteError { request, error } => put(
            out,
            format_args!("delete {request} error {error}\n"),
        ),
        Line::VersionChange {
            request,
            old_version,
            new_version,
        } => { put_version_change(out, *request, *old_version, *new_version) }
        Line::Closed { request } => put(out, format_args!("closed {request}\n")),
        Line::Created {
            number,
            mode,
            durability,
        } => {
            let mode = mode_word(*mode);
            let durability = durability_word(*durability);
            put(
                out,
                format_args!("tx {number} create {mode} {durability}\n"),
            )
        }
        Line::RequestSuccess {
            number,
            request,
            result,
        } => {
            put_with_value(
                alloc,
                out,
                format_args!("tx {number} req {request} success "),
                result,
            )
        }
        Line::RequestError {
            number,
            request,
            error,
        } => put(
            out,
            format_args!("tx {number} req {request} error {error}\n"),
        ),
        Line::Complete { number } => put(out, format_args!("tx {number} complete\n")),
        Line::Abort {
            number,
            error,
            doubt,
        } => put_abort(out, *number, *error, *doubt),
    }
}
