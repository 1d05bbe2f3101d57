// The text of a report, made in one pass as one growing list of bytes.
ghost use Rattle.std.specs.Prelude.{◌≡◌, ◌++◌, ◌∷◌, [], map, IfOk, OnOk, codes, decimal};
ghost use Rattle.report_lines.specs.Words.{text_of_words, text_of_lines};
ghost use Rattle.report_lines.specs.LineWords.{words_of_line};
ghost use Rattle.report_lines.specs.ReportText.{text_of_report, words_of_has, lines_of_clients, word_of_token, words_of_pending, word_of_end};

use crate::bytes::{put, put_value};
use crate::line_text::put_line;
use crate::lines::{ClientLines, Lines};
use crate::reports::{Has, Opening, Report, ReportEnd};
use clone_values::{Numbers, Value};
use idb_base::NoMemory;
use idb_calls::{Pending, PendingLines, Token, Tokens};
use std::alloc::Global;

/// The text of a report, as UTF-8: each line with its line feed. It takes the time and the memory of its length.
#[tactic(auto, using(crate::proofs::WordsLemmas::text_in_parts), unfolding(crate::specs::ReportText::text_of_report))]
pub fn report_text(alloc: Global, report: &Report) -> Result<Vec<u8>, NoMemory>
    ensures { IfOk result (λ text. text.items ≡ text_of_report report.now) }
{
    let mut out = Vec::new(alloc);
    let session = report.session;
    put(&mut out, format_args!("session {session}\nopening\n"))?;
    put_opening(alloc, &mut out, &report.opening)?;
    put_clients(alloc, &mut out, &report.clients)?;
    put_order(&mut out, &report.order)?;
    put_numbers(&mut out, "finish", &report.finish)?;
    put_numbers(&mut out, "commit", &report.commits)?;
    put_pending(&mut out, &report.pending)?;
    let end = end_word(report.end);
    put(&mut out, format_args!("end {end}\n"))?;
    Ok(out)
}

fn end_word(end: ReportEnd) -> &'static str
    ensures { result.now ≡ word_of_end end }
{
    match end {
        ReportEnd::Flush => "flush",
        ReportEnd::Drop => "drop",
        ReportEnd::Fault => "fault",
    }
}

fn put_has(alloc: Global, out: &mut Vec<u8>, database: &Has) -> Result<(), NoMemory>
    ensures { OnOk result (out.new.items ≡ out.old.items ++ text_of_words (words_of_has database.now)) }
{
    put(out, "has ")?;
    put_value(alloc, out, &Value::Text(database.name.clone()?))?;
    let version = database.version;
    put(out, format_args!(" {version}\n"))
}

fn put_opening(alloc: Global, out: &mut Vec<u8>, opening: &Opening) -> Result<(), NoMemory>
    ensures { OnOk result (out.new.items ≡ out.old.items ++ text_of_lines (map words_of_has opening.now)) }
{
    for database in opening.as_slice() {
        put_has(alloc, out, database)?;
    }
    Ok(())
}

// Puts the lines of one client at the end.
fn put_lines(alloc: Global, out: &mut Vec<u8>, lines: &Lines) -> Result<(), NoMemory>
    ensures { OnOk result (out.new.items ≡ out.old.items ++ text_of_lines (map words_of_line lines.now)) }
{
    for line in lines.as_slice() {
        put_line(alloc, out, line)?;
    }
    Ok(())
}

// Puts a client's number at the end, and its lines.
fn put_client(
    alloc: Global,
    out: &mut Vec<u8>,
    number: usize,
    lines: &Lines,
) -> Result<(), NoMemory>
    ensures { OnOk result (out.new.items ≡ out.old.items
        ++ text_of_lines ((codes "client" ∷ decimal number ∷ []) ∷ map words_of_line lines.now)) }
{
    put(out, format_args!("client {number}\n"))?;
    put_lines(alloc, out, lines)
}

fn put_clients(alloc: Global, out: &mut Vec<u8>, clients: &ClientLines) -> Result<(), NoMemory>
    ensures { OnOk result (out.new.items ≡ out.old.items ++ text_of_lines (lines_of_clients 1 clients.now)) }
{
    for place in 0..clients.len() {
        if let Some(lines) = clients.at(place) {
            put_client(alloc, out, place + 1, lines)?;
        }
    }
    Ok(())
}

// Puts the word of a step at the end, behind a space.
#[tactic(auto, unfolding(crate::specs::ReportText::word_of_token))]
fn put_token(out: &mut Vec<u8>, token: &Token) -> Result<(), NoMemory>
    ensures { OnOk result (out.new.items ≡ out.old.items ++ 32 ∷ word_of_token token.now) }
{
    match token {
        Token::Asked { client, request } => put(out, format_args!(" a{client}.{request}")),
        Token::Took { client } => put(out, format_args!(" e{client}")),
        Token::Handled { client } => put(out, format_args!(" d{client}")),
        Token::Closed { client, request } => put(out, format_args!(" x{client}.{request}")),
        Token::Created { number, client } => put(out, format_args!(" t{number}.{client}")),
        Token::Started { number } => put(out, format_args!(" s{number}")),
        Token::Left { number } => put(out, format_args!(" f{number}")),
        Token::Faulted => put(out, " z"),
    }
}

fn put_order(out: &mut Vec<u8>, order: &Tokens) -> Result<(), NoMemory>
    ensures { OnOk result (out.new.items
        ≡ out.old.items ++ text_of_words (codes "order" ∷ map word_of_token order.now)) }
{
    put(out, "order")?;
    for token in order.as_slice() {
        put_token(out, token)?;
    }
    put(out, "\n")
}

fn put_numbers(out: &mut Vec<u8>, word: &str, numbers: &Numbers) -> Result<(), NoMemory>
    ensures { OnOk result (out.new.items
        ≡ out.old.items ++ text_of_words (word.now ∷ map decimal numbers.now)) }
{
    put(out, word)?;
    for number in numbers.as_slice() {
        put(out, format_args!(" {number}"))?;
    }
    put(out, "\n")
}

fn put_pending_line(out: &mut Vec<u8>, pending: &Pending) -> Result<(), NoMemory>
    ensures { OnOk result (out.new.items
        ≡ out.old.items ++ text_of_words (words_of_pending pending.now)) }
{
    let Pending {
        client,
        request,
        waits,
        of_client,
        of_request,
    } = *pending;
    let waiting = if waits { "waits" } else { "behind" };
    put(
        out,
        format_args!("pending {client}.{request} {waiting} {of_client}.{of_request}\n"),
    )
}

fn put_pending(out: &mut Vec<u8>, pending: &PendingLines) -> Result<(), NoMemory>
    ensures { OnOk result (out.new.items
        ≡ out.old.items ++ text_of_lines (map words_of_pending pending.now)) }
{
    for place in 0..pending.len() {
        if let Some(line) = pending.at(place) {
            put_pending_line(out, line)?;
        }
    }
    Ok(())
}
