// The texts of worked sessions, of each kind of line and token, and of a long report; with memory at hand. A session is a
// row of plain data, of which a helper makes the report.
use clone_values::{Numbers, Text, Value};
use idb_base::GREATEST_LENGTH;
use idb_calls::{Pending, PendingLines, Token, Tokens};
use idb_keys::{Durability, ErrorName, Mode};
use report_lines::*;
use serde_json::Value as Json;
use std::alloc::Global;
use std::process;
use value_json::value_from_json;

/// A line, with a value as its JSON.
#[derive(Clone, Copy)]
enum Short {
    Refused(&'static str, ErrorName),
    Say(&'static str),
    Throw,
    Upgrade(u32, u64, u64, u64),
    Blocked(u32, u64, u64),
    Opened(u32, u64),
    OpenError(u32, ErrorName),
    DeleteBlocked(u32, u64),
    DeleteTransaction(u32, u64),
    Deleted(u32, u64),
    DeleteError(u32, ErrorName),
    VersionChange(u32, u64, Option<u64>),
    Closed(u32),
    Created(u64, Mode, Durability),
    Gave(u64, u32, &'static str),
    RequestError(u64, u32, ErrorName),
    Complete(u64),
    Abort(u64, Option<ErrorName>, bool),
}

use Short::{Abort, Complete, Created, Gave, Opened, Upgrade};

/// A session with one client, and the text of its report.
struct Session {
    number: u32,
    opening: &'static [(&'static str, u64)],
    lines: &'static [Short],
    order: &'static [Token],
    finish: &'static [u64],
    commits: &'static [u64],
    pending: &'static [Pending],
    end: ReportEnd,
    text: &'static str,
}

const SESSIONS: [Session; 6] = [
    // A store is made, one record put and got.
    Session {
        number: 1,
        opening: &[],
        lines: &[
            Upgrade(1, 0, 1, 1),
            Complete(1),
            Opened(1, 1),
            Created(2, Mode::ReadWrite, Durability::Relaxed),
            Gave(2, 1, "1"),
            Gave(2, 2, "7"),
            Complete(2),
        ],
        order: &[
            Token::Asked {
                client: 1,
                request: 1,
            },
            Token::Took { client: 1 },
            Token::Started { number: 1 },
            Token::Left { number: 1 },
            Token::Took { client: 1 },
            Token::Created {
                number: 2,
                client: 1,
            },
            Token::Started { number: 2 },
            Token::Left { number: 2 },
        ],
        finish: &[1, 2],
        commits: &[1, 2],
        pending: &[],
        end: ReportEnd::Flush,
        text: "session 1\nopening\nclient 1\nopen 1 upgrade 0 1 tx 1\ntx 1 complete\nopen 1 success 1\ntx 2 create readwrite relaxed\ntx 2 req 1 success 1\ntx 2 req 2 success 7\ntx 2 complete\norder a1.1 e1 s1 f1 e1 t2.1 s2 f2\nfinish 1 2\ncommit 1 2\nend flush\n",
    },
    // A second open asks for a higher version while the first connection stays open.
    Session {
        number: 1,
        opening: &[],
        lines: &[
            Upgrade(1, 0, 1, 1),
            Complete(1),
            Opened(1, 1),
            Short::VersionChange(1, 1, Some(2)),
            Short::Blocked(2, 1, 2),
        ],
        order: &[
            Token::Asked {
                client: 1,
                request: 1,
            },
            Token::Took { client: 1 },
            Token::Started { number: 1 },
            Token::Left { number: 1 },
            Token::Took { client: 1 },
            Token::Asked {
                client: 1,
                request: 2,
            },
            Token::Took { client: 1 },
            Token::Handled { client: 1 },
            Token::Took { client: 1 },
        ],
        finish: &[1],
        commits: &[1],
        pending: &[Pending {
            client: 1,
            request: 2,
            waits: true,
            of_client: 1,
            of_request: 1,
        }],
        end: ReportEnd::Flush,
        text: "session 1\nopening\nclient 1\nopen 1 upgrade 0 1 tx 1\ntx 1 complete\nopen 1 success 1\nversionchange 1 1 2\nopen 2 blocked 1 2\norder a1.1 e1 s1 f1 e1 a1.2 e1 d1 e1\nfinish 1\ncommit 1\npending 1.2 waits 1.1\nend flush\n",
    },
    // The handler of an upgrade throws.
    Session {
        number: 1,
        opening: &[],
        lines: &[
            Upgrade(1, 0, 1, 1),
            Short::Throw,
            Abort(1, Some(ErrorName::AbortError), false),
            Short::OpenError(1, ErrorName::AbortError),
        ],
        order: &[
            Token::Asked {
                client: 1,
                request: 1,
            },
            Token::Took { client: 1 },
            Token::Left { number: 1 },
            Token::Took { client: 1 },
        ],
        finish: &[1],
        commits: &[],
        pending: &[],
        end: ReportEnd::Flush,
        text: "session 1\nopening\nclient 1\nopen 1 upgrade 0 1 tx 1\nthrow\ntx 1 abort AbortError\nopen 1 error AbortError\norder a1.1 e1 f1 e1\nfinish 1\ncommit\nend flush\n",
    },
    // A second session finds what the first left.
    Session {
        number: 2,
        opening: &[("d", 1)],
        lines: &[
            Opened(1, 1),
            Created(1, Mode::ReadOnly, Durability::Relaxed),
            Gave(1, 1, "[1,2,3]"),
            Complete(1),
        ],
        order: &[
            Token::Asked {
                client: 1,
                request: 1,
            },
            Token::Took { client: 1 },
            Token::Created {
                number: 1,
                client: 1,
            },
            Token::Started { number: 1 },
            Token::Left { number: 1 },
        ],
        finish: &[1],
        commits: &[],
        pending: &[],
        end: ReportEnd::Flush,
        text: "session 2\nopening\nhas \"d\" 1\nclient 1\nopen 1 success 1\ntx 1 create readonly relaxed\ntx 1 req 1 success [1,2,3]\ntx 1 complete\norder a1.1 e1 t1.1 s1 f1\nfinish 1\ncommit\nend flush\n",
    },
    // An article of a shop is bought.
    Session {
        number: 1,
        opening: &[],
        lines: &[
            Upgrade(1, 0, 2, 1),
            Gave(1, 1, "\"A1\""),
            Gave(1, 2, "\"B2\""),
            Complete(1),
            Opened(1, 2),
            Created(2, Mode::ReadWrite, Durability::Strict),
            Gave(
                2,
                1,
                "{\"sku\":\"A1\",\"stock\":5,\"tags\":[\"new\",\"red\"]}",
            ),
            Gave(2, 2, "\"A1\""),
            Gave(2, 3, "1"),
            Complete(2),
            Created(3, Mode::ReadOnly, Durability::Relaxed),
            Gave(
                3,
                1,
                "[{\"sku\":\"A1\",\"stock\":4,\"tags\":[\"new\",\"red\"]},{\"sku\":\"B2\",\"stock\":1,\"tags\":[\"red\"]}]",
            ),
            Gave(3, 2, "3"),
            Complete(3),
        ],
        order: &[
            Token::Asked {
                client: 1,
                request: 1,
            },
            Token::Took { client: 1 },
            Token::Started { number: 1 },
            Token::Left { number: 1 },
            Token::Took { client: 1 },
            Token::Created {
                number: 2,
                client: 1,
            },
            Token::Started { number: 2 },
            Token::Left { number: 2 },
            Token::Created {
                number: 3,
                client: 1,
            },
            Token::Started { number: 3 },
            Token::Left { number: 3 },
        ],
        finish: &[1, 2, 3],
        commits: &[1, 2],
        pending: &[],
        end: ReportEnd::Flush,
        text: "session 1\nopening\nclient 1\nopen 1 upgrade 0 2 tx 1\ntx 1 req 1 success \"A1\"\ntx 1 req 2 success \"B2\"\ntx 1 complete\nopen 1 success 2\ntx 2 create readwrite strict\ntx 2 req 1 success {\"sku\":\"A1\",\"stock\":5,\"tags\":[\"new\",\"red\"]}\ntx 2 req 2 success \"A1\"\ntx 2 req 3 success 1\ntx 2 complete\ntx 3 create readonly relaxed\ntx 3 req 1 success [{\"sku\":\"A1\",\"stock\":4,\"tags\":[\"new\",\"red\"]},{\"sku\":\"B2\",\"stock\":1,\"tags\":[\"red\"]}]\ntx 3 req 2 success 3\ntx 3 complete\norder a1.1 e1 s1 f1 e1 t2.1 s2 f2 t3.1 s3 f3\nfinish 1 2 3\ncommit 1 2\nend flush\n",
    },
    // The kinds of line and token that the others don't have; names that need an escape.
    Session {
        number: 4_294_967_295,
        opening: &[("", 7), ("a \"b\"\n", 10)],
        lines: &[
            Short::Refused("getAllKeys", ErrorName::DataError),
            Short::Say("{\"a\":\"b c\",\"n\":{\"$undefined\":null}}"),
            Short::DeleteBlocked(2, 3),
            Short::DeleteTransaction(2, 5),
            Short::Deleted(2, 3),
            Short::DeleteError(2, ErrorName::UnknownError),
            Short::VersionChange(1, 2, None),
            Short::Closed(1),
            Short::RequestError(2, 3, ErrorName::ConstraintError),
            Abort(4, Some(ErrorName::UnknownError), true),
            Abort(6, None, false),
            Opened(4_294_967_295, 9_007_199_254_740_991),
        ],
        order: &[
            Token::Closed {
                client: 12,
                request: 3,
            },
            Token::Faulted,
        ],
        finish: &[],
        commits: &[],
        pending: &[
            Pending {
                client: 1,
                request: 9,
                waits: false,
                of_client: 2,
                of_request: 8,
            },
            Pending {
                client: 2,
                request: 8,
                waits: true,
                of_client: 1,
                of_request: 4,
            },
        ],
        end: ReportEnd::Fault,
        text: "session 4294967295\nopening\nhas \"\" 7\nhas \"a \\\"b\\\"\\n\" 10\nclient 1\nrefused getAllKeys DataError\nsay {\"a\":\"b c\",\"n\":{\"$undefined\":null}}\ndelete 2 blocked 3\ndelete 2 tx 5\ndelete 2 success 3\ndelete 2 error UnknownError\nversionchange 1 2 null\nclosed 1\ntx 2 req 3 error ConstraintError\ntx 4 abort UnknownError doubt\ntx 6 abort null\nopen 4294967295 success 9007199254740991\norder x12.3 z\nfinish\ncommit\npending 1.9 behind 2.8\npending 2.8 waits 1.4\nend fault\n",
    },
];

fn value(rt: &impl process::Abort, alloc: Global, text: &str) -> Value {
    let document = Json::from_str(alloc, text).expect(rt, "a document");
    value_from_json(alloc, &document).expect(rt, "a value")
}

fn name(rt: &impl process::Abort, alloc: Global, text: &str) -> Text {
    assert!(rt; text.len() <= GREATEST_LENGTH);
    Text::copy_of(alloc, text).expect(rt, "memory")
}

fn line(rt: &impl process::Abort, alloc: Global, short: Short) -> Line {
    match short {
        Short::Refused(op, error) => Line::Refused {
            op: name(rt, alloc, op),
            error,
        },
        Short::Say(text) => Line::Say {
            value: value(rt, alloc, text),
        },
        Short::Throw => Line::Throw,
        Short::Upgrade(request, old_version, new_version, number) => {
            Line::OpenUpgrade {
                request,
                old_version,
                new_version,
                number,
            }
        }
        Short::Blocked(request, old_version, new_version) => {
            Line::OpenBlocked {
                request,
                old_version,
                new_version,
            }
        }
        Short::Opened(request, version) => Line::OpenSuccess { request, version },
        Short::OpenError(request, error) => Line::OpenError { request, error },
        Short::DeleteBlocked(request, old_version) => Line::DeleteBlocked {
            request,
            old_version,
        },
        Short::DeleteTransaction(request, number) => Line::DeleteTransaction { request, number },
        Short::Deleted(request, old_version) => Line::DeleteSuccess {
            request,
            old_version,
        },
        Short::DeleteError(request, error) => Line::DeleteError { request, error },
        Short::VersionChange(request, old_version, new_version) => {
            Line::VersionChange {
                request,
                old_version,
                new_version,
            }
        }
        Short::Closed(request) => Line::Closed { request },
        Short::Created(number, mode, durability) => Line::Created {
            number,
            mode,
            durability,
        },
        Short::Gave(number, request, text) => Line::RequestSuccess {
            number,
            request,
            result: value(rt, alloc, text),
        },
        Short::RequestError(number, request, error) => Line::RequestError {
            number,
            request,
            error,
        },
        Short::Complete(number) => Line::Complete { number },
        Short::Abort(number, error, doubt) => Line::Abort {
            number,
            error,
            doubt,
        },
    }
}

fn lines(rt: &impl process::Abort, alloc: Global, all: &[Short]) -> ClientLines {
    let mut lines = Lines::new(alloc);
    for short in all {
        lines.push(line(rt, alloc, *short)).expect(rt, "memory");
    }
    let mut clients = ClientLines::new(alloc);
    clients.push(lines).expect(rt, "memory");
    clients
}

fn opening(rt: &impl process::Abort, alloc: Global, all: &[(&'static str, u64)]) -> Opening {
    let mut opening = Opening::new(alloc);
    for (text, version) in all {
        opening
            .push(Has {
                name: name(rt, alloc, *text),
                version: *version,
            })
            .expect(rt, "memory");
    }
    opening
}

fn report(rt: &impl process::Abort, alloc: Global, session: &Session) -> Report {
    Report {
        session: session.number,
        opening: opening(rt, alloc, session.opening),
        clients: lines(rt, alloc, session.lines),
        order: Tokens::from_vec(session.order.to_vec(alloc).expect(rt, "memory")),
        finish: Numbers::from_vec(session.finish.to_vec(alloc).expect(rt, "memory")),
        commits: Numbers::from_vec(session.commits.to_vec(alloc).expect(rt, "memory")),
        pending: PendingLines::from_vec(session.pending.to_vec(alloc).expect(rt, "memory")),
        end: session.end,
    }
}

fn shown(rt: &impl process::Abort, alloc: Global, report: &Report) -> String {
    String::from_utf8(report_text(alloc, report).expect(rt, "memory")).expect(rt, "a text")
}

/// Says that the text is the one that is wanted, or what it is.
fn compared(rt: &impl process::Abort, alloc: Global, session: &Session, said: &mut String) {
    let text = shown(rt, alloc, &report(rt, alloc, session));
    if text.as_str() == session.text {
        said.push_str("same ").expect(rt, "memory");
    } else {
        said.push_str(text.as_str()).expect(rt, "memory");
    }
}

#[test]
fn worked_sessions_have_their_texts(rt: HostRuntime) {
    let mut said = String::new(rt.alloc());
    for session in &SESSIONS {
        compared(&rt, rt.alloc(), session, &mut said);
    }
    assert_eq!(rt; said.as_str(), "same same same same same same ");
}

/// A client without a line, and one with so many.
fn many(rt: &impl process::Abort, alloc: Global, count: u32) -> Report {
    let mut lines = Lines::new(alloc);
    for request in 0..count {
        lines
            .push(Line::RequestSuccess {
                number: 2,
                request,
                result: Value::Null,
            })
            .expect(rt, "memory");
    }
    let mut clients = ClientLines::new(alloc);
    clients.push(Lines::new(alloc)).expect(rt, "memory");
    clients.push(lines).expect(rt, "memory");
    Report {
        session: 1,
        opening: Opening::new(alloc),
        clients,
        order: Tokens::new(alloc),
        finish: Numbers::new(alloc),
        commits: Numbers::new(alloc),
        pending: PendingLines::new(alloc),
        end: ReportEnd::Drop,
    }
}

/// What stands from a place on.
fn from_place(rt: &impl process::Abort, alloc: Global, text: &str, place: usize) -> String {
    String::from_str(alloc, text.get(place..).expect(rt, "a longer text")).expect(rt, "memory")
}

/// A line has 23 bytes and the digits of its request. The numbers below 100,000 have 10 + 180 + 2,700 + 36,000 + 450,000
/// digits. What comes before the lines has 36 bytes, and the last two lines without their first six have 50.
#[test]
fn a_long_report_is_printed(rt: HostRuntime) {
    let text = shown(&rt, rt.alloc(), &many(&rt, rt.alloc(), 100_000));
    let place = 36 + 100_000 * 23 + 488_890 - 50;
    assert_eq!(rt;
        from_place(&rt, rt.alloc(), text.as_str(), place).as_str(),
        "eq 99998 success null\ntx 2 req 99999 success null\norder\nfinish\ncommit\nend drop\n"
    );
}
