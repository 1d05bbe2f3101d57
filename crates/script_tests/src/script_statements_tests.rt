// The statements of a block by its place.
use clone_values::Text;
use idb_base::Listed;
use script_statements::{Block, BlockPlace, Client, Stmt};
use std::alloc::Global;
use std::fmt::Write;
use std::process::Abort;

fn block(rt: &impl Abort, alloc: Global, name: Text, stmt: Stmt) -> Block {
    let mut body = Listed::new(alloc);
    body.push(stmt).expect(rt, "memory");
    Block { name, body }
}

// A client of two blocks, of which the first throws and the second commits.
fn client(rt: &impl Abort, alloc: Global) -> Client {
    let mut blocks = Listed::new(alloc);
    let first = block(
        rt,
        alloc,
        Text::copy_of(alloc, "first").expect(rt, "memory"),
        Stmt::Throw,
    );
    blocks.push(first).expect(rt, "memory");
    let main = block(
        rt,
        alloc,
        Text::copy_of(alloc, "main").expect(rt, "memory"),
        Stmt::Commit,
    );
    blocks.push(main).expect(rt, "memory");
    Client { blocks, main: 1 }
}

/// Writes what the block at this place does.
fn tell(said: &mut String, client: &Client, place: BlockPlace) {
    match client.body_at(place) {
        [] => {
            let _ = write!(said, "nothing ");
        }
        [Stmt::Throw] => {
            let _ = write!(said, "throw ");
        }
        [Stmt::Commit] => {
            let _ = write!(said, "commit ");
        }
        _ => {
            let _ = write!(said, "other ");
        }
    }
}

/// A block is found at its place, and past the last there is none.
#[test]
fn blocks_stand_at_their_places(rt: HostRuntime) {
    let mut said = String::new(rt.alloc());
    let client = client(&rt, rt.alloc());
    for place in [0, client.main, 2] {
        tell(&mut said, &client, place);
    }
    drop(client);
    assert!(rt; said.as_str() == "throw commit nothing ");
}
