// The cursors of a front, which stand by number: each is found by halving.
ghost use Rattle.std.specs.Prelude.{◌≡◌, position, slice_get};
ghost use Rattle.std.specs.List.{find};
ghost use Rattle.std.specs.Option.{option_copied};
ghost use Rattle.request_lists.specs.Fronts.{is_cursor, requests_of, AreNumbered, cursor_changed, got_cleared, handler_lent, handler_returned, handler_of};

use crate::entries::FrontCursor;

/// The place of the cursor of this number among these, which stand by number. It halves.
pub(crate) fn place_of_cursor<H>(
    cursors: &[FrontCursor<H>],
    next: u32,
    number: u32,
) -> Option<usize>
    requires { AreNumbered (requests_of cursors.now) next }
    ensures { result ≡ position (is_cursor number) cursors.now }
{
    let mut low = 0;
    let mut high = cursors.len();
    while low < high {
        let middle = low + (high - low) / 2;
        let here = cursors[middle].request;
        if here == number {
            return Some(middle);
        }
        if here < number {
            low = middle + 1;
        } else {
            high = middle;
        }
    }
    None
}

/// The cursor of this number among these, which stand by number.
pub(crate) fn cursor_in<H>(
    cursors: &[FrontCursor<H>],
    next: u32,
    number: u32,
) -> Option<&FrontCursor<H>>
    requires { AreNumbered (requests_of cursors.now) next }
    ensures { option_copied result ≡ find (is_cursor number) cursors.now }
{
    match place_of_cursor(cursors, next, number) {
        Some(place) => cursor_at(cursors, place),
        None => None,
    }
}

fn cursor_at<H>(cursors: &[FrontCursor<H>], place: usize) -> Option<&FrontCursor<H>>
    ensures { option_copied result ≡ slice_get cursors.now place }
{
    cursors.get(place)
}

/// The cursor of this number, if there is one, has got nothing.
pub(crate) fn clear_got<H>(cursors: &mut Vec<FrontCursor<H>>, next: u32, number: u32)
    requires { AreNumbered (requests_of cursors.old.items) next }
    ensures cleared { cursors.new.items ≡ cursor_changed number got_cleared cursors.old.items }
    ensures numbered { AreNumbered (requests_of cursors.new.items) next }
{
    if let Some(place) = place_of_cursor(cursors, next, number) {
        cursors[place].got = false;
    }
}

/// Takes the handler of the cursor of this number out.
pub(crate) fn lend_from<H: Drop>(
    cursors: &mut Vec<FrontCursor<H>>,
    next: u32,
    number: u32,
) -> Option<H>
    requires { AreNumbered (requests_of cursors.old.items) next }
    ensures lent { result ≡ handler_of cursors.old.items number }
    ensures changed { cursors.new.items ≡ cursor_changed number handler_lent cursors.old.items }
    ensures numbered { AreNumbered (requests_of cursors.new.items) next }
{
    match place_of_cursor(cursors, next, number) {
        Some(place) => {
            let cursor = &mut cursors[place];
            cursor.handler.take()
        }
        None => None,
    }
}

/// The cursor of this number, if there is one, has this handler.
pub(crate) fn return_to<H: Drop>(
    cursors: &mut Vec<FrontCursor<H>>,
    next: u32,
    number: u32,
    handler: H,
)
    requires { AreNumbered (requests_of cursors.old.items) next }
    ensures changed { cursors.new.items
        ≡ cursor_changed number (handler_returned handler) cursors.old.items }
    ensures numbered { AreNumbered (requests_of cursors.new.items) next }
{
    if let Some(place) = place_of_cursor(cursors, next, number) {
        let cursor = &mut cursors[place];
        cursor.handler = Some(handler);
    }
}
