// Numbers in place of the first keys of leaves or blocks, which tell where a key may be. Nothing is proved of what they are:
// whoever asks looks at the keys themselves.

/// Puts a number in, where there is room.
pub fn put_head(heads: &mut Vec<i64>, at: usize, head: i64) {
    if at <= heads.len() && heads.len() < heads.capacity() {
        match heads.insert(at, head) {
            Ok(()) => {}
            Err(_) => {}
        }
    }
}

/// Changes a number.
pub fn set_head(heads: &mut Vec<i64>, at: usize, head: i64) {
    if at < heads.len() {
        heads[at] = head;
    }
}

/// Takes a number out.
pub fn cut_head(heads: &mut Vec<i64>, at: usize) {
    if at < heads.len() {
        let _ = heads.remove(at);
    }
}

/// The number there, or the least.
pub fn head_at(heads: &[i64], at: usize) -> i64 {
    if at < heads.len() {
        heads[at]
    } else {
        i64::MIN
    }
}

/// How many numbers are looked at one by one.
const FEW: usize = 16;

/// The last that is not greater than this number, where they rise; the first where all are. It halves down to a few, and counts
/// these.
pub fn last_up_to(heads: &[i64], number: i64) -> usize {
    let mut low = 0;
    let mut high = heads.len();
    while high - low > FEW {
        let middle = low + (high - low) / 2;
        if heads[middle] <= number {
            low = middle + 1;
        } else {
            high = middle;
        }
    }
    let mut count = low;
    for at in low..high {
        if heads[at] <= number {
            count = count.wrapping_add(1);
        }
    }
    count.saturating_sub(1)
}

/// The last that is less than this number, where they rise; the first where none is.
pub fn last_below(heads: &[i64], number: i64) -> usize {
    if number == i64::MIN {
        0
    } else {
        last_up_to(heads, number - 1)
    }
}
