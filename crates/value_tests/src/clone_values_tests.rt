use clone_values::*;
use idb_base::GREATEST_LENGTH;
use std::alloc::Global;
use std::fmt::Write;
use std::process::Abort;

fn text(rt: &impl Abort, alloc: Global, s: &str) -> Text {
    assert!(rt; s.len() <= GREATEST_LENGTH);
    Text::copy_of(alloc, s).expect(rt, "memory")
}

/// A value to be made.
#[derive(Clone, Copy)]
enum Made {
    Int(i64),
    Date(i64),
    Function,
    /// Arrays nested so deep, the innermost one empty.
    Nested(u32),
    /// The same, with a Function innermost.
    AroundFunction(u32),
    /// A Set with null twice, pushed and not put.
    NullTwice,
    /// An Array with a property of this name.
    Named(&'static str),
}

fn nested(rt: &impl Abort, alloc: Global, depth: u32, innermost: Value) -> Value {
    let mut value = innermost;
    for _ in 1..depth {
        let mut items = Items::new(alloc);
        items.push(value).expect(rt, "memory");
        value = Value::Array(items, Props::new(alloc));
    }
    value
}

fn named(rt: &impl Abort, alloc: Global, name: &str) -> Value {
    let mut props = Props::new(alloc);
    props
        .set(text(rt, alloc, name), Value::Null)
        .expect(rt, "memory");
    Value::Array(Items::new(alloc), props)
}

fn null_twice(rt: &impl Abort, alloc: Global) -> Value {
    let mut items = Items::new(alloc);
    items.push(Value::Null).expect(rt, "memory");
    items.push(Value::Null).expect(rt, "memory");
    Value::Set(items)
}

fn value_of(rt: &impl Abort, alloc: Global, it: &Made) -> Value {
    match it {
        Made::Int(n) => Value::Int(*n),
        Made::Date(d) => Value::Date(*d),
        Made::Function => Value::Function,
        Made::Nested(depth) => nested(
            rt,
            alloc,
            *depth,
            Value::Array(Items::new(alloc), Props::new(alloc)),
        ),
        Made::AroundFunction(depth) => nested(rt, alloc, *depth, Value::Function),
        Made::NullTwice => null_twice(rt, alloc),
        Made::Named(name) => named(rt, alloc, name),
    }
}

fn is_cloned(alloc: Global, value: &Value) -> bool {
    clone_value(alloc, value).is_ok()
}

fn is_copied(rt: &impl Abort, alloc: Global, value: &Value) -> bool {
    same_value(&copy_value(alloc, value).expect(rt, "memory"), value)
}

fn push_if(said: &mut String, is_so: bool, mark: char) {
    if is_so {
        let _ = said.push(mark);
    }
}

/// Writes what is told of a value: its depth, `w` if well formed, `c` if cloned, `=` if the copy is equal to it.
fn tell(rt: &impl Abort, alloc: Global, said: &mut String, value: &Value) {
    let _ = write!(said, "{}", depth(value));
    push_if(said, well_formed(value), 'w');
    push_if(said, is_cloned(alloc, value), 'c');
    push_if(said, is_copied(rt, alloc, value), '=');
    let _ = said.push(' ');
}

fn told(rt: &impl Abort, alloc: Global, said: &mut String, it: &Made) {
    let value = value_of(rt, alloc, it);
    tell(rt, alloc, said, &value)
}

/// The ends of the ranges, depth 100, Functions, members that stand twice and the names of an Array's properties.
#[test]
fn what_is_told_of_values(rt: HostRuntime) {
    let values = [
        Made::Int(9_007_199_254_740_992),
        Made::Int(9_007_199_254_740_993),
        Made::Int(-9_007_199_254_740_992),
        Made::Int(-9_007_199_254_740_993),
        Made::Date(8_640_000_000_000_000),
        Made::Date(8_640_000_000_000_001),
        Made::Date(-8_640_000_000_000_000),
        Made::Date(-8_640_000_000_000_001),
        Made::Function,
        Made::AroundFunction(2),
        Made::Nested(1),
        Made::Nested(100),
        Made::Nested(101),
        Made::NullTwice,
        Made::Named("length"),
        Made::Named("0"),
        Made::Named("17"),
        Made::Named(""),
        Made::Named("1a"),
        Made::Named("lengths"),
    ];
    let mut said = String::new(rt.alloc());
    for it in &values {
        told(&rt, rt.alloc(), &mut said, it);
    }
    assert!(rt;
        said.as_str()
            == "1wc= 1c= 1wc= 1c= 1wc= 1c= 1wc= 1c= 1w= 2w= 1wc= 100wc= 101w= 2c= 2c= 2c= 2c= 2wc= 2wc= 2wc= "
    );
}

/// A change of properties, or a question.
#[derive(Clone, Copy)]
enum Step {
    Set(&'static str, i64),
    Find(&'static str),
    Place(&'static str),
    Replace(usize, i64),
    All,
}

fn set(rt: &impl Abort, alloc: Global, props: &mut Props, name: &str, n: i64) {
    if props.len() < GREATEST_LENGTH {
        props
            .set(text(rt, alloc, name), Value::Int(n))
            .expect(rt, "memory");
    }
}

fn find(props: &Props, said: &mut String, name: &str) {
    let _ = match props.find(name) {
        Some(Value::Int(n)) => write!(said, "={n}"),
        _ => write!(said, "=none"),
    };
}

fn place(props: &Props, said: &mut String, name: &str) {
    let _ = match props.place_of(name) {
        Ok(place) => write!(said, "@{place}"),
        Err(place) => write!(said, "<{place}"),
    };
}

fn replace(rt: &impl Abort, props: &mut Props, said: &mut String, place: usize, n: i64) {
    if place < props.len() {
        if let Value::Int(old) = props.replace(place, Value::Int(n)).expect(rt, "memory") {
            let _ = write!(said, "-{old}");
        }
    }
}

/// Makes one step, and writes what it answered.
fn make(rt: &impl Abort, alloc: Global, props: &mut Props, said: &mut String, step: &Step) {
    match step {
        Step::Set(name, n) => set(rt, alloc, props, name, *n),
        Step::Find(name) => find(props, said, name),
        Step::Place(name) => place(props, said, name),
        Step::Replace(place, n) => replace(rt, props, said, *place, *n),
        Step::All => show(props, said),
    }
}

fn show(props: &Props, said: &mut String) {
    for place in 0..props.len() {
        if let Some(
            Prop {
                name,
                value: Value::Int(n),
            },
        ) = props.at(place)
        {
            let _ = write!(said, "{}:{n},", name.as_str());
        }
    }
}

/// Names rise by their bytes; a name that is there is replaced; a place is where a name stands or would stand.
#[test]
fn properties_stand_by_name(rt: HostRuntime) {
    let steps = [
        Step::Set("b", 1),
        Step::Set("a", 2),
        Step::Set("\u{10000}", 6),
        Step::Set("\u{ff61}", 3),
        Step::Set("b", 4),
        Step::Set("", 5),
        Step::All,
        Step::Find("b"),
        Step::Find("d"),
        Step::Place("a"),
        Step::Place("aa"),
        Step::Place("\u{ff61}"),
        Step::Place("\u{10001}"),
        Step::Replace(1, 9),
        Step::Replace(5, 9),
        Step::Find("a"),
    ];
    let mut props = Props::new(rt.alloc());
    let mut said = String::new(rt.alloc());
    for step in &steps {
        make(&rt, rt.alloc(), &mut props, &mut said, step);
    }
    assert!(rt; said.as_str() == ":5,a:2,b:4,\u{ff61}:3,\u{10000}:6,=4=none@1<2@3<5-2=9");
}

fn numbered(rt: &impl Abort, alloc: Global, number: u32, n: u32) -> Prop {
    let mut name = String::new(alloc);
    let _ = write!(name, "{number:06}");
    Prop {
        name: text(rt, alloc, name.as_str()),
        value: Value::Int(i64::from(n)),
    }
}

fn falling(rt: &impl Abort, alloc: Global, count: u32, again: u32) -> Vec<Prop> {
    let mut props = Vec::new(alloc);
    for n in 0..count.saturating_add(again) {
        let number = if n < count { count - n } else { n - count };
        props
            .push(numbered(rt, alloc, number, n))
            .expect(rt, "memory");
    }
    props
}

/// The names of numbers, in falling order, and some of them once more.
fn fallen(rt: &impl Abort, alloc: Global, count: u32, again: u32) -> Props {
    let props = falling(rt, alloc, count, again);
    assert!(rt; props.len() <= GREATEST_LENGTH);
    Props::from_unsorted(alloc, props).expect(rt, "memory")
}

/// Properties of a vector are sorted, the last of a name stands, and many take the time of a sort.
#[test]
fn properties_come_unsorted(rt: HostRuntime) {
    let mut said = String::new(rt.alloc());
    show(&fallen(&rt, rt.alloc(), 3, 3), &mut said);
    let _ = write!(said, " {}", fallen(&rt, rt.alloc(), 100_000, 0).len());
    assert!(rt; said.as_str() == "000000:3,000001:4,000002:5,000003:0, 100000");
}

/// Puts a number into a Set, and with what it brings into a Map.
fn put(rt: &impl Abort, members: &mut Items, entries: &mut Pairs, n: i64, brings: i64) {
    if members.len() < GREATEST_LENGTH && entries.len() < GREATEST_LENGTH {
        members.put_once(Value::Int(n)).expect(rt, "memory");
        entries
            .put(Value::Int(n), Value::Int(brings))
            .expect(rt, "memory");
    }
}

fn show_items(members: &Items, said: &mut String) {
    for place in 0..members.len() {
        if let Some(Value::Int(n)) = members.at(place) {
            let _ = write!(said, "{n},");
        }
    }
}

fn show_pairs(entries: &Pairs, said: &mut String) {
    for place in 0..entries.len() {
        if let Some(
            Pair {
                key: Value::Int(n),
                value: Value::Int(brings),
            },
        ) = entries.at(place)
        {
            let _ = write!(said, " {n}:{brings}");
        }
    }
}

fn show_members(members: &Items, entries: &Pairs, said: &mut String) {
    show_items(members, said);
    show_pairs(entries, said);
}

fn put_all(rt: &impl Abort, members: &mut Items, entries: &mut Pairs, rows: &[(i64, i64)]) {
    for (n, brings) in rows {
        put(rt, members, entries, *n, *brings);
    }
}

/// Puts these, copies both lists, puts one more number with another value and a new one, and writes both lists and the
/// copies.
fn put_and_copy(rt: &impl Abort, alloc: Global, said: &mut String) {
    let mut members = Items::new(alloc);
    let mut entries = Pairs::new(alloc);
    put_all(rt, &mut members, &mut entries, &[(1, 10), (2, 20), (1, 11)]);
    let copied = members.clone().expect(rt, "memory");
    let mapped = entries.clone().expect(rt, "memory");
    put_all(rt, &mut members, &mut entries, &[(2, 21), (3, 30)]);
    show_members(&members, &entries, said);
    let _ = said.push_str("; ");
    show_members(&copied, &mapped, said);
}

/// A repeated primitive keeps its first place, and a Map takes the last value; a copy stays as it was.
#[test]
fn members_stand_once(rt: HostRuntime) {
    let mut said = String::new(rt.alloc());
    put_and_copy(&rt, rt.alloc(), &mut said);
    assert!(rt; said.as_str() == "1,2,3, 1:11 2:21 3:30; 1,2, 1:11 2:20");
}

fn one_text(rt: &impl Abort, alloc: Global) -> Texts {
    let mut texts = Vec::new(alloc);
    texts.push(text(rt, alloc, "grün")).expect(rt, "memory");
    Texts::from_vec(texts)
}

fn two_texts(rt: &impl Abort, alloc: Global) -> PathSpec {
    let mut texts = one_text(rt, alloc);
    if texts.len() < GREATEST_LENGTH {
        texts.push(text(rt, alloc, "")).expect(rt, "memory");
    }
    PathSpec::Many(texts)
}

fn show_texts(texts: Vec<Text>, said: &mut String) {
    let _ = write!(said, "{}", texts.len());
    for text in texts {
        let _ = write!(said, "{},", text.as_str());
    }
}

fn texts(rt: &impl Abort, alloc: Global, said: &mut String) {
    let spec = two_texts(rt, alloc);
    if let PathSpec::Many(copied) = spec.copy(alloc).expect(rt, "memory") {
        show_texts(copied.into_vec(), said);
    }
}

fn two_bytes(rt: &impl Abort, alloc: Global) -> Bytes {
    let mut bytes = Bytes::from_vec(alloc, vec![in alloc; 7].expect(rt, "memory")).expect(
        rt, "memory",
    );
    bytes.push(8).expect(rt, "memory");
    bytes
}

fn show_bytes(bytes: &[u8], said: &mut String) {
    for byte in bytes {
        let _ = write!(said, "{byte},");
    }
}

fn bytes(rt: &impl Abort, alloc: Global, said: &mut String) {
    let bytes = two_bytes(rt, alloc);
    let copied = bytes.copy(alloc).expect(rt, "memory");
    show_bytes(copied.as_slice(), said);
    let _ = write!(said, "{:?}{:?}", bytes.at(1), bytes.at(2));
}

fn numbers(rt: &impl Abort, alloc: Global, said: &mut String) {
    let mut numbers = Numbers::new(alloc);
    numbers.push(u64::MAX).expect(rt, "memory");
    let _ = write!(said, "{:?}", numbers.at(0));
}

fn two_keys(rt: &impl Abort, alloc: Global) -> Key {
    let mut keys = Keys::from_vec(
        alloc,
        vec![in alloc; Key::Number(-3)].expect(rt, "memory"),
    ).expect(rt, "memory");
    keys.push(Key::Date(4)).expect(rt, "memory");
    Key::Array(keys)
}

fn show_keys(keys: &Keys, said: &mut String) {
    if let (Some(Key::Number(n)), Some(Key::Date(d)), None) = (keys.at(0), keys.at(1), keys.at(2)) {
        let _ = write!(said, "{n},{d}");
    }
}

fn keys(rt: &impl Abort, alloc: Global, said: &mut String) {
    let key = two_keys(rt, alloc);
    if let Key::Array(copied) = key.copy(alloc).expect(rt, "memory") {
        show_keys(&copied, said);
    }
}

/// Makes each list of texts, bytes, numbers and keys, from a vector and by pushing, and writes what stands there.
fn lists(rt: &impl Abort, alloc: Global, said: &mut String) {
    texts(rt, alloc, said);
    bytes(rt, alloc, said);
    numbers(rt, alloc, said);
    keys(rt, alloc, said)
}

/// One item of each kind of list, and nothing past the end.
#[test]
fn lists_keep_what_was_pushed(rt: HostRuntime) {
    let mut said = String::new(rt.alloc());
    lists(&rt, rt.alloc(), &mut said);
    assert!(rt; said.as_str() == "2grün,,7,8,Some(8)NoneSome(18446744073709551615)-3,4");
}

/// A value may be shared by threads.
fn is_shared<T: Send + Sync>(_v: &T) -> bool {
    true
}

#[derive(Drop)]
struct Seat {
    value: Value,
    key: Key,
}

/// Values and keys may be sent to other threads, and shared with them.
#[test]
fn values_may_be_shared(rt: HostRuntime) {
    let seat = Seat {
        value: Value::Object(Props::new(rt.alloc())),
        key: Key::Array(Keys::new(rt.alloc())),
    };
    assert!(rt; is_shared(&seat) && depth(&seat.value) == 1 && matches!(seat.key, Key::Array(_)));
}
