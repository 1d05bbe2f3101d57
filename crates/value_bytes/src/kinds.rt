// The kinds of values and of keys, as the first byte of a spelling names them.
ghost use Rattle.std.specs.Prelude.{◌≡◌};
ghost use Rattle.value_bytes.specs.Reading.{kind_of};
ghost use Rattle.value_bytes.specs.KeyReading.{key_kind_of};

#[derive(Clone, Copy)]
pub(crate) enum Kind {
    Undefined,
    Null,
    False,
    True,
    Int,
    Text,
    Date,
    Bytes,
    Array,
    Object,
    Map,
    Set,
}

/// The kind of a value that begins with this byte; `None` where no value does.
pub(crate) fn kind_of(byte: u8) -> Option<Kind>
    ensures { result ≡ kind_of byte }
{
    match byte {
        0 => Some(Kind::Undefined),
        1 => Some(Kind::Null),
        2 => Some(Kind::False),
        3 => Some(Kind::True),
        4 => Some(Kind::Int),
        5 => Some(Kind::Text),
        6 => Some(Kind::Date),
        7 => Some(Kind::Bytes),
        8 => Some(Kind::Array),
        9 => Some(Kind::Object),
        10 => Some(Kind::Map),
        11 => Some(Kind::Set),
        _ => None,
    }
}

#[derive(Clone, Copy)]
pub(crate) enum KeyKind {
    Number,
    Date,
    Text,
    Binary,
    Array,
}

/// The kind of a key that begins with this byte; `None` where no key does.
pub(crate) fn key_kind_of(byte: u8) -> Option<KeyKind>
    ensures { result ≡ key_kind_of byte }
{
    match byte {
        0x21 => Some(KeyKind::Number),
        0x22 => Some(KeyKind::Date),
        0x23 => Some(KeyKind::Text),
        0x24 => Some(KeyKind::Binary),
        0x25 => Some(KeyKind::Array),
        _ => None,
    }
}
