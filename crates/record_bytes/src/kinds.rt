// The kinds of changes, as the first byte of a change names them.
ghost use Rattle.std.specs.Prelude.{◌≡◌};
ghost use Rattle.record_bytes.specs.Reading.{delta_kind_of};

#[derive(Clone, Copy)]
pub(crate) enum DeltaKind {
    Version,
    DropDatabase,
    CreateStore,
    DropStore,
    CreateIndex,
    DropIndex,
    Put,
    Remove,
    Clear,
    Current,
}

/// The kind of a change that begins with this byte; `None` where no change does.
pub(crate) fn delta_kind_of(byte: u8) -> Option<DeltaKind>
    ensures { result ≡ delta_kind_of byte }
{
    match byte {
        0x31 => Some(DeltaKind::Version),
        0x32 => Some(DeltaKind::DropDatabase),
        0x33 => Some(DeltaKind::CreateStore),
        0x34 => Some(DeltaKind::DropStore),
        0x35 => Some(DeltaKind::CreateIndex),
        0x36 => Some(DeltaKind::DropIndex),
        0x37 => Some(DeltaKind::Put),
        0x38 => Some(DeltaKind::Remove),
        0x39 => Some(DeltaKind::Clear),
        0x3a => Some(DeltaKind::Current),
        _ => None,
    }
}
