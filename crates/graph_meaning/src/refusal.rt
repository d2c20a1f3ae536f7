use heap_base::OutOfMemory;

/// The fields of the operations, as they stand in a trace.
#[derive(Clone, Copy, Debug, PartialEq, Eq)]
pub enum FieldName {
    OpField,
    IdField,
    TypeField,
    SlotsField,
    ThreadField,
    AtField,
    SlotField,
    ToField,
    NameField,
    LimitField,
    OwnerField,
    OwneeField,
    WeakField,
}

/// Why a line of a trace is refused. A refused line changes nothing.
#[derive(Clone, Copy, Debug, PartialEq, Eq)]
pub enum Refusal {
    /// The line has more than 65,536 bytes, without its newline.
    LineTooLong,
    /// The trace has more bytes than its limit.
    TraceTooLong,
    /// The line is no JSON text (RFC 8259).
    NotJson,
    /// Its value is no object.
    NotObject,
    /// Its operation is not known.
    UnknownOp,
    /// A field that must be there is missing.
    MissingField(FieldName),
    /// The value of a field is not one that it may have.
    BadField(FieldName),
    /// The id of a new object is not above every id that was allocated before.
    IdNotRising(u32),
    /// 1,048,576 objects are live.
    TooManyObjects,
    /// The live slots and the new ones pass 16,777,216.
    TooManySlots,
    /// No live object has this id.
    NotLive(u32),
    /// The object has no slot of this number.
    BadSlot(u32),
    /// 65,536 root names are there.
    TooManyRoots,
    /// 65,536 type names were seen.
    TooManyTypes,
    /// 64 regions of the thread are open.
    TooDeep(u32),
    /// No region of the thread is open.
    NoRegion(u32),
    /// An object was to own itself.
    SelfOwned(u32),
}

/// Why a call did not do what it was asked: the request is refused, or memory ran out.
#[derive(Clone, Copy, Debug, PartialEq, Eq)]
pub enum Stop {
    Refused(Refusal),
    OutOfMemory,
}

impl From<Refusal> for Stop {
    ghost use Rattle.std.specs.Prelude.{◌≡◌};
    ghost use Rattle.graph_meaning.specs.declared.refusal.Stop.{Stop};

    ghost from_gives = { λ refusal stop. stop ≡ Stop.Refused refusal };

    fn from(refusal: Refusal) -> Stop {
        Stop::Refused(refusal)
    }
}

impl From<OutOfMemory> for Stop {
    ghost use Rattle.std.specs.Prelude.{◌≡◌};
    ghost use Rattle.graph_meaning.specs.declared.refusal.Stop.{Stop};

    ghost from_gives = { λ _ stop. stop ≡ Stop.OutOfMemory };

    fn from(_: OutOfMemory) -> Stop {
        Stop::OutOfMemory
    }
}
