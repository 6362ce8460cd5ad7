// References: 64 bits here, and the kind of what they refer to.
#![tactic(auto, unfolding(crate::specs::Raw::raw_bytes))]

ghost use Rattle.std.specs.Prelude.{◌≡◌};
ghost use Rattle.types.specs.Raw.{null_ref, is_null, null_of, typed_of, same_kind, raw_bytes};

#[derive(Clone, Copy, PartialEq, Eq)]
pub enum RefType {
    Func,
    Extern,
}

impl RefType {
    pub fn same(self, other: RefType) -> bool
        ensures { result ≡ same_kind self other }
    {
        self == other
    }
}

#[derive(Clone, Copy, PartialEq, Eq)]
pub struct RawRef {
    pub bits: u64,
}

impl RawRef {
    pub fn null() -> RawRef
        ensures { result ≡ null_ref }
    {
        RawRef { bits: 0 }
    }

    pub fn is_null(self) -> bool
        ensures { result ≡ is_null self }
    {
        self.bits == 0
    }

    // The bytes that a reference counts in a price.
    pub fn size() -> u64
        ensures { result ≡ raw_bytes }
    {
        4
    }
}

#[derive(Clone, Copy, PartialEq, Eq)]
pub struct TypedRawRef {
    pub raw: RawRef,
    pub ty: RefType,
}

impl TypedRawRef {
    pub fn new(raw: RawRef, ty: RefType) -> TypedRawRef
        ensures { result ≡ typed_of raw ty }
    {
        TypedRawRef { raw, ty }
    }

    pub fn null(ty: RefType) -> TypedRawRef
        ensures { result ≡ null_of ty }
    {
        TypedRawRef {
            raw: RawRef::null(),
            ty,
        }
    }
}
