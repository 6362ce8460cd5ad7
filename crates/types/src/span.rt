// Spans of cells, and the bounds of every one.
ghost use Rattle.std.specs.Prelude.{◌≡◌};
ghost use Rattle.types.specs.Span.{inside};

// So many cells, from one place to another.
#[derive(Clone, Copy)]
pub struct CopySpan {
    pub to: u64,
    pub from: u64,
    pub len: u64,
}

// So many cells, from one place on.
#[derive(Clone, Copy)]
pub struct FillSpan {
    pub start: u64,
    pub len: u64,
}

// Whether `len` cells from `start` on lie within `size` cells; in this order a literal `len` costs the least.
pub fn within(start: u64, len: u64, size: u64) -> bool
    ensures { result ≡ inside start len size }
{
    if size < start {
        return false;
    }
    len <= size - start
}
