// The small routines that write a lent part of the reference buffer.
#![tactic(auto, using(types::proofs::Moves::put_fill, types::proofs::Moves::put_cut, types::proofs::Moves::through, types::proofs::Moves::put_none))]

ghost use Rattle.std.specs.Prelude.{◌≡◌, ◌+◌, ◌≤◌, length, replicate};
ghost use Rattle.types.specs.Span.{over, cut};
ghost use Rattle.types.specs.stages.Facts.{Two};

fn blank() -> [u64; 8192] {
    [0u64; 8192]
}

// `n` items of another buffer go to the cells from `to` on.
pub(crate) fn init_cells(cells: &mut [u64], to: usize, items: &[u64], from: usize, n: usize)
    requires { (to + n ≤ length cells.old) × (from + n ≤ length items.now) }
    ensures { cells.new ≡ over cells.old to (cut items.now from n) }
{
    cells[to..to + n].copy_from_slice(&items[from..from + n]);
}

// The part becomes the cells of a source of the same length. A loop: the compiler makes one block move of two of them and leaves the row
// between out; with `copy_from_slice` it clears the row and moves twice, and a copy of 16,384 cells takes 2.5 to 4 times as long.
fn put(part: &mut [u64], source: &[u64])
    requires { length part.old ≡ length source.now }
    ensures { part.new ≡ source.now }
{
    let mut i = 0;
    while i < source.len() {
        part[i] = source[i];
        i += 1;
    }
}

// The first cells of the row take the cells from `from` on, and go to `to`.
fn move_through(cells: &mut [u64], row: &mut [u64], to: usize, from: usize)
    requires { Two to from (length row.old) (length cells.old) }
    ensures { cells.new ≡ over cells.old to (cut cells.old from (length row.old)) }
{
    let n = row.len();
    put(row, &cells[from..from + n]);
    put(&mut cells[to..to + n], row);
}

// Up to 8192 cells move at once, however their spans overlap: the slice's own `copy_within` takes 1.4 times as long and more at 512 to 131,072 cells.
fn move_some(cells: &mut [u64], to: usize, from: usize, n: usize)
    requires { Two to from n (length cells.old) × (n ≤ 8192) }
    ensures { cells.new ≡ over cells.old to (cut cells.old from n) }
{
    let mut row = blank();
    move_through(cells, &mut row[..n], to, from);
}

// Any number of cells, by halves: the half that the other's cells do not go to first. It calls itself, so that it stays a function of its own, and short moves do not pay for it.
fn move_long(cells: &mut [u64], to: usize, from: usize, n: usize)
    requires { Two to from n (length cells.old) }
    ensures { cells.new ≡ over cells.old to (cut cells.old from n) }
{
    if n <= 8192 {
        move_some(cells, to, from, n);
    } else {
        let h = n / 2;
        if to <= from {
            move_long(cells, to, from, h);
            move_long(cells, to + h, from + h, n - h);
        } else {
            move_long(cells, to + h, from + h, n - h);
            move_long(cells, to, from, h);
        }
    }
}

// `n` cells move within the buffer: all are read as they were before, however the spans overlap.
pub(crate) fn move_cells(cells: &mut [u64], to: usize, from: usize, n: usize)
    requires { Two to from n (length cells.old) }
    ensures { cells.new ≡ over cells.old to (cut cells.old from n) }
{
    if n <= 8192 {
        move_some(cells, to, from, n);
    } else {
        move_long(cells, to, from, n);
    }
}

// The first cells are filled, and what is there is copied on: block moves are faster than the single stores of `fill`.
// At most 8192 cells at once, which stay in the cache. A function of its own, so that short fills do not pay for it.
#[inline(never)]
fn fill_on(cells: &mut [u64], to: usize, v: u64, n: usize)
    requires { (to + n ≤ length cells.old) × (128 ≤ n) }
    ensures { cells.new ≡ over cells.old to (replicate n v) }
{
    cells[to..to + 128].fill(v);
    let mut k = 128;
    while k < n {
        let m = k.min(n - k).min(8192);
        move_some(cells, to + k, to, m);
        k += m;
    }
}

// `n` cells from `to` on become the reference. A fill with a literal null is memset in the machine code.
pub(crate) fn fill_cells(cells: &mut [u64], to: usize, v: u64, n: usize)
    requires { to + n ≤ length cells.old }
    ensures { cells.new ≡ over cells.old to (replicate n v) }
{
    if v == 0 {
        cells[to..to + n].fill(0);
    } else if n <= 128 {
        cells[to..to + n].fill(v);
    } else {
        fill_on(cells, to, v, n);
    }
}
