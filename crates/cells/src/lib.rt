// Values in cells of four bytes, as i32: read, written, moved by one cell, and the percentile of values in order.
#![tactic(auto)]

ghost use Rattle.std.specs.Prelude.{◌≡◌, ◌+◌, ◌-◌, ◌*◌, ◌/◌, ◌≤◌, ◌<◌, pos, length, get_or};
ghost use Rattle.model.specs.Records.{max_width};
ghost use Rattle.slide.specs.Percentile.{rank};
ghost use Rattle.cells.specs.Store.{Moved, Put, value_at, values_of};

// The value in cell i. Room for its cells is asked by each function: a store is a slice of any length.
#[tactic(auto, unfolding(crate::specs::Store::value_at))]
pub fn at(store: &[u8], i: usize) -> i32
    requires { 4 * i + 4 ≤ length store.now }
    ensures { result ≡ value_at store.now i }
{
    field::get(store, 4 * i)
}

// z goes into cell i.
#[tactic(auto, using(crate::proofs::Hole::written))]
pub fn put(store: &mut [u8], i: usize, z: i32)
    requires { 4 * i + 4 ≤ length store.old }
    ensures { Put i z store.old store.new }
{
    field::put(store, 4 * i, z);
}

// The hole at p goes to q: each value on the way moves by one cell towards p. One of the two loops has no turn.
// The library's copy_within becomes a call of memmove, and the static library takes no symbol from outside.
pub fn move_hole(store: &mut [u8], p: usize, q: usize)
    requires { (4 * p + 4 ≤ length store.old) × (4 * q + 4 ≤ length store.old) }
    ensures { Moved p q store.old store.new }
{
    for to in p..q {
        let z = at(store, to + 1);
        put(store, to, z);
    }
    for from in (q..p).rev() {
        let z = at(store, from);
        put(store, from + 1, z);
    }
}

// The 95th percentile of the values, which are in order.
#[tactic(auto, using(crate::specs::Store::values_at))]
pub fn percentile(values: &[u8]) -> i32
    requires { (4 ≤ length values.now) × (length values.now / 4 ≤ max_width) }
    ensures { result ≡ get_or (values_of values.now (length values.now / 4)) (rank (length values.now / 4)) (pos 0) }
{
    let m = values.len() / 4;
    at(values, (95 * m + 99) / 100 - 1)
}
