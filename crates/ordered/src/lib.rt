// Values kept in order in a store of four-byte cells, for the percentile of a window.
// A store goes with its number m of values, here and in rolling::restock: memory is fixed (no Vec), a store has room for the values of the widest
// window, and m stands in the window's slot. What only reads takes the first m values as a slice;
// what writes takes the store, as `insert` has to: restock calls one of the three.
#![tactic(auto)]

ghost use Rattle.std.specs.Prelude.{◌+◌, ◌*◌, ◌≤◌, length};
ghost use Rattle.search.specs.Place.{Sought};
ghost use Rattle.ordered.specs.Kept.{Inserted, Removed, Replaced};

// z goes to its place among the first m values, which are in order.
#[tactic(auto, using(search::specs::Place::sought))]
pub fn insert(store: &mut [u8], m: usize, z: i32)
    requires { 4 * m + 4 ≤ length store.old }
    ensures { Inserted z m store.old store.new }
{
    let p = search::place(&store[..4 * m], i64::from(z));
    cells::move_hole(store, m, p);
    cells::put(store, p, z);
}

// One z goes from the first m values, which are in order and of which z is one.
pub fn remove(store: &mut [u8], m: usize, z: i64)
    requires { (4 * m ≤ length store.old) × Sought z }
    ensures { Removed z m store.old store.new }
{
    let p = search::place(&store[..4 * m], z);
    if p < m {
        cells::move_hole(store, p, m - 1);
    }
}

// One old goes from the first m values, which are in order and of which it is one, and new comes: only the cells between move.
#[tactic(auto, using(search::specs::Place::sought))]
pub fn replace(store: &mut [u8], m: usize, old: i64, new: i32)
    requires { (4 * m ≤ length store.old) × Sought old }
    ensures { Replaced old new m store.old store.new }
{
    let p = search::place(&store[..4 * m], old);
    let q = search::place(&store[..4 * m], i64::from(new));
    if p < m {
        let to = if p < q { q - 1 } else { q };
        cells::move_hole(store, p, to);
        cells::put(store, to, new);
    }
}
