// One sample more rolled into a window's count and sum, and into its values in order. Safe on any bytes: numbers are tested before they are used.
#![tactic(auto)]

ghost use Rattle.std.specs.Prelude.{◌≡◌, ◌≤◌, nat_abs, length};
ghost use Rattle.slots.specs.Layout.{store_len};
ghost use Rattle.slots.specs.Effects.{Totalled};
ghost use Rattle.rolling.specs.Change.{Small, Roomy, Rolling, Rolls, most_sum, count_after, sum_after, Restocked};

use model::{MAX_CHANNEL, MAX_WIDTH};
use slots::{Part, Slot};

// The most samples in a window's view, and a bound on the sum of their values, either way. `as`: `From` is not const.
pub const MOST_COUNT: u32 = MAX_WIDTH as u32;

const MOST_SUM: i64 = (MOST_COUNT as i64) * (MAX_CHANNEL as i64);

// The values that a cell of a store holds.
const LEAST_CELL: i64 = -2_147_483_648;

const MOST_CELL: i64 = 2_147_483_647;

// What one sample more changes in a window: the value that leaves it, and the value that enters, where there is one.
// That both are `Small`, and that count m has room for them (`Roomy`), are no ghost fields: they would ask more of the callers of `rollable`, which
// asks nothing.
#[derive(Clone, Copy)]
pub struct Change {
    pub leaves: Option<i64>,
    pub enters: Option<i64>,
}

// Whether count m and the sum may be rolled on by a change. Two comparisons a range: `contains` of a range says no more.
pub fn rollable(m: u32, sum: i64, c: Change) -> bool
    ensures { Rolling m sum c result }
{
    if MOST_COUNT < m {
        return false;
    }
    let leaves = model::bit(c.leaves.is_some());
    let enters = model::bit(c.enters.is_some());
    let count_kept = (leaves <= m) & (m + enters <= MOST_COUNT + leaves);
    let sum_kept = (-MOST_SUM <= sum) & (sum <= MOST_SUM);
    let new = c.enters.unwrap_or(0);
    let new_kept = (LEAST_CELL <= new) & (new <= MOST_CELL);
    count_kept & (sum_kept & new_kept)
}

fn count_after(m: u32, c: Change) -> u32
    requires { Roomy m c }
    ensures { result ≡ count_after m c }
{
    m + model::bit(c.enters.is_some()) - model::bit(c.leaves.is_some())
}

fn sum_after(sum: i64, c: Change) -> i64
    requires { (nat_abs sum ≤ most_sum) × (Small c) }
    ensures { result ≡ sum_after sum c }
{
    sum - c.leaves.unwrap_or(0) + c.enters.unwrap_or(0)
}

// Count and sum of slot k: what leaves is taken away, what enters is added.
pub fn roll(part: &mut Part, k: Slot, m: u32, sum: i64, c: Change)
    requires { Rolls part.old k.number m sum c }
    ensures { Totalled k.number (count_after m c) (sum_after sum c) part.old part.new }
{
    let count = count_after(m, c);
    let total = sum_after(sum, c);
    slots::put_count_sum(part, k, count, total);
}

// A store of m values in order, rolled on by a change.
pub fn restock(store: &mut [u8], m: usize, c: Change)
    requires { (length store.old ≡ store_len) × (Roomy m c) × (Small c) }
    ensures { Restocked m c store.old store.new }
{
    match (c.leaves, c.enters) {
        (Some(old), Some(new)) => ordered::replace(store, m, old, new as i32),
        (Some(old), None) => ordered::remove(store, m, old),
        (None, Some(new)) => ordered::insert(store, m, new as i32),
        (None, None) => {}
    }
}
