// The sliding windows: their step as a sample comes, a new window, and the start. Safe on any bytes: numbers are tested before they are used.
#![tactic(auto)]

ghost use Rattle.std.specs.Prelude.{◌≡◌, [], ◌+◌, ◌*◌, ◌^◌, ◌≤◌, ◌<◌, ltb, nat_abs, length};
ghost use Rattle.model.specs.Records.{max_windows};
ghost use Rattle.slide.specs.Undisplaced.{aged};
ghost use Rattle.slots.specs.Layout.{slots_place, slot_len, store_place, slot_of, code_in, count_in, list_capacity};
ghost use Rattle.lists.specs.Lists.{list_of, Fit};
ghost use Rattle.list_steps.specs.Steps.{extreme_code};
ghost use Rattle.rolling.specs.Change.{or_zero, Small, Roomy};
ghost use Rattle.window.specs.Stand.{Stands};
ghost use Rattle.window.specs.Slot.{qualifying_value, Changes, Fillable, Kept, Refilled, Turned};
ghost use Rattle.window.specs.Sweep.{Sweeping, Steppable, Stepped, Added};

use list_steps::Extreme;
use model::{Function, RECORD_LEN};
use rolling::Change;
use slots::{LIST_CAPACITY, Part, STORE, STORE_LEN, Slot};

// The value that slot k's window reads of a second, where the second qualifies: read in any case, so that no branch depends on the data.
fn qualifying_value(part: &Part, k: Slot, second: u16) -> Option<i64>
    ensures { (result ≡ qualifying_value part.now k.number second) × (nat_abs (or_zero result) < 2 ^ 32) }
{
    slots::qualifies(part, k, second).then_some(slots::value(part, k, second))
}

// What changes in slot k's window as second n comes, whose record the ring has already.
fn read_change(part: &Part, k: Slot, n: u16) -> Change
    ensures { Changes part.now k.number n result }
{
    let leaving = n.checked_sub(slots::width(part, k));
    Change {
        leaves: leaving.and_then(|second| qualifying_value(part, k, second)),
        enters: qualifying_value(part, k, n),
    }
}

// Where the values in order of slot k begin: one place for the function that writes them and for `reading`, which reads them.
pub fn store_at(k: Slot) -> usize
    ensures { result ≡ slots_place + slot_len * k.number + store_place }
{
    k.place() + STORE
}

// The values in order of slot k, m of them.
fn keep_values(part: &mut Part, k: Slot, m: usize, c: Change)
    requires { Fillable part.old k.number m c }
    ensures { Refilled k.number c part.old part.new }
{
    let at = store_at(k);
    rolling::restock(&mut part[at..at + STORE_LEN], m, c);
}

// Whether slot k's list has room for second n, once the one that a window of width w leaves behind has gone. `Fit` is a clause, as at lists::append.
#[tactic(auto, using(crate::proofs::Room::room_below, crate::proofs::Room::room_full))]
fn has_room(part: &Part, k: Slot, w: u16, n: u16) -> bool
    requires { Fit part.now k.number }
    ensures { result ≡ ltb (length (aged w n (list_of part.now k.number))) list_capacity }
{
    slots::number(part, k) < LIST_CAPACITY || n.checked_sub(w) == Some(lists::entry(part, k, 0))
}

// The held entries of slot k, whose window is one of smallest or largest.
fn keep_list(part: &mut Part, k: Slot, n: u16, extreme: Extreme, c: Change)
    requires { (Fit part.old k.number) × (code_in (slot_of part.old k.number) ≡ extreme_code extreme) }
    ensures { Kept k.number n c part.old part.new }
{
    let w = slots::width(part, k);
    if !has_room(part, k, w, n) {
        return;
    }
    list_steps::step_list(part, k, extreme, w, n, c.enters);
}

// What slot k's function keeps besides count and sum. A match: the functions are closed, and each keeps something else.
// `as`: there is no `From` of a u32 for usize.
fn keep(part: &mut Part, k: Slot, n: u16, m: u32, c: Change)
    requires { (Fit part.old k.number) × (m ≡ count_in (slot_of part.old k.number)) × (Roomy m c) × (Small c) }
    ensures { Kept k.number n c part.old part.new }
{
    match Function::try_from(slots::code(part, k)) {
        Ok(Function::Smallest) => keep_list(part, k, n, Extreme::Smallest, c),
        Ok(Function::Largest) => keep_list(part, k, n, Extreme::Largest, c),
        Ok(Function::Percentile) => keep_values(part, k, m as usize, c),
        Ok(Function::Count | Function::Sum | Function::Average) => {}
        Err(_) => {}
    }
}

// Slot k's window as second n comes. Bytes that no list of calls leaves are left as they are.
fn turn(part: &mut Part, k: Slot, n: u16)
    ensures { Turned k.number n part.old part.new }
{
    if !lists::fit(part, k) {
        return;
    }
    let c = read_change(part, k, n);
    let m = slots::count(part, k);
    let sum = slots::sum(part, k);
    if !rolling::rollable(m, sum, c) {
        return;
    }
    keep(part, k, n, m, c);
    rolling::roll(part, k, m, sum, c);
}

fn sweep(part: &mut Part, windows: usize, n: u16)
    requires { windows ≤ max_windows }
    ensures { Sweeping n windows windows part.old part.new }
{
    for k in 0..windows {
        turn(part, Slot { number: k }, n);
    }
}

// One sample more for all windows: the record of second n, which is in range.
pub fn step(part: &mut Part, windows: usize, n: u16, bytes: &[u8; RECORD_LEN])
    requires { Steppable part.old windows n bytes.now }
    ensures { Stepped windows n bytes.now part.old part.new }
{
    slots::store_record(part, n, bytes);
    sweep(part, windows, n);
}

// Window k by its record, which keeps the layout.
pub fn declare(part: &mut Part, k: Slot, bytes: &[u8; RECORD_LEN])
    ensures { Added k.number bytes.now part.old part.new }
{
    slots::declare_slot(part, k, bytes);
}

// No windows, whatever the bytes were.
pub fn clear(part: &mut Part)
    ensures { Stands [] [] part.new }
{
    lists::clear_lists(part);
    lists::clear_moves(part);
}
