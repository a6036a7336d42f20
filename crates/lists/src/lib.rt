// The lists of held entries, one in each slot of the windows' part, and the count of the moves that are made in them.
#![tactic(auto)]

ghost use Rattle.std.specs.Prelude.{◌≡◌, [], ◌∷◌, ◌++◌, ◌+◌, ◌*◌, ◌%◌, ◌^◌, ◌<◌, ◌≤◌, get_or};
ghost use Rattle.model.specs.Records.{max_windows};
ghost use Rattle.slots.specs.Layout.{list_capacity, moves_of, number_of};
ghost use Rattle.lists.specs.Effects.{Recounted, Emptied, Cleared};
ghost use Rattle.lists.specs.Lists.{list_of, Ready, Removable, Moved, shorter, next_first, Fitness};

use model::MAX_WINDOWS;
use slots::{FIRST, LIST_CAPACITY, MOVES, NUMBER, Part, STORE, Slot};

// Slot k's list becomes empty.
fn clear_list(part: &mut Part, k: Slot)
    ensures { Emptied k.number part.old part.new }
{
    slots::put::<u16>(part, k, FIRST, 0);
    slots::put::<u16>(part, k, NUMBER, 0);
}

// Every list becomes empty: only clear does this. `as`: there is no `usize::from` of a u32.
pub fn clear_lists(part: &mut Part)
    ensures { Cleared max_windows part.old part.new }
{
    for k in 0..MAX_WINDOWS as usize {
        clear_list(part, Slot { number: k });
    }
}

// The count of moves starts at 0: only clear does this.
pub fn clear_moves(part: &mut Part)
    ensures { Recounted 0 part.old part.new }
{
    field::put::<u64>(part, MOVES, 0);
}

// One move more.
fn count_move(part: &mut Part)
    requires { moves_of part.old + 1 < 2 ^ 64 }
    ensures { Recounted (moves_of part.old + 1) part.old part.new }
{
    let n = slots::moves(part);
    field::put(part, MOVES, n + 1);
}

// A place of the store past its end is one at its start.
fn wrap(place: u16) -> u16
    requires { place < 2 * list_capacity }
    ensures { result ≡ place % list_capacity }
{
    if place < LIST_CAPACITY {
        place
    } else {
        place - LIST_CAPACITY
    }
}

// Appends one entry at the back of slot k's list: clear apart, one of the two functions that write the lists.
// `Ready`, and `Fit` above it, stay clauses: they are facts of lent bytes, which each of these functions changes.
pub fn append(part: &mut Part, k: Slot, second: u16)
    requires { (Ready part.old k.number) × (number_of part.old k.number < list_capacity) × (moves_of part.old + 1 < 2 ^ 64) }
    ensures { Moved k.number part.old part.new (list_of part.old k.number ++ (second ∷ [])) }
{
    let n = slots::number(part, k);
    let place = usize::from(wrap(slots::first(part, k) + n));
    slots::put(part, k, STORE + 2 * place, second);
    slots::put(part, k, NUMBER, n + 1);
    count_move(part);
}

// An end of a list.
#[derive(Clone, Copy)]
pub enum End {
    Front,
    Back,
}

// The place of the first entry after a removal.
fn next_first(end: End, first: u16) -> u16
    requires { first < list_capacity }
    ensures { result ≡ next_first end first }
{
    match end {
        End::Front => wrap(first + 1),
        End::Back => first,
    }
}

// Removes one entry at an end of slot k's list: the other of the two.
pub fn remove(part: &mut Part, k: Slot, end: End)
    requires { Removable part.old k.number }
    ensures { Moved k.number part.old part.new (shorter end (list_of part.old k.number)) }
{
    let n = slots::number(part, k);
    let f = next_first(end, slots::first(part, k));
    slots::put(part, k, FIRST, f);
    slots::put(part, k, NUMBER, n - 1);
    count_move(part);
}

// Entry j of slot k's list.
#[tactic(auto, using(crate::specs::Lists::entry_get))]
pub fn entry(part: &Part, k: Slot, j: u16) -> u16
    requires { (Ready part.now k.number) × (number_of part.now k.number ≤ list_capacity) × (j < number_of part.now k.number) }
    ensures { result ≡ get_or (list_of part.now k.number) j 0 }
{
    let place = usize::from(wrap(slots::first(part, k) + j));
    slots::get(part, k, STORE + 2 * place)
}

// Whether slot k's list may be used: any bytes are tested first.
#[tactic(auto, using(crate::proofs::Answers::fitness))]
pub fn fit(part: &Part, k: Slot) -> bool
    ensures { Fitness part.now k.number result }
{
    let first_kept = slots::first(part, k) < LIST_CAPACITY;
    let number_kept = slots::number(part, k) <= LIST_CAPACITY;
    let moves_kept = slots::moves(part) <= 0x4000_0000_0000_0000;
    first_kept & (number_kept & moves_kept)
}
