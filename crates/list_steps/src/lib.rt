// One sample more for a slot's list of held entries: aged, popped and appended to.
#![tactic(auto)]

ghost use Rattle.std.specs.Prelude.{◌≡◌, ◌<◌, length};
ghost use Rattle.slide.specs.Undisplaced.{pops, aged};
ghost use Rattle.slots.specs.Layout.{list_capacity};
ghost use Rattle.lists.specs.Lists.{list_of, Fit};
ghost use Rattle.list_steps.specs.Steps.{displaces_in, Became, ListStepped};

use lists::End;
use slots::{Part, Slot};

// The value of its list's entries that a window reads: two of the six functions keep a list.
#[derive(Clone, Copy)]
pub enum Extreme {
    Smallest,
    Largest,
}

// Whether a new value displaces the entry of a second; an equal one does.
fn displaced(part: &Part, k: Slot, extreme: Extreme, new: i64, second: u16) -> bool
    ensures { result ≡ displaces_in extreme new part.now k.number second }
{
    let old = slots::value(part, k, second);
    match extreme {
        Extreme::Smallest => new <= old,
        Extreme::Largest => old <= new,
    }
}

// The first entry goes where a window of width w leaves it behind as this second comes. `Fit` is a clause, as at lists::append.
#[tactic(auto, using(crate::specs::Steps::not_left_behind, crate::specs::Steps::left_behind))]
fn age(part: &mut Part, k: Slot, w: u16, second: u16)
    requires { Fit part.old k.number }
    ensures { Became k.number part.old part.new (aged w second (list_of part.old k.number)) 0 }
{
    if slots::number(part, k) != 0 && second.checked_sub(w) == Some(lists::entry(part, k, 0)) {
        lists::remove(part, k, End::Front);
    }
}

// Those at the back that the new value displaces go.
fn pop(part: &mut Part, k: Slot, extreme: Extreme, new: i64)
    requires { Fit part.old k.number }
    ensures { Became k.number part.old part.new (pops (displaces_in extreme new part.old k.number) (list_of part.old k.number)) 0 }
{
    for last in (0..slots::number(part, k)).rev() {
        let second = lists::entry(part, k, last);
        if !displaced(part, k, extreme, new, second) {
            return;
        }
        lists::remove(part, k, End::Back);
    }
}

// One sample more for a list: its second, and its value where it qualifies.
pub fn step_list(part: &mut Part, k: Slot, extreme: Extreme, w: u16, second: u16, new: Option<i64>)
    requires { (Fit part.old k.number) × (length (aged w second (list_of part.old k.number)) < list_capacity) }
    ensures { ListStepped k.number w second extreme new part.old part.new }
{
    age(part, k, w, second);
    if let Some(z) = new {
        pop(part, k, extreme, z);
        lists::append(part, k, second);
    }
}
