// What the windows read. Safe on any bytes: numbers are tested before they are used.
#![tactic(auto)]

ghost use Rattle.std.specs.Prelude.{◌≡◌};
ghost use Rattle.slots.specs.Layout.{slot_of, code_in};
ghost use Rattle.list_steps.specs.Steps.{extreme_code};
ghost use Rattle.reading.specs.Read.{Reads};

use list_steps::Extreme;
use model::Function;
use rolling::MOST_COUNT;
use slots::{Part, STORE_LEN, Slot};

// The smallest or largest value: that of the first held entry.
fn first_value(part: &Part, k: Slot, extreme: Extreme) -> Option<i64>
    requires { code_in (slot_of part.now k.number) ≡ extreme_code extreme }
    ensures { Reads k.number part.now result }
{
    if !lists::fit(part, k) {
        return None;
    }
    if slots::number(part, k) == 0 {
        return None;
    }
    let second = lists::entry(part, k, 0);
    Some(slots::value(part, k, second))
}

// The sum by the count, rounded to the nearest, an exact half to even; none for a count of 0.
#[tactic(auto, using(crate::specs::Read::reads_none))]
fn average(part: &Part, k: Slot) -> Option<i64>
    requires { code_in (slot_of part.now k.number) ≡ 4 }
    ensures { Reads k.number part.now result }
{
    let count = slots::count(part, k);
    if count == 0 {
        return None;
    }
    Some(rounding::round_half_even(slots::sum(part, k), count))
}

// The percentile; none for a count of 0, or of more than a window holds. `as`: there is no `From` of a u32 for usize.
fn percentile(part: &Part, k: Slot) -> Option<i64>
    requires { code_in (slot_of part.now k.number) ≡ 5 }
    ensures { Reads k.number part.now result }
{
    let count = slots::count(part, k);
    if count == 0 {
        return None;
    }
    if MOST_COUNT < count {
        return None;
    }
    let at = window::store_at(k);
    let store = &part[at..at + STORE_LEN];
    Some(i64::from(cells::percentile(&store[..4 * count as usize])))
}

// What window k reads; none where no sample in it qualifies. A match: the functions are closed, and each reads something else.
pub fn read(part: &Part, k: Slot) -> Option<i64>
    ensures { Reads k.number part.now result }
{
    match Function::try_from(slots::code(part, k)) {
        Ok(Function::Count) => Some(i64::from(slots::count(part, k))),
        Ok(Function::Sum) => Some(slots::sum(part, k)),
        Ok(Function::Smallest) => first_value(part, k, Extreme::Smallest),
        Ok(Function::Largest) => first_value(part, k, Extreme::Largest),
        Ok(Function::Average) => average(part, k),
        Ok(Function::Percentile) => percentile(part, k),
        Err(_) => None,
    }
}
