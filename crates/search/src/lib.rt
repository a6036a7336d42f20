// The place of a value among values in order, by a search in which no branch depends on the data.
// Sought, the range in which the search's difference cannot wrap, is a clause and no type: callers have an i64 from a record of any bytes and show
// the bound once, and each function would take a type apart again.
#![tactic(auto)]

ghost use Rattle.std.specs.Prelude.{◌≡◌, ◌+◌, ◌*◌, ◌/◌, ◌≤◌, length};
ghost use Rattle.search.specs.Place.{Sought, sought_by, not_less, Placed, Spanned};

// The places of which one is looked for: from lo to lo + len. Each turn of a loop takes a share of len away, so that no index is counted.
// Not a Range, whose length each turn would reckon anew, nor the library's binary_search, which branches on the data.
#[derive(Clone, Copy)]
struct Span {
    lo: usize,
    len: usize,
}

// More than any value that is looked for differs from one in a cell.
const OFFSET: i64 = 0x100_0000_0000;

// 1 where the value in cell i is not less than z, else 0, where c is OFFSET - z: a number, so that no branch depends on the data.
fn not_less(values: &[u8], i: usize, c: i64) -> usize
    requires { (4 * i + 4 ≤ length values.now) × Sought (sought_by c) }
    ensures { (result ≡ not_less (sought_by c) values.now i) × (result ≤ 1) }
{
    ((i64::from(cells::at(values, i)) + c) as u64 / (OFFSET as u64)) as usize
}

// Few places of which one is that of z among the values: three probes at once leave a quarter.
fn narrow(values: &[u8], z: i64) -> Span
    requires { Sought z }
    ensures { Spanned z values.now (length values.now / 4) result.lo result.len }
{
    let c = OFFSET - z;
    let mut lo: usize = 0;
    let mut len = values.len() / 4;
    while 3 < len {
        let q = len / 4;
        let stops = not_less(values, lo + q - 1, c)
            + not_less(values, lo + 2 * q - 1, c)
            + not_less(values, lo + 3 * q - 1, c);
        lo = lo + 3 * q - q * stops;
        len = len - 3 * q;
    }
    Span { lo: lo, len: len }
}

// The place of z among the values: before the first that is not less, where they are in order.
pub fn place(values: &[u8], z: i64) -> usize
    requires { Sought z }
    ensures { Placed z values.now (length values.now / 4) result }
{
    let span = narrow(values, z);
    let c = OFFSET - z;
    let mut lo = span.lo;
    let mut len = span.len;
    while 0 < len {
        let half = (len + 1) / 2;
        lo = lo + half - half * not_less(values, lo + half - 1, c);
        len = len - half;
    }
    lo
}
