// The windows' part of the state area: room for stream expressions, the ring of sample records, the move count, and a slot for each window.
#![tactic(auto)]

mod slot;

ghost use Rattle.std.specs.Prelude.{◌≡◌, ◌+◌, ◌^◌, ◌<◌, ◌≤◌, nat_abs};
ghost use Rattle.model.specs.Numbers.{le_at, le_bytes};
ghost use Rattle.model.specs.Records.{record_length};
ghost use Rattle.field.specs.Part.{put};
ghost use Rattle.slots.specs.Layout.{part_len, record_place, slot_of, slot_len, moves_of, code_in, width_in, count_in, sum_in};
ghost use Rattle.slots.specs.Layout.{first_in, number_in, value_in, qualifies_in};
ghost use Rattle.slots.specs.Effects.{Written, Stored, Totalled, Declared};

use field::Field;
use model::{MAX_WIDTH, MAX_WINDOWS, RECORD_LEN};
pub use slot::Slot;

// The part: room for stream expressions, which nothing writes yet, the ring, the move count, the slots.
const EXPRESSIONS_LEN: usize = 264;

const RING: usize = EXPRESSIONS_LEN;

// How far back a condition may look.
const CONDITION_REACH: u16 = 9;

// The widest window's samples, those that a condition may look back to, and the new one.
const RING_SECONDS: u16 = MAX_WIDTH + CONDITION_REACH + 1;

// `as`, here and below: `usize::from` is not const.
pub const MOVES: usize = RING + RECORD_LEN * (RING_SECONDS as usize);

pub const SLOTS: usize = MOVES + 8;

pub const PART_LEN: usize = SLOTS + SLOT_LEN * (MAX_WINDOWS as usize);

// A slot: the window record's fields, then those behind it, then a store of seconds or of values.
const CODE: usize = 0;

const CHANNEL: usize = 1;

const CONDITION: usize = 2;

const WIDTH: usize = 4;

const LOW: usize = 8;

const HIGH: usize = 12;

const COUNT: usize = RECORD_LEN;

const SUM: usize = COUNT + 4;

pub const FIRST: usize = SUM + 8;

pub const NUMBER: usize = FIRST + 2;

pub const STORE: usize = NUMBER + 2;

pub const STORE_LEN: usize = 4 * (LIST_CAPACITY as usize);

pub const SLOT_LEN: usize = STORE + STORE_LEN;

// A list has room for the seconds of the widest window.
pub const LIST_CAPACITY: u16 = MAX_WIDTH;

// The windows' part of the state area.
pub type Part = [u8; PART_LEN];

// The number in the n bytes at o within slot k. n is a parameter: a caller may know it at run time alone.
#[tactic(auto, using(crate::specs::Layout::slot_le))]
pub fn get_le(part: &Part, k: Slot, o: usize, n: usize) -> u64
    requires { (o + n ≤ slot_len) × (n ≤ 8) }
    ensures { (result ≡ le_at n (slot_of part.now k.number) o) × (result < 256 ^ n) }
{
    field::get_le(part, k.place() + o, n)
}

// The n lowest bytes of v go to o within slot k.
pub fn put_le(part: &mut Part, k: Slot, o: usize, n: usize, v: u64)
    requires { o + n ≤ slot_len }
    ensures { Written k.number o (le_bytes n v) part.old part.new }
{
    field::put_le(part, k.place() + o, n, v);
}

// The field at o within slot k, read and written. The crate `lists` alone writes the lists, and it does so through these two.
// The part and k go together in every function of a slot, and are no struct: half of them write, and each method of a struct that holds a `&mut` needs
// a clause that it is still the same one.
pub fn get<T: Field>(part: &Part, k: Slot, o: usize) -> T
    requires { o + T.LEN ≤ slot_len }
    ensures { result ≡ T.value (le_at T.LEN (slot_of part.now k.number) o) }
{
    T::from_number(get_le(part, k, o, T::LEN))
}

pub fn put<T: Field>(part: &mut Part, k: Slot, o: usize, v: T)
    requires { o + T.LEN ≤ slot_len }
    ensures { Written k.number o (le_bytes T.LEN (T.number v)) part.old part.new }
{
    put_le(part, k, o, T::LEN, v.to_number());
}

// The moves made since the last clear.
pub fn moves(part: &Part) -> u64
    ensures { result ≡ moves_of part.now }
{
    field::get(part, MOVES)
}

// The fields of slot k, each by a function of its own, which gives it its type: with `get` alone a caller could read one at another's width.
// The function code of its window: a number, as it stands in the bytes, of which `Function::try_from` makes a function where one is asked for.
pub fn code(part: &Part, k: Slot) -> u8
    ensures { result ≡ code_in (slot_of part.now k.number) }
{
    get(part, k, CODE)
}

pub fn width(part: &Part, k: Slot) -> u16
    ensures { result ≡ width_in (slot_of part.now k.number) }
{
    get(part, k, WIDTH)
}

pub fn count(part: &Part, k: Slot) -> u32
    ensures { result ≡ count_in (slot_of part.now k.number) }
{
    get(part, k, COUNT)
}

pub fn sum(part: &Part, k: Slot) -> i64
    ensures { result ≡ sum_in (slot_of part.now k.number) }
{
    get(part, k, SUM)
}

// The place of the list's first entry.
pub fn first(part: &Part, k: Slot) -> u16
    ensures { result ≡ first_in (slot_of part.now k.number) }
{
    get(part, k, FIRST)
}

// How many entries the list has.
pub fn number(part: &Part, k: Slot) -> u16
    ensures { result ≡ number_in (slot_of part.now k.number) }
{
    get(part, k, NUMBER)
}

// The place of a second's record in the ring.
fn record_place(second: u16) -> usize
    ensures { result ≡ record_place second }
{
    RING + RECORD_LEN * usize::from(second % RING_SECONDS)
}

// The value that slot k's window reads of the ring's record of a second.
#[tactic(auto, unfolding(crate::specs::Layout::value_in))]
pub fn value(part: &Part, k: Slot, second: u16) -> i64
    ensures { (result ≡ value_in part.now k.number second) × (nat_abs result < 2 ^ 32) }
{
    record::channel_at(part, record_place(second), get(part, k, CHANNEL))
}

// Whether a second qualifies for slot k's window, by the ring's records. Two comparisons: `contains` of a range says no more.
pub fn qualifies(part: &Part, k: Slot, second: u16) -> bool
    ensures { result ≡ qualifies_in part.now k.number second }
{
    let v = record::channel_at(part, record_place(second), get(part, k, CONDITION));
    let low = i64::from(get::<i32>(part, k, LOW));
    let high = i64::from(get::<i32>(part, k, HIGH));
    (low <= v) & (v <= high)
}

// A record's bytes go to `at`.
fn copy_record(part: &mut Part, at: usize, bytes: &[u8; RECORD_LEN])
    requires { at + record_length ≤ part_len }
    ensures { part.new ≡ put part.old at bytes.now }
{
    part[at..at + RECORD_LEN].copy_from_slice(bytes);
}

// The ring's place of a second takes a record.
pub fn store_record(part: &mut Part, second: u16, bytes: &[u8; RECORD_LEN])
    ensures { Stored second bytes.now part.old part.new }
{
    copy_record(part, record_place(second), bytes);
}

// Slot k's count and sum become these.
pub fn put_count_sum(part: &mut Part, k: Slot, count: u32, sum: i64)
    ensures { Totalled k.number count sum part.old part.new }
{
    put(part, k, COUNT, count);
    put(part, k, SUM, sum);
}

// Slot k starts with a window record: nothing counted. Its list, which clear has emptied, is not written.
pub fn declare_slot(part: &mut Part, k: Slot, bytes: &[u8; RECORD_LEN])
    ensures { Declared k.number bytes.now part.old part.new }
{
    copy_record(part, k.place(), bytes);
    put_count_sum(part, k, 0, 0);
}
