// Words and numbers as bytes of text, behind a text of fixed capacity.
#![tactic(auto)]

ghost use Rattle.std.specs.Prelude.{◌≡◌, [], ◌∷◌, ◌++◌, ◌+◌, ◌<◌, ◌≤◌, length};
ghost use Rattle.arrayvec.specs.ArrayVec.{array_vec_len};
ghost use Rattle.model.specs.Report.{decimal, hex_digit, hexadecimal};
ghost use Rattle.text.specs.Append.{Appended};

use arrayvec::ArrayVec;

// Any bytes, behind what stands there. Room is asked by each function that pushes: none can fail, and N is the caller's.
pub fn push_text<const N: usize>(text: &mut ArrayVec<u8, N>, bytes: &[u8])
    requires { array_vec_len text.old + length bytes.now ≤ N }
    ensures { Appended text.old.items (length bytes.now) bytes.now text.new.items }
{
    text.try_extend_from_slice(bytes).unwrap();
}

// Not by `write!` and `Display`: std says what they write where they answer Ok, and not that they do, and these functions can't fail.
// 20 bytes, as the definition has them, are more than any u32 needs.
#[tactic(auto, using(crate::proofs::Laws::decimal_pushed))]
pub fn push_decimal<const N: usize>(text: &mut ArrayVec<u8, N>, n: u32)
    requires { array_vec_len text.old + 20 ≤ N }
    ensures { Appended text.old.items 20 (decimal n) text.new.items }
{
    push_text(text, itoa::Buffer::new().format(n).as_bytes());
}

// One digit, in lower case.
#[tactic(auto, unfolding(model::specs::Report::hex_digit))]
fn push_hex_digit<const N: usize>(text: &mut ArrayVec<u8, N>, d: u32)
    requires room { array_vec_len text.old + 1 ≤ N }
    requires digit { d < 16 }
    ensures { text.new.items ≡ text.old.items ++ hex_digit d ∷ [] }
{
    text.push(char::from_digit(d, 16).unwrap() as u8);
}

// The k lowest hexadecimal digits of a number, by the two steps of the definition. `hex::encode_to_slice` answers a Result, and bytes that would have to
// be taken again as text.
pub fn push_hex<const N: usize>(text: &mut ArrayVec<u8, N>, k: usize, n: u32)
    requires { array_vec_len text.old + k ≤ N }
    ensures { Appended text.old.items k (hexadecimal k n) text.new.items }
{
    if k > 0 {
        push_hex(text, k - 1, n / 16);
        push_hex_digit(text, n % 16);
    }
}

// A number in decimal behind its label, of any bytes.
pub fn push_number<const N: usize>(text: &mut ArrayVec<u8, N>, label: &[u8], n: u32)
    requires { array_vec_len text.old + (length label.now + 20) ≤ N }
    ensures { Appended text.old.items (length label.now + 20) (label.now ++ decimal n) text.new.items }
{
    push_text(text, label);
    push_decimal(text, n);
}
