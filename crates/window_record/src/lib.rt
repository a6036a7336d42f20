// A window record, checked.
#![tactic(auto)]

ghost use Rattle.std.specs.Prelude.{◌≡◌};
ghost use Rattle.model.specs.Records.{fields_kept};
ghost use Rattle.window_record.specs.Read.{window_read};

use model::{Function, MAX_WIDTH, RECORD_LEN, Refusal};

// A window record keeps the layout, but for the function code. Two comparisons a range: `contains` of a range says no more.
// Channels are numbers: an enum with `TryFrom` would be seven variants more, for two comparisons here and the one match of record::channel_at.
#[tactic(auto, using(crate::proofs::Tests::field_tests))]
fn fields_kept(r: &[u8; RECORD_LEN]) -> bool
    ensures { result ≡ fields_kept r.now }
{
    let channel = field::get::<u8>(r, 1) <= 6;
    let condition = field::get::<u8>(r, 2) <= 6;
    let zero = field::get::<u8>(r, 3) == 0;
    let w: u16 = field::get(r, 4);
    let width = (1 <= w) & (w <= MAX_WIDTH);
    let zeros = field::get::<u16>(r, 6) == 0;
    let ordered = field::get::<i32>(r, 8) <= field::get::<i32>(r, 12);
    channel & (condition & (zero & (width & (zeros & ordered))))
}

// Whether a window record of any length keeps the layout.
#[tactic(auto, unfolding(model::specs::Records::layout_kept))]
pub fn read_window(r: &[u8]) -> Result<(), Refusal>
    ensures { result ≡ window_read r.now }
{
    let r = r.as_array().ok_or(Refusal::RecordLength)?;
    Function::try_from(field::get::<u8>(r, 0))?;
    if fields_kept(r) {
        Ok(())
    } else {
        Err(Refusal::WindowLayout)
    }
}
