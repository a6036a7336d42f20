// The text that the program `report` writes.
#![tactic(auto)]

ghost use Rattle.std.specs.Prelude.{◌≡◌, ◌+◌, ◌≤◌};
ghost use Rattle.arrayvec.specs.ArrayVec.{array_vec_len};
ghost use Rattle.model.specs.Report.{finding_text, accepted_text, refused_text};
ghost use Rattle.text.specs.Append.{Appended};
ghost use Rattle.report_text.specs.Lines.{samples_line, broken_line, verdict_line};

use arrayvec::ArrayVec;
use model::{Finding, Verdict};

// Every text fits this many bytes.
pub const TEXT_LEN: usize = 80;

// A text of fixed capacity: nothing is allocated.
pub type Text = ArrayVec<u8, TEXT_LEN>;

#[tactic(auto, using(crate::proofs::Laws::finding_is), unfolding(model::specs::Report::ascii, model::specs::Report::finding_text))]
fn push_finding(out: &mut Text, f: Finding)
    requires { array_vec_len out.old + 25 ≤ TEXT_LEN }
    ensures { Appended out.old.items 25 (finding_text f) out.new.items }
{
    match f {
        Finding::Rule(k) => text::push_number(out, b"rule ", k),
        Finding::Exceeded => text::push_text(out, b"exceeded"),
        Finding::Clean => text::push_text(out, b"clean"),
    }
}

#[tactic(auto, using(crate::proofs::Laws::samples_line_lem), unfolding(model::specs::Report::ascii))]
fn push_samples(out: &mut Text, n: u32)
    requires { array_vec_len out.old + 29 ≤ TEXT_LEN }
    ensures { Appended out.old.items 29 (samples_line n) out.new.items }
{
    text::push_number(out, b"samples ", n);
    text::push_text(out, b"\n");
}

#[tactic(auto, using(crate::proofs::Laws::broken_line_lem), unfolding(model::specs::Report::ascii))]
fn push_broken(out: &mut Text, broken: u32)
    requires { array_vec_len out.old + 16 ≤ TEXT_LEN }
    ensures { Appended out.old.items 16 (broken_line broken) out.new.items }
{
    text::push_text(out, b"broken ");
    text::push_hex(out, 8, broken);
    text::push_text(out, b"\n");
}

#[tactic(auto, using(crate::proofs::Laws::verdict_line_lem), unfolding(model::specs::Report::ascii))]
fn push_verdict(line: &mut Text, f: Finding)
    requires { array_vec_len line.old + 34 ≤ TEXT_LEN }
    ensures { Appended line.old.items 34 (verdict_line f) line.new.items }
{
    text::push_text(line, b"verdict ");
    push_finding(line, f);
    text::push_text(line, b"\n");
}

// The report of a trip of n samples.
#[tactic(auto, using(crate::proofs::Laws::accepted_text_lem), unfolding(model::specs::Report::ascii))]
pub fn accepted(n: u32, v: Verdict) -> Text
    ensures { result.items ≡ accepted_text n v }
{
    let mut out = Text::new();
    push_samples(&mut out, n);
    push_broken(&mut out, v.broken);
    push_verdict(&mut out, v.finding);
    out
}

// The report of refusal r after k accepted samples. By its number, not as a `Refusal`, which would ask more of callers.
#[tactic(auto, using(crate::proofs::Laws::refused_text_lem), unfolding(model::specs::Report::ascii))]
pub fn refused(r: u32, k: u32) -> Text
    ensures { result.items ≡ refused_text r k }
{
    let mut out = Text::new();
    text::push_number(&mut out, b"refused ", r);
    text::push_number(&mut out, b" at ", k);
    text::push_text(&mut out, b"\n");
    out
}
