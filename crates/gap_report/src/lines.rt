// The lines of the report, each written from the walk for its kind: every text at the front of the part of the buffer that is left.
ghost use Rattle.std.specs.Prelude.{◌≡◌, true, ◌∷◌, ◌≤◌, length};
ghost use Rattle.std.proofs.Math.IntN.{sub_ℕ};
ghost use Rattle.rules.specs.Refusals.{given};
ghost use Rattle.rules.specs.Kinds.{unpacked, handed};
ghost use Rattle.rules.specs.Spelling.{decimal, dotted};
ghost use Rattle.rules.specs.Listing.{letter};
ghost use Rattle.requests.specs.GapReport.{spaced, signed};
ghost use Rattle.digits.specs.Places.{placed};
ghost use Rattle.kinds.specs.Views.{kind_of, bits_of};
ghost use Rattle.gap_report.specs.Walk.{tally_steps, tally_rest, tally_line};
ghost use Rattle.gap_report.specs.Views.{tallied_as, Dated};

use crate::tally::Tally;
use kinds::{Kind, Packed};

// The byte that ends a line.
pub(crate) const LINE_END: u8 = b'\n';

// A number after a byte.
fn put_after(out: &mut [u8], byte: u8, n: u64) -> usize
    requires { 21 ≤ length out.old }
    ensures value { (result ≡ length (byte ∷ decimal n)) × (result ≤ 21) }
    ensures out_after { out.new ≡ placed (byte ∷ decimal n) out.old }
{
    let end = 1 + digits::put_decimal(&mut out[1..], n);
    out[0] = byte;
    end
}

// A number after a space.
pub(crate) fn put_number(out: &mut [u8], n: u64) -> usize
    requires { 21 ≤ length out.old }
    ensures value { (result ≡ length (spaced (decimal n))) × (result ≤ 21) }
    ensures out_after { out.new ≡ placed (spaced (decimal n)) out.old }
{
    put_after(out, b' ', n)
}

// up - dn after a space, with its sign.
fn put_signed(out: &mut [u8], up: u64, dn: u64) -> usize
    requires { 22 ≤ length out.old }
    ensures value { (result ≡ length (spaced (signed (sub_ℕ up dn)))) × (result ≤ 22) }
    ensures out_after { out.new ≡ placed (spaced (signed (sub_ℕ up dn))) out.old }
{
    if up < dn {
        let end = 1 + put_after(&mut out[1..], b'-', dn - up);
        out[0] = b' ';
        return end;
    }
    put_number(out, up - dn)
}

// The dotted text of a date of the kind after a space.
fn put_date(out: &mut [u8], kind: Kind, date: Packed) -> usize
    requires { (16 ≤ length out.old) × (given (handed (kind_of kind) (bits_of date)) ≡ true) }
    ensures value { (result ≡ length (spaced (dotted (kind_of kind) (unpacked (bits_of date))))) × (result ≤ 16) }
    ensures out_after { out.new ≡ placed (spaced (dotted (kind_of kind) (unpacked (bits_of date)))) out.old }
{
    let end = 1 + formatter::put_dotted(&mut out[1..], kind, date);
    out[0] = b' ';
    end
}

// Step, place and sum.
fn put_steps(out: &mut [u8], t: Tally) -> usize
    requires { 64 ≤ length out.old }
    ensures value { (result ≡ length (tally_steps (tallied_as t))) × (result ≤ 64) }
    ensures out_after { out.new ≡ placed (tally_steps (tallied_as t)) out.old }
{
    let place_at = put_number(out, t.step as u64);
    let sum_at = place_at + put_number(&mut out[place_at..], t.place as u64);
    sum_at + put_signed(&mut out[sum_at..], t.last as u64, t.first as u64)
}

// Earliest and latest date, and the steps of a kind that counts days.
fn put_rest(out: &mut [u8], kind: Kind, t: Tally) -> usize
    requires in_bounds { 96 ≤ length out.old }
    requires earliest_value { (given (handed (kind_of kind) (bits_of t.earliest)) ≡ true) × (given (handed (kind_of kind) (bits_of t.latest)) ≡ true) }
    ensures value { (result ≡ length (tally_rest (kind_of kind) (tallied_as t))) × (result ≤ 96) }
    ensures out_after { out.new ≡ placed (tally_rest (kind_of kind) (tallied_as t)) out.old }
{
    let latest_at = put_date(out, kind, t.earliest);
    let steps_at = latest_at + put_date(&mut out[latest_at..], kind, t.latest);
    if day_count::counts_days(kind) {
        return steps_at + put_steps(&mut out[steps_at..], t);
    }
    steps_at
}

// The letter of a kind, and its count.
fn put_count(out: &mut [u8], kind: Kind, count: u64) -> usize
    requires { 22 ≤ length out.old }
    ensures value { (result ≡ length (letter (kind_of kind) ∷ spaced (decimal count))) × (result ≤ 22) }
    ensures out_after { out.new ≡ placed (letter (kind_of kind) ∷ spaced (decimal count)) out.old }
{
    let end = 1 + put_number(&mut out[1..], count);
    out[0] = codes::letter(kind);
    end
}

// The line of a kind. Numbers of 64 bits have at most 20 digits and dates at most 15 bytes, so that no line has over 119.
pub(crate) fn put_line(out: &mut [u8], kind: Kind, t: Tally) -> usize
    requires in_bounds { 119 ≤ length out.old }
    requires dated { Dated (kind_of kind) t }
    ensures value { (result ≡ length (tally_line (kind_of kind) (tallied_as t))) × (result ≤ 119) }
    ensures out_after { out.new ≡ placed (tally_line (kind_of kind) (tallied_as t)) out.old }
{
    let rest_at = put_count(out, kind, t.count as u64);
    if t.count == 0 {
        out[rest_at] = LINE_END;
        return rest_at + 1;
    }
    let end = rest_at + put_rest(&mut out[rest_at..], kind, t);
    out[end] = LINE_END;
    end + 1
}
