// What a line prints, at the front of a lent buffer.
ghost use Rattle.std.specs.Prelude.{◌≡◌, true, ◌++◌, ◌≤◌, ◌<◌, length};
ghost use Rattle.rules.specs.Refusals.{given};
ghost use Rattle.rules.specs.Kinds.{unpacked, handed};
ghost use Rattle.rules.specs.Spelling.{iso};
ghost use Rattle.rules.specs.Listing.{refused_text, line_end};
ghost use Rattle.kinds.specs.Views.{kind_of, bits_of};
ghost use Rattle.digits.specs.Places.{placed};
ghost use Rattle.listing.specs.Views.{date_line};

use kinds::{Kind, Packed};

// The fixed word between the letter and the number of a refusal.
pub(crate) fn put_refused(out: &mut [u8], front: u8, n: u8) -> usize
    requires { (n < 10) × (40 ≤ length out.old) }
    ensures value { (result ≡ length (refused_text front n ++ line_end)) × (result ≤ 40) }
    ensures out_after { out.new ≡ placed (refused_text front n ++ line_end) out.old }
{
    spans::copy(b" refused ", &mut out[1..]);
    out[0] = front;
    out[10] = b'0' + n;
    out[11] = crate::LINE_END;
    12
}

// The ISO text of a date of the kind. It is never refused: the date is one of the kind, and no text has over 15 bytes.
fn put_iso(out: &mut [u8], kind: Kind, date: Packed) -> usize
    requires { (15 ≤ length out.old) × (given (handed (kind_of kind) (bits_of date)) ≡ true) }
    ensures value { (result ≡ length (iso (kind_of kind) (unpacked (bits_of date)))) × (result ≤ 15) }
    ensures out_after { out.new ≡ placed (iso (kind_of kind) (unpacked (bits_of date))) out.old }
{
    formatter::iso_8601(kind, date, out).unwrap()
}

// Letter, dotted text and ISO text of a date of the kind.
pub(crate) fn put_date(out: &mut [u8], kind: Kind, date: Packed) -> usize
    requires { (40 ≤ length out.old) × (given (handed (kind_of kind) (bits_of date)) ≡ true) }
    ensures value { (result ≡ length (date_line (kind_of kind) (unpacked (bits_of date)))) × (result ≤ 40) }
    ensures out_after { out.new ≡ placed (date_line (kind_of kind) (unpacked (bits_of date))) out.old }
{
    out[0] = codes::letter(kind);
    out[1] = b' ';
    let space = 2 + formatter::put_dotted(&mut out[2..], kind, date);
    out[space] = b' ';
    let iso_at = space + 1;
    let end = iso_at + put_iso(&mut out[iso_at..], kind, date);
    out[end] = crate::LINE_END;
    end + 1
}
