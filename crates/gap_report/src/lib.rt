// The gap report of a book of either version: a line for each kind, from one check of the book and one walk for each kind; and its figures
// as numbers.
#![tactic(auto)]

ghost use Rattle.std.specs.Prelude.{◌≡◌, ◌++◌, ◌≤◌, length};
ghost use Rattle.rules.specs.Words.{bytes};
ghost use Rattle.rules.specs.Refusals.{Gives, Refused, RefusedAt};
ghost use Rattle.rules.specs.Spelling.{decimal, put_answer, put_buffer};
ghost use Rattle.rules.specs.Book.{check};
ghost use Rattle.requests.specs.Both.{both};
ghost use Rattle.requests.specs.GapReport.{spaced, kind_line, report_text, report, printed};
ghost use Rattle.digits.specs.Places.{placed};
ghost use Rattle.kinds.specs.Views.{kind_of};
ghost use Rattle.gap_report.specs.Walk.{records_in, of_book, two_lines};
ghost use Rattle.gap_report.specs.Figures.{figures, figures_answer, figures_over};
ghost use Rattle.refusals.specs.Answers.{refusal_as};
ghost use Rattle.gap_report.specs.Answers.{reported_as};

use book_versions::any;
use kinds::Kind;
use refusals::Refusal;

mod lines;
mod numbers;
mod tally;

// How many numbers the figures are.
const FIGURES: usize = 36;

// The line of a kind, of a book that was checked and has n records.
fn put_kind(b: &[u8], n: usize, out: &mut [u8], kind: Kind) -> usize
    requires b_value { check (both b.now) b.now ≡ Gives n }
    requires in_bounds { 119 ≤ length out.old }
    ensures value { (result ≡ length (kind_line (kind_of kind) (of_book (kind_of kind) b.now))) × (result ≤ 119) }
    ensures out_after { out.new ≡ placed (kind_line (kind_of kind) (of_book (kind_of kind) b.now)) out.old }
{
    lines::put_line(out, kind, tally::walk(b, n, kind))
}

// The lines of two kinds.
fn put_two(b: &[u8], n: usize, out: &mut [u8], first: Kind, second: Kind) -> usize
    requires b_value { check (both b.now) b.now ≡ Gives n }
    requires in_bounds { 238 ≤ length out.old }
    ensures value { (result ≡ length (two_lines (kind_of first) (kind_of second) b.now)) × (result ≤ 238) }
    ensures out_after { out.new ≡ placed (two_lines (kind_of first) (kind_of second) b.now) out.old }
{
    let at = put_kind(b, n, out, first);
    at + put_kind(b, n, &mut out[at..], second)
}

// The whole report of a book that was checked and has n records, in a buffer with room for six lines, each of at most 119 bytes.
fn build(b: &[u8], n: usize, out: &mut [u8]) -> usize
    requires b_value { check (both b.now) b.now ≡ Gives n }
    requires in_bounds { 714 ≤ length out.old }
    ensures value { (result ≡ length (report_text (both b.now) (records_in b.now))) × (result ≤ 714) }
    ensures out_after { out.new ≡ placed (report_text (both b.now) (records_in b.now)) out.old }
{
    let hour_at = put_two(b, n, out, Kind::Raw, Kind::Date);
    let eu5_at = hour_at + put_two(b, n, &mut out[hour_at..], Kind::Hour, Kind::Uniform);
    eu5_at + put_two(b, n, &mut out[eu5_at..], Kind::Eu5, Kind::Vic3)
}

// Where there is room for it: it is built in a room of its own, and copied.
fn put_report(b: &[u8], n: usize, out: &mut [u8]) -> Result<usize, Refusal>
    requires { check (both b.now) b.now ≡ Gives n }
    ensures result_value { reported_as result ≡ put_answer (Gives (report_text (both b.now) (records_in b.now))) out.old }
    ensures out_after { out.new ≡ put_buffer (Gives (report_text (both b.now) (records_in b.now))) out.old }
{
    let mut room = [0u8; 714];
    let length = build(b, n, &mut room);
    if out.len() < length {
        return Err(Refusal::BufferShort);
    }
    spans::copy(&room[..length], out);
    Ok(length)
}

// The report of a book of either version, at the front of a buffer; nothing where the book is refused or the buffer is shorter.
pub fn report(b: &[u8], out: &mut [u8]) -> Result<usize, Refusal>
    ensures result_value { reported_as result ≡ put_answer (report b.now) out.old }
    ensures out_after { out.new ≡ put_buffer (report b.now) out.old }
{
    let n = any::check(b)?;
    put_report(b, n, out)
}

// Its figures, in the first of the numbers lent; nothing where the book is refused or fewer are lent than there are.
pub fn figures(b: &[u8], out: &mut [i64]) -> Result<usize, Refusal>
    ensures result_value { reported_as result ≡ figures_answer (figures b.now) out.old }
    ensures out_after { out.new ≡ figures_over (figures b.now) out.old }
{
    let n = any::check(b)?;
    if out.len() < FIGURES {
        return Err(Refusal::BufferShort);
    }
    numbers::put_all(b, n, out);
    Ok(FIGURES)
}

// ---- what the program prints

// The fixed word and the number of a refusal.
fn put_refused(out: &mut [u8], n: u8) -> usize
    requires { 28 ≤ length out.old }
    ensures value { (result ≡ length (bytes "refused" ++ spaced (decimal n))) × (result ≤ 28) }
    ensures out_after { out.new ≡ placed (bytes "refused" ++ spaced (decimal n)) out.old }
{
    spans::copy(b"refused", out);
    7 + lines::put_number(&mut out[7..], n as u64)
}

fn print_refused(out: &mut [u8], n: u8) -> usize
    requires { 50 ≤ length out.old }
    ensures value { (result ≡ length (printed (Refused n))) × (result ≤ 50) }
    ensures out_after { out.new ≡ placed (printed (Refused n)) out.old }
{
    let end = put_refused(out, n);
    out[end] = lines::LINE_END;
    end + 1
}

fn print_refused_at(out: &mut [u8], n: u8, place: usize) -> usize
    requires { 50 ≤ length out.old }
    ensures value { (result ≡ length (printed (RefusedAt n place))) × (result ≤ 50) }
    ensures out_after { out.new ≡ placed (printed (RefusedAt n place)) out.old }
{
    let at = put_refused(out, n);
    let end = at + lines::put_number(&mut out[at..], place as u64);
    out[end] = lines::LINE_END;
    end + 1
}

fn print_refusal(out: &mut [u8], refusal: Refusal) -> usize
    requires { 50 ≤ length out.old }
    ensures value { (result ≡ length (printed (refusal_as refusal))) × (result ≤ 50) }
    ensures out_after { out.new ≡ placed (printed (refusal_as refusal)) out.old }
{
    let n = u8::from(refusal);
    match refusal {
        Refusal::BadRecord(place) | Refusal::FieldOrMark(place) => print_refused_at(out, n, place),
        _ => print_refused(out, n),
    }
}

// What `gaps` prints of whatever the buffer holds, in a buffer with room for six lines, each of at most 119 bytes.
pub fn print(b: &[u8], out: &mut [u8]) -> usize
    requires { 714 ≤ length out.old }
    ensures value { (result ≡ length (printed (report b.now))) × (result ≤ 714) }
    ensures out_after { out.new ≡ placed (printed (report b.now)) out.old }
{
    match any::check(b) {
        Ok(n) => build(b, n, out),
        Err(refusal) => print_refusal(out, refusal),
    }
}
