// The figures of the report as numbers, six for each kind, each kind's from the walk for it.
ghost use Rattle.std.specs.Prelude.{◌≡◌, ◌++◌, ◌+◌, ◌≤◌, length, drop};
ghost use Rattle.std.proofs.lemmas.List.Edits.{sets};
ghost use Rattle.rules.specs.Refusals.{Gives};
ghost use Rattle.rules.specs.Kinds.{unpacked};
ghost use Rattle.rules.specs.Book.{check};
ghost use Rattle.requests.specs.Both.{both};
ghost use Rattle.kinds.specs.Views.{kind_of, bits_of};
ghost use Rattle.gap_report.specs.Walk.{records_in, of_book};
ghost use Rattle.gap_report.specs.Figures.{date_figure, kind_figures, figures_of, figure_count, tally_figures};
ghost use Rattle.gap_report.specs.Views.{tallied_as};

use crate::tally;
use crate::tally::Tally;
use kinds::{Kind, Packed};

// A date as one number without its mark, which is the number's remainder by 4.
fn date_figure(date: Packed) -> i64
    ensures { result ≡ date_figure (unpacked (bits_of date)) }
{
    i64::from(codes::date_number(date) / 4 * 4)
}

// The six numbers of a kind: count, earliest, latest, and step, place, sum of a kind that counts days.
fn figures_of(kind: Kind, t: Tally) -> [i64; 6]
    ensures { result ≡ tally_figures (kind_of kind) (tallied_as t) }
{
    if t.count == 0 {
        return [0; 6];
    }
    let count = i64::from(t.count);
    let earliest = date_figure(t.earliest);
    let latest = date_figure(t.latest);
    if day_count::counts_days(kind) {
        let sum = i64::from(t.last) - i64::from(t.first);
        return [
            count,
            earliest,
            latest,
            i64::from(t.step),
            i64::from(t.place),
            sum,
        ];
    }
    [count, earliest, latest, 0, 0, 0]
}

fn put_kind(b: &[u8], n: usize, out: &mut [i64], at: usize, kind: Kind)
    requires b_value { check (both b.now) b.now ≡ Gives n }
    requires at_in_bounds { at + 6 ≤ length out.old }
    ensures { out.new ≡ sets out.old at (kind_figures (kind_of kind) (of_book (kind_of kind) b.now)) }
{
    out[at..at + 6].copy_from_slice(&figures_of(kind, tally::walk(b, n, kind)));
}

// The figures of a book that was checked and has n records.
pub(crate) fn put_all(b: &[u8], n: usize, out: &mut [i64])
    requires b_value { check (both b.now) b.now ≡ Gives n }
    requires figure_count_in_bounds { figure_count ≤ length out.old }
    ensures { out.new ≡ figures_of (both b.now) (records_in b.now) ++ drop figure_count out.old }
{
    put_kind(b, n, out, 0, Kind::Raw);
    put_kind(b, n, out, 6, Kind::Date);
    put_kind(b, n, out, 12, Kind::Hour);
    put_kind(b, n, out, 18, Kind::Uniform);
    put_kind(b, n, out, 24, Kind::Eu5);
    put_kind(b, n, out, 30, Kind::Vic3);
}
