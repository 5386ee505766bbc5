// The gap report of a book of either version, as a text and as numbers.
ghost use Rattle.std.specs.Prelude.{◌≡◌};
ghost use Rattle.rules.specs.Spelling.{put_answer, put_buffer};
ghost use Rattle.requests.specs.GapReport.{report};
ghost use Rattle.gap_report.specs.Figures.{figures, figures_answer, figures_over};
ghost use Rattle.pennyquill.specs.Boundary.{crossed};

use crate::{PqAnswer, crossing};

#[unsafe(no_mangle)]
pub extern "C" fn pq_gap_report(book: &[u8], out: &mut [u8]) -> PqAnswer
    ensures value { result ≡ crossed (put_answer (report book.now) out.old) }
    ensures out_after { out.new ≡ put_buffer (report book.now) out.old }
{
    crossing::counted(gap_report::report(book, out))
}

#[unsafe(no_mangle)]
pub extern "C" fn pq_gap_figures(book: &[u8], out: &mut [i64]) -> PqAnswer
    ensures value { result ≡ crossed (figures_answer (figures book.now) out.old) }
    ensures out_after { out.new ≡ figures_over (figures book.now) out.old }
{
    crossing::counted(gap_report::figures(book, out))
}
