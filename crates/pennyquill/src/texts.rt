// The texts of a date, at the front of a buffer that the caller lends.
ghost use Rattle.std.specs.Prelude.{◌≡◌};
ghost use Rattle.rules.specs.Refusals.{Gives};
ghost use Rattle.rules.specs.Spelling.{dotted, iso, iso_date_alone, exchange, put_answer, put_buffer};
ghost use Rattle.pennyquill.specs.Boundary.{of_date_given, crossed};

use crate::{PqAnswer, crossing};

#[unsafe(no_mangle)]
pub extern "C" fn pq_write_dotted(kind: u32, date: u32, out: &mut [u8]) -> PqAnswer
    ensures value { result ≡ crossed (put_answer (of_date_given kind date (λ k f. Gives (dotted k f))) out.old) }
    ensures out_after { out.new ≡ put_buffer (of_date_given kind date (λ k f. Gives (dotted k f))) out.old }
{
    let Some(kind) = codes::kind_of_code(kind) else {
        return crossing::not_of_kind();
    };
    crossing::counted(formatter::game_fmt(kind, crossing::date_in(date), out))
}

#[unsafe(no_mangle)]
pub extern "C" fn pq_write_iso(kind: u32, date: u32, out: &mut [u8]) -> PqAnswer
    ensures value { result ≡ crossed (put_answer (of_date_given kind date (λ k f. Gives (iso k f))) out.old) }
    ensures out_after { out.new ≡ put_buffer (of_date_given kind date (λ k f. Gives (iso k f))) out.old }
{
    let Some(kind) = codes::kind_of_code(kind) else {
        return crossing::not_of_kind();
    };
    crossing::counted(formatter::iso_8601(kind, crossing::date_in(date), out))
}

#[unsafe(no_mangle)]
pub extern "C" fn pq_write_iso_date(kind: u32, date: u32, out: &mut [u8]) -> PqAnswer
    ensures value { result ≡ crossed (put_answer (of_date_given kind date (λ k f. iso_date_alone k f)) out.old) }
    ensures out_after { out.new ≡ put_buffer (of_date_given kind date (λ k f. iso_date_alone k f)) out.old }
{
    let Some(kind) = codes::kind_of_code(kind) else {
        return crossing::not_of_kind();
    };
    crossing::counted(formatter::date_fmt(kind, crossing::date_in(date), out))
}

#[unsafe(no_mangle)]
pub extern "C" fn pq_write_exchange(kind: u32, date: u32, out: &mut [u8]) -> PqAnswer
    ensures value { result ≡ crossed (put_answer (of_date_given kind date (λ k f. Gives (exchange k f))) out.old) }
    ensures out_after { out.new ≡ put_buffer (of_date_given kind date (λ k f. Gives (exchange k f))) out.old }
{
    let Some(kind) = codes::kind_of_code(kind) else {
        return crossing::not_of_kind();
    };
    crossing::counted(formatter::exchange(kind, crossing::date_in(date), out))
}
