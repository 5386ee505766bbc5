// What stands after the year: a month, a day and perhaps an hour, each behind its separator.
ghost use Rattle.std.specs.Prelude.{◌≡◌, cond, [], ◌∷◌, ◌≤◌, ◌<◌, length};
ghost use Rattle.rules.specs.Spelling.{digit, filled};
ghost use Rattle.digits.specs.Places.{placed};
ghost use Rattle.formatter.specs.Pieces.{separated, hour_value, hour_text};

// The separator before a number, and whether the number has always two digits.
#[derive(Clone, Copy)]
pub(crate) struct Style {
    pub(crate) separator: u8,
    pub(crate) wide: bool,
}

// A number behind its separator: an hour that is shown.
#[derive(Clone, Copy)]
pub(crate) struct Separated {
    pub(crate) style: Style,
    pub(crate) value: u8,
}

// Whether a number is written in two digits.
fn takes_two(style: Style, n: u8) -> bool
    requires { n < 100 }
    ensures { separated style n ≡ cond result (style.separator ∷ filled 2 n) (style.separator ∷ digit n ∷ []) }
{
    if style.wide {
        return true;
    }
    10 <= n
}

// How many bytes a separated number has.
pub(crate) fn separated_length(style: Style, n: u8) -> usize
    requires { n < 100 }
    ensures value { result ≡ length (separated style n) }
    ensures upper_bound { result ≤ 3 }
{
    if takes_two(style, n) {
        return 3;
    }
    2
}

pub(crate) fn put_separated(out: &mut [u8], style: Style, n: u8)
    requires { (n < 100) × (length (separated style n) ≤ length out.old) }
    ensures { out.new ≡ placed (separated style n) out.old }
{
    let separator = style.separator;
    if takes_two(style, n) {
        digits::put_two(&mut out[1..], n);
        out[0] = separator;
    } else {
        out[0] = separator;
        out[1] = b'0' + n;
    }
}

// How many bytes an hour has, none where it is not shown.
pub(crate) fn hour_length(hour: Option<Separated>) -> usize
    requires { hour_value hour < 100 }
    ensures value { result ≡ length (hour_text hour) }
    ensures upper_bound { result ≤ 3 }
{
    match hour {
        Some(shown) => separated_length(shown.style, shown.value),
        None => 0,
    }
}

pub(crate) fn put_hour(out: &mut [u8], hour: Option<Separated>)
    requires { (hour_value hour < 100) × (length (hour_text hour) ≤ length out.old) }
    ensures { out.new ≡ placed (hour_text hour) out.old }
{
    if let Some(shown) = hour {
        put_separated(out, shown.style, shown.value);
    }
}
