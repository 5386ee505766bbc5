// A line read: "kind letter, space, way, space, rest". A shape that is none of these, and a way that the kind lacks, is unreadable.
ghost use Rattle.std.specs.Prelude.{◌≡◌, true, ◌≤◌, length};
ghost use Rattle.rules.specs.Listing.{way_of_letter, has_way, read_line};
ghost use Rattle.kinds.specs.Views.{kind_of};
ghost use Rattle.request.specs.Views.{way_of, way_as, request_as, has_way_in, rest_at};

use crate::{Request, Way};
use kinds::Kind;

#[tactic(auto, unfolding(rules::specs::Listing::way_of_letter))]
fn way_of_letter(b: u8) -> Option<Way>
    ensures { way_as result ≡ way_of_letter b }
{
    match b {
        b't' => Some(Way::Text),
        b'b' => Some(Way::Number),
        b'g' => Some(Way::Guess),
        _ => None,
    }
}

fn has_way(kind: Kind, way: Way) -> bool
    ensures { result ≡ has_way (kind_of kind) (way_of way) }
{
    match way {
        Way::Text => true,
        Way::Number => number::reads_numbers(kind),
        Way::Guess => number::has_guess(kind),
    }
}

// The kind and the way that a line names, where that kind has that way.
pub fn read_line(s: &[u8]) -> Option<Request>
    ensures result_value { request_as s.now result ≡ read_line s.now }
    ensures result_value_2 { has_way_in result ≡ true }
    ensures result_in_bounds { rest_at result ≤ length s.now }
{
    if s.len() < 4 {
        return None;
    }
    if s[1] != b' ' {
        return None;
    }
    if s[3] != b' ' {
        return None;
    }
    let kind = codes::kind_of_letter(s[0])?;
    let way = way_of_letter(s[2])?;
    if has_way(kind, way) {
        return Some(Request { kind, way });
    }
    None
}
