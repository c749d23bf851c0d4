// What is shown for a span.
ghost use Rattle.std.specs.Prelude.{◌≡◌};
ghost use Rattle.positions.specs.Positions.{shown_for};

use super::Place;
use ast::layout::MISSING;

// The place of its start; none where the span is missing.
pub fn shown(from: u64, to: u64, place: Option<Place>) -> Option<Place>
    ensures { result ≡ shown_for from to place }
{
    if (from == MISSING) & (to == MISSING) {
        return None;
    }
    place
}
