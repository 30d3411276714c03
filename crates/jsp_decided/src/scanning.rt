//! Places of rows, each of which is looked at. Nothing here takes memory.
ghost use Rattle.std.specs.Prelude.{◌≡◌, false, map, filter, take, length, None};
ghost use Rattle.std.specs.List.{list_any, last_or};
ghost use Rattle.std.specs.Option.{option_map_or};
ghost use Rattle.jsp_decided.specs.Left.{number_passed};
ghost use Rattle.jsp_table.specs.Places.{living};

use jsp_model::Row;
use jsp_table::Test;

/// Whether a row passes.
pub(crate) fn any_at<P: Test<Row>>(places: &[Option<Row>], test: &P) -> bool
    ensures { result ≡ list_any (P.is_passed test.now) (living places.now) }
{
    any_place(places, test)
}

fn any_place<P: Test<Row>>(places: &[Option<Row>], test: &P) -> bool
    ensures { result ≡ list_any (λ place. option_map_or (P.is_passed test.now) place false) places.now }
{
    places.iter().any(|place| passes_at(place, test))
}

/// How many rows pass.
pub(crate) fn count_at<P: Test<Row>>(places: &[Option<Row>], test: &P) -> usize
    ensures { result ≡ length (filter (P.is_passed test.now) (living places.now)) }
{
    count_places(places, test)
}

fn count_places<P: Test<Row>>(places: &[Option<Row>], test: &P) -> usize
    ensures { result ≡ length (filter (λ place. option_map_or (P.is_passed test.now) place false) places.now) }
{
    places
        .iter()
        .filter(|place| passes_at(*place, test))
        .count()
}

/// The number of the last of the first rows that pass, so many.
pub(crate) fn last_at<P: Test<Row>>(places: &[Option<Row>], test: &P, most: usize) -> Option<u64>
    ensures { result ≡ last_or None (map (λ r. r.number) (take most (filter (P.is_passed test.now) (living places.now)))) }
{
    let mut last = None;
    let mut count = 0;
    'places: for place in places {
        if most <= count {
            return last;
        }
        if let Some(number) = number_at(place, test) {
            last = Some(number);
            count += 1;
        }
    }
    last
}

/// The number of a row that passes.
fn number_at<P: Test<Row>>(place: &Option<Row>, test: &P) -> Option<u64>
    ensures { result ≡ number_passed (P.is_passed test.now) place.now }
{
    match place {
        None => None,
        Some(row) => {
            if test.passes(row) {
                Some(row.number)
            } else {
                None
            }
        }
    }
}

fn passes_at<P: Test<Row>>(place: &Option<Row>, test: &P) -> bool
    ensures { result ≡ option_map_or (P.is_passed test.now) place.now false }
{
    match place {
        None => false,
        Some(row) => test.passes(row),
    }
}
