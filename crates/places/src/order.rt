// Whether bytes are 256 places in order, the used ones first, in rising order of their codes; and whether 16 bytes are their counts.
ghost use Rattle.std.specs.Prelude.{◌≡◌, ◌&&◌, [], ◌*◌, ◌≤◌, length, drop};
ghost use Rattle.iscc.specs.Digits.{all_below};
ghost use Rattle.iscc.specs.Lists.{same_bytes};
ghost use Rattle.loans.specs.Place.{places_of, loans_in};
ghost use Rattle.loans.specs.Order.{are_ordered, loans_at};
ghost use Rattle.loans.specs.Counts.{counts_bytes};

use crate::counts;
use crate::place::{self, Used};
use loans::layout::{COUNTS_LENGTH, PLACE_LENGTH, PLACES, PLACES_LENGTH};
use octets::compare;

// How many places, from the first on, are used and in order, and their counts. All are in order exactly if zeros are all that is behind
// these.
fn in_turn(places: &[u8], counts: &mut [u8; COUNTS_LENGTH]) -> usize
    requires { (length places.now ≡ 12288) × (counts.old ≡ counts_bytes []) }
    ensures order { (result ≤ 256) × (all_below 1 (drop (48 * result) places.now) ≡ are_ordered places.now) }
    ensures counts { counts.new ≡ counts_bytes (loans_in (places_of result places.now)) }
{
    let (each, _) = places.as_chunks::<PLACE_LENGTH>();
    let Some(first) = Used::from_bytes(&each[0]) else {
        return 0;
    };
    counts::one_more(counts, first.main_type());
    let mut before = first;
    for i in 1..PLACES {
        let Some(place) = Used::from_bytes(&each[i]) else {
            return i;
        };
        if !place.may_follow(before) {
            return i;
        }
        counts::one_more(counts, place.main_type());
        before = place;
    }
    PLACES
}

// One pass: the used places, in order and counted, then the free ones, all at once. In rising order no code stands twice.
pub fn are_counted(counts: &[u8; COUNTS_LENGTH], places: &[u8]) -> bool
    requires { length places.now ≡ 12288 }
    ensures { result ≡ are_ordered places.now && same_bytes counts.now (counts_bytes (loans_at places.now)) }
{
    let mut counted = [0u8; COUNTS_LENGTH];
    let used = in_turn(places, &mut counted);
    place::all_zero(&places[PLACE_LENGTH * used..PLACES_LENGTH]) && compare::same(counts, &counted)
}
