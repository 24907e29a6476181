// The 256 places changed: one put in, one taken out.
ghost use Rattle.std.specs.Prelude.{◌≡◌, ◌+◌, ◌*◌, ◌≤◌, ◌<◌, length};
ghost use Rattle.loans.specs.Moves.{pasted, put_in, taken_out};

use loans::layout::PLACE_LENGTH;

// Writes one place.
fn put(places: &mut [u8], i: usize, place: &[u8; PLACE_LENGTH])
    requires { (length places.old ≡ 12288) × (i < 256) }
    ensures { places.new ≡ pasted (48 * i) place.now places.old }
{
    let start = PLACE_LENGTH * i;
    places[start..start + PLACE_LENGTH].copy_from_slice(place);
}

// Puts a place in at a number. The used ones from there on move one place on.
pub fn insert(places: &mut [u8], i: usize, used: usize, place: &[u8; PLACE_LENGTH])
    requires { (length places.old ≡ 12288) × (i ≤ used) × (used < 256) }
    ensures { places.new ≡ put_in (48 * i) (48 * used) place.now places.old }
{
    let start = PLACE_LENGTH * i;
    places.copy_within(start..PLACE_LENGTH * used, start + PLACE_LENGTH);
    put(places, i, place);
}

// Takes a place out. The used ones behind it move one place back, and the last one is free then.
pub fn remove(places: &mut [u8], i: usize, used: usize)
    requires { (length places.old ≡ 12288) × (i < used) × (used ≤ 256) }
    ensures { places.new ≡ taken_out (48 * i) 48 (48 * used) places.old }
{
    let start = PLACE_LENGTH * i;
    places.copy_within(start + PLACE_LENGTH..PLACE_LENGTH * used, start);
    put(places, used - 1, &[0; PLACE_LENGTH]);
}
