// Two byte strings: whether they are the same, and which comes first.
ghost use Rattle.std.specs.Prelude.{◌≡◌};
ghost use Rattle.iscc.specs.Lists.{same_bytes};
ghost use Rattle.octets.specs.Representation.{order_as, front_as};

use std::cmp::Ordering;

// Whether two byte strings are the same.
#[tactic(auto, using(crate::proofs::Same::by_eq))]
pub fn same(a: &[u8], b: &[u8]) -> bool
    ensures { result ≡ same_bytes a.now b.now }
{
    a == b
}

// Eight bytes against eight: as numbers, the first byte highest, they stand in the order of their bytes.
fn by_word(x: &[u8; 8], y: &[u8; 8]) -> Ordering
    ensures { result ≡ order_as x.now y.now }
{
    u64::from_be_bytes(*x).cmp(&u64::from_be_bytes(*y))
}

// How one byte string stands to another: byte by byte, and the beginning of a byte string comes before it. Eight bytes go at a time,
// since std's order looks at the last ones of two short strings one by one.
pub fn order_of(a: &[u8], b: &[u8]) -> Ordering
    ensures { result ≡ order_as a.now b.now }
{
    let n = a.len().min(b.len());
    let (x, _) = a[..n].as_chunks::<8>();
    let (y, _) = b[..n].as_chunks::<8>();
    for i in 0..x.len() {
        let order = by_word(&x[i], &y[i]);
        if order != Ordering::Equal {
            return order;
        }
    }
    let done = 8 * x.len();
    a[done..].cmp(&b[done..])
}

// The order by the first four bytes, and Equal where these do not settle it. It is small enough for a loop to take in.
pub fn front_of(a: &[u8], b: &[u8]) -> Ordering
    ensures { result ≡ front_as a.now b.now }
{
    match (a.first_chunk::<4>(), b.first_chunk::<4>()) {
        (Some(x), Some(y)) => u32::from_be_bytes(*x).cmp(&u32::from_be_bytes(*y)),
        _ => Ordering::Equal,
    }
}
