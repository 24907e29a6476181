// Differing bits, a word of four bytes at a time: the body of a unit is some of them.
ghost use Rattle.std.specs.Prelude.{◌≡◌, ◌≤◌, length};
ghost use Rattle.iscc.specs.Distance.{differing_bits, compared_bits};

// The bits in which two words differ.
fn of_words(x: [u8; 4], y: [u8; 4]) -> u32
    ensures { (result ≡ differing_bits x y) × (result ≤ 32) }
{
    (u32::from_le_bytes(x) ^ u32::from_le_bytes(y)).count_ones()
}

// The differing bits of two bodies, as far as the shorter goes. No body is longer than 40 bytes.
pub(crate) fn differing(a: &[u8], b: &[u8]) -> u16
    requires { length a.now ≤ 40 }
    ensures { (result ≡ differing_bits a.now b.now) × (result ≤ 320) }
{
    let n = a.len().min(b.len());
    let (x, x_rest) = a[..n].as_chunks::<4>();
    let (y, y_rest) = b[..n].as_chunks::<4>();
    let mut d: u32 = 0;
    // Both loops go by index: that of a zip has the states of two iterators in its invariant.
    for i in 0..x.len() {
        d += of_words(x[i], y[i]);
    }
    // Behind the words of a unit's body nothing is left: this is for lengths that no unit has. A byte is a word with zeros behind it.
    for i in 0..x_rest.len() {
        d += of_words([x_rest[i], 0, 0, 0], [y_rest[i], 0, 0, 0]);
    }
    d as u16
}

// The bits compared: those of the shorter body.
pub(crate) fn compared(a: &[u8], b: &[u8]) -> u16
    requires { length a.now ≤ 40 }
    ensures { result ≡ compared_bits a.now b.now }
{
    (a.len().min(b.len()) * 8) as u16
}
