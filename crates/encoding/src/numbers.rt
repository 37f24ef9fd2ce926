// Numbers in bytes, and entries: which of them fit their 3 bytes, and two's complement. 2^24 and 2^23 stand here and nowhere else.
ghost use Rattle.std.specs.Prelude.{◌≡◌, true, ◌*◌, ◌^◌, ◌≤◌, ◌<◌, length};
ghost use Rattle.encoding.specs.Bytes.{number_in, entry_bytes, fits_signed, from_complement};
ghost use Rattle.encoding.specs.Bytes as Bytes;

// How many bytes an entry takes.
pub const ENTRY_BYTES: usize = 3;

// inner: the number in bytes, of which there are at most four.
pub fn number_in(bytes: &[u8]) -> u32
    requires { length bytes.now ≤ 4 }
    ensures value { result ≡ number_in bytes.now }
    ensures upper_bound { result < 2 ^ (8 * length bytes.now) }
{
    let mut number: u32 = 0;
    for byte in bytes {
        number = number * 256 + *byte as u32;
    }
    number
}

// inner: whether a number without sign fits an entry's bytes. A shift would be no plainer.
pub fn fits(v: u32) -> bool
    ensures { result ≡ Bytes.fits entry_bytes v }
{
    v < 16777216
}

// inner: whether a signed number does. A function of its own: one for both would take the two bounds, which are all there is.
pub fn fits_signed(v: i32) -> bool
    ensures { result ≡ fits_signed entry_bytes v }
{
    -8388608 <= v && v < 8388608
}

// inner: a signed number in two's complement.
pub fn complement(v: i32) -> u32
    requires { fits_signed entry_bytes v ≡ true }
    ensures { result ≡ Bytes.complement entry_bytes v }
{
    v.cast_unsigned() % 16777216
}

// inner: what an entry's bytes in two's complement stand for. Shifts up and down of 32 bits would be no plainer.
pub fn from_complement(n: u32) -> i32
    requires { n < 2 ^ (8 * entry_bytes) }
    ensures { result ≡ from_complement entry_bytes n }
{
    if n < 8388608 {
        return n as i32;
    }
    n as i32 - 16777216
}
