// Adler-32 of a buffer, as RFC 1950 has it.
ghost use Rattle.std.specs.Prelude.{◌<◌};

// A sum of two numbers below 65,521, brought below it again. A remainder, for each byte of a `state`, takes twice as long.
fn reduced(n: u32) -> u32
    requires { n < 131042 }
    ensures { result < 65521 }
{
    if n < 65521 { n } else { n - 65521 }
}

// The checksum of these bytes.
pub fn adler(bytes: &[u8]) -> u32 {
    let mut a: u32 = 1;
    let mut b: u32 = 0;
    for byte in bytes {
        a = reduced(a + u32::from(*byte));
        b = reduced(b + a);
    }
    b * 65536 + a
}
