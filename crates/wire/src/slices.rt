// Reading, comparing and copying slices of bytes.
ghost use Rattle.std.specs.Prelude.{◌≡◌, ◌<◌};
ghost use Rattle.wire.specs.Slices.{byte_at, starts_with, same, part, fits, placed};

// The byte at a place; 0 past the end.
pub fn byte(s: &[u8], at: usize) -> u8
    ensures { result ≡ byte_at s.now at }
{
    s.get(at).copied().unwrap_or(0)
}

// Whether s begins with the bytes of front.
pub fn starts_with(s: &[u8], front: &[u8]) -> bool
    ensures { result ≡ starts_with front.now s.now }
{
    s.starts_with(front)
}

// Whether two slices have the same bytes.
pub fn same(r: &[u8], s: &[u8]) -> bool
    ensures { result ≡ same r.now s.now }
{
    r == s
}

// The `count` bytes from `at` on, where they stand; none, where they do not all lie in s.
pub fn part(s: &[u8], at: usize, count: usize) -> &[u8]
    ensures { result.now ≡ part s.now at count }
{
    s.get(at..)
        .and_then(|rest| rest.get(..count))
        .unwrap_or(&[])
}

// Copies src into dst from `at` on and says true; where it does not fit, dst stays and the answer is false.
pub fn put(dst: &mut [u8], at: usize, src: &[u8]) -> bool
    ensures { (result ≡ fits dst.old at src.now) × (dst.new ≡ placed dst.old at src.now) }
{
    let fits = src.len() <= dst.len() && at <= dst.len() - src.len();
    if fits {
        // A loop and no `copy_from_slice`, which calls memmove: the archive for C calls nothing but memcpy and memset.
        for (i, x) in src.iter().enumerate() {
            dst[at + i] = *x;
        }
    }
    fits
}

// The same for a packet, which nearly every event of a transfer copies. One of full size goes through a local array, so
// that the compiler moves it in a few steps: the array cannot overlap either slice.
pub fn put_packet(dst: &mut [u8], at: usize, src: &[u8])
    ensures { dst.new ≡ placed dst.old at src.now }
{
    match <[u8; 64]>::try_from(src) {
        Ok(held) => put(dst, at, &held),
        Err(_) => put(dst, at, src),
    };
}
