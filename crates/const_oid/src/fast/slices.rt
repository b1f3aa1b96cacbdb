//! The start and the end of a slice, by `get`: unlike an index, it compiles to no panic.

ghost use Rattle.std.specs.Prelude.{◌≡◌, ◌≤◌, length, take, drop};

/// The first `len` octets.
#[inline(always)]
pub(crate) fn first_octets(octets: &[u8], len: usize) -> &[u8]
    requires { len ≤ length octets.now }
    ensures { result.now ≡ take len octets.now }
{
    octets.get(..len).unwrap_or(&[])
}

/// The octets from an index on.
#[inline(always)]
pub(crate) fn octets_from(octets: &[u8], start: usize) -> &[u8]
    ensures { result.now ≡ drop start octets.now }
{
    octets.get(start..).unwrap_or(&[])
}
