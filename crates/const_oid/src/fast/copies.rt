//! Octets copied by two copies of constant length, which may overlap.

ghost use Rattle.std.specs.Prelude.{◌≡◌, ◌*◌, ◌≤◌, length};
ghost use Rattle.const_oid.specs.Output.{written_over};

/// Copies octets to the start of `out`, which has room for them.
#[inline(always)]
pub(crate) fn copy_to(octets: &[u8], out: &mut [u8])
    requires { length octets.now ≤ length out.old }
    ensures { out.new ≡ written_over octets.now out.old }
{
    // Up to 64 octets take two loads and stores, and no call of `memcpy`.
    match octets.len() {
        2..=4 => copy_ends::<2>(octets, out),
        5..=8 => copy_ends::<4>(octets, out),
        9..=16 => copy_ends::<8>(octets, out),
        17..=32 => copy_ends::<16>(octets, out),
        33..=64 => copy_ends::<32>(octets, out),
        len => out[..len].copy_from_slice(octets),
    }
}

/// Copies the first octets and the last ones, `SIZE` each, which may overlap. So they are all.
#[inline(always)]
fn copy_ends<const SIZE: usize>(octets: &[u8], out: &mut [u8])
    requires enough { SIZE ≤ length octets.now }
    requires few { length octets.now ≤ 2 * SIZE }
    requires room { length octets.now ≤ length out.old }
    ensures { out.new ≡ written_over octets.now out.old }
{
    // The length of each copy is a constant, so the compiler copies it without a loop or a call.
    let last = octets.len() - SIZE;
    out[..SIZE].copy_from_slice(&octets[..SIZE]);
    out[last..last + SIZE].copy_from_slice(&octets[last..last + SIZE]);
}
