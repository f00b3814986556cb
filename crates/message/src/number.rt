// The number at a place, and the test of a range.
ghost use Rattle.std.specs.Prelude.{◌≡◌, ◌+◌, length, leb};
ghost use Rattle.message.specs.Numbers.{number_in};

use super::little_endian::LittleEndian;

// k places from a on lie below len. The sum a + k could wrap, so it is not formed.
pub(crate) fn fits(a: usize, k: usize, len: usize) -> bool
    ensures { result ≡ leb (a + k) len }
{
    k <= len && a <= len - k
}

// The number at any place, for the layers above: zero where its bytes do not all lie in the slice.
pub fn number_in<T: LittleEndian>(s: &[u8], at: usize) -> T
    ensures { T.value result ≡ number_in T.WIDTH s.now at }
{
    if fits(at, T::WIDTH, s.len()) {
        return T::read_at(s, at);
    }
    T::default()
}
