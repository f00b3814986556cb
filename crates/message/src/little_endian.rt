// Little-endian numbers in bytes. The trait is not named outside this crate: what it asks is asked inside alone.
ghost use Rattle.std.specs.Prelude.{ℕ, ◌≡◌, ◌+◌, ◌≤◌, length, eqb, bit_or, bit_xor, refl};
ghost use Rattle.message.specs.Numbers.{number_at, put, bytes_for};

use std::ops::{BitOr, BitXor};

// A number that stands in WIDTH bytes, lowest byte first. Its operators and its default are those of the number.
pub trait LittleEndian: Copy + Default + Eq + BitOr<Output = Self> + BitXor<Output = Self> {
    ghost WIDTH: { ℕ };

    // The number that a value is.
    ghost value: { Self → ℕ };

    const WIDTH: usize;

    // The number in the bytes from place `at` on.
    fn read_at(s: &[u8], at: usize) -> Self
        requires { at + WIDTH ≤ length s.now }
        ensures { value result ≡ number_at WIDTH s.now at };

    // The number, written from place `at` on.
    fn write_at(self, out: &mut [u8], at: usize)
        requires { at + WIDTH ≤ length out.old }
        ensures { out.new ≡ put out.old at (bytes_for WIDTH (value self)) };

    ghost default_is_zero: { (x : Self) → Self.is_default x → value x ≡ 0 };

    ghost eq_is: { (x y : Self) → Self.eq x y ≡ eqb (value x) (value y) };

    ghost can_or: { (x y : Self) → Self.can_bitor x y };

    ghost or_is: { (x y z : Self) → Self.bitor_gives x y z → value z ≡ bit_or (value x) (value y) };

    ghost can_xor: { (x y : Self) → Self.can_bitxor x y };

    ghost xor_is: { (x y z : Self) → Self.bitxor_gives x y z → value z ≡ bit_xor (value x) (value y) };
}

impl LittleEndian for u16 {
    ghost WIDTH = { 2 };

    ghost value = { λ x. x };

    ghost default_is_zero = { λ x e. e };

    ghost eq_is = { λ x y. refl };

    ghost can_or = { λ x y. tt };

    ghost or_is = { λ x y z e. e };

    ghost can_xor = { λ x y. tt };

    ghost xor_is = { λ x y z e. e };

    const WIDTH: usize = 2;

    fn read_at(s: &[u8], at: usize) -> u16 {
        u16::from_le_bytes([s[at], s[at + 1]])
    }

    fn write_at(self, out: &mut [u8], at: usize) {
        out[at..at + 2].copy_from_slice(&self.to_le_bytes());
    }
}

impl LittleEndian for u32 {
    ghost WIDTH = { 4 };

    ghost value = { λ x. x };

    ghost default_is_zero = { λ x e. e };

    ghost eq_is = { λ x y. refl };

    ghost can_or = { λ x y. tt };

    ghost or_is = { λ x y z e. e };

    ghost can_xor = { λ x y. tt };

    ghost xor_is = { λ x y z e. e };

    const WIDTH: usize = 4;

    fn read_at(s: &[u8], at: usize) -> u32 {
        u32::from_le_bytes([s[at], s[at + 1], s[at + 2], s[at + 3]])
    }

    fn write_at(self, out: &mut [u8], at: usize) {
        out[at..at + 4].copy_from_slice(&self.to_le_bytes());
    }
}

impl LittleEndian for u64 {
    ghost WIDTH = { 8 };

    ghost value = { λ x. x };

    ghost default_is_zero = { λ x e. e };

    ghost eq_is = { λ x y. refl };

    ghost can_or = { λ x y. tt };

    ghost or_is = { λ x y z e. e };

    ghost can_xor = { λ x y. tt };

    ghost xor_is = { λ x y z e. e };

    const WIDTH: usize = 8;

    fn read_at(s: &[u8], at: usize) -> u64 {
        u64::from_le_bytes([
            s[at],
            s[at + 1],
            s[at + 2],
            s[at + 3],
            s[at + 4],
            s[at + 5],
            s[at + 6],
            s[at + 7],
        ])
    }

    fn write_at(self, out: &mut [u8], at: usize) {
        out[at..at + 8].copy_from_slice(&self.to_le_bytes());
    }
}
