// The half-byte field: 16 symbols, the polynomials of four bits modulo X^4 + X + 1, multiplied by shifting. A code of 16 or more
// counts as its remainder modulo 16.
ghost use Rattle.std.specs.Prelude.{◌≡◌, ◌%◌, ◌<◌, bit_xor, refl};
ghost use Rattle.polynomial.specs.Polynomials.{times_x, half_byte_polynomial, half_byte_product};
ghost use Rattle.field.specs.Systems.{sum_of, product_of, opposite_of, partner_of};
ghost use Rattle.field.specs.PolynomialFields.{half_byte_system};

use super::table::entry;
use super::{Field, NumberSystem};

/// The field whose symbols are the halves of a byte.
#[derive(Clone, Copy)]
pub struct HalfByteField;

// `a` times X.
fn times_x(a: u8) -> u8
    requires { a < 16 }
    ensures shifted { result ≡ times_x 4 half_byte_polynomial a }
    ensures small { result < 16 }
{
    if a < 8 { a * 2 } else { (a * 2) ^ 0b1_0011 }
}

// Sums are xors, and products are sums of shifted factors: one for each bit of the other factor.
impl NumberSystem for HalfByteField {
    const Q: u16 = 16;

    const PER_BYTE: usize = 2;

    const ALPHA: u8 = 2;

    ghost system = { half_byte_system };

    ghost Q = { half_byte_system.order };

    ghost PER_BYTE = { half_byte_system.per };

    ghost ALPHA = { half_byte_system.root.code };

    fn add(a: u8, b: u8) -> u8
        ensures sum { result ≡ sum_of half_byte_system a b }
        ensures xor { result ≡ bit_xor (a % 16) (b % 16) }
    {
        (a % 16) ^ (b % 16)
    }

    fn mul(a: u8, b: u8) -> u8
        ensures product { result ≡ product_of half_byte_system a b }
        ensures polynomial { result ≡ half_byte_product (a % 16) (b % 16) }
    {
        let mut shifted = a % 16;
        let mut left = b % 16;
        let mut r = 0;
        for _i in 0..4u8 {
            if left % 2 == 1 {
                r ^= shifted;
            }
            shifted = times_x(shifted);
            left /= 2;
        }
        r
    }

    fn neg(a: u8) -> u8
        ensures opposite { result ≡ opposite_of half_byte_system a }
        ensures same { result ≡ a % 16 }
    {
        a % 16 // each symbol is its own opposite
    }

    ghost order_is = { refl };

    ghost per_is = { refl };

    ghost root_is = { refl };
}

// The inverses: that of 8 i + j at row i and place j, and 0 for 0.
const INVERSES: [[u8; 8]; 2] = [
    [0x00, 0x01, 0x09, 0x0E, 0x0D, 0x0B, 0x07, 0x06],
    [0x0F, 0x02, 0x0C, 0x05, 0x0A, 0x04, 0x03, 0x08],
];

// Inverses are looked up.
impl Field for HalfByteField {
    fn inv(a: u8) -> u8
        ensures partner { result ≡ partner_of half_byte_system a }
        ensures polynomial { 0 < a % 16 → half_byte_product (a % 16) result ≡ 1 }
    {
        entry(&INVERSES, a % 16)
    }
}
