// The half-byte field under other labels: label 0 is 0, and label i + 1 is α^i. So its product adds labels, its sum is no xor, and
// generic code that takes a sum for an xor goes wrong over it.
#![tactic(auto)]

ghost use Rattle.std.specs.Prelude.{◌≡◌, ◌+◌, ◌-◌, ◌%◌, ◌<◌, bit_xor, refl};
ghost use Rattle.field.specs.Systems.{sum_of, product_of, opposite_of, partner_of};
ghost use Rattle.relabelled.specs.Labels.{label_system, value_of, label_of};

use field::table::entry;
use field::{Field, NumberSystem};

/// The half-byte field by its labels.
#[derive(Clone, Copy)]
pub struct RelabelledField;

// The symbol that label 8 i + j stands for, at row i and place j.
const VALUES: [[u8; 8]; 2] = [[0, 1, 2, 4, 8, 3, 6, 12], [11, 5, 10, 7, 14, 15, 13, 9]];

// The label of symbol 8 i + j, at row i and place j.
const LABELS: [[u8; 8]; 2] = [[0, 1, 2, 5, 3, 9, 6, 11], [4, 15, 10, 8, 7, 14, 12, 13]];

// The symbol that a label stands for.
fn value_of(label: u8) -> u8
    requires { label < 16 }
    ensures { result ≡ value_of label }
{
    entry(&VALUES, label)
}

// The label of a symbol.
fn label_of(value: u8) -> u8
    requires { value < 16 }
    ensures { result ≡ label_of value }
{
    entry(&LABELS, value)
}

// Sums go by the symbols that the labels stand for, and products add the exponents modulo 15.
impl NumberSystem for RelabelledField {
    const Q: u16 = 16;

    const PER_BYTE: usize = 2;

    const ALPHA: u8 = 2;

    ghost system = { label_system };

    ghost Q = { label_system.order };

    ghost PER_BYTE = { label_system.per };

    ghost ALPHA = { label_system.root.code };

    fn add(a: u8, b: u8) -> u8
        ensures sum { result ≡ sum_of label_system a b }
        ensures xor { result ≡ label_of (bit_xor (value_of (a % 16)) (value_of (b % 16))) }
    {
        label_of(value_of(a % 16) ^ value_of(b % 16))
    }

    fn mul(a: u8, b: u8) -> u8
        ensures product { result ≡ product_of label_system a b }
        ensures labels { 0 < a % 16 → 0 < b % 16 → result ≡ (a % 16 + b % 16 - 2) % 15 + 1 }
    {
        match (a % 16, b % 16) {
            (0, _) | (_, 0) => 0,
            (a, b) => (a + b - 2) % 15 + 1,
        }
    }

    fn neg(a: u8) -> u8
        ensures opposite { result ≡ opposite_of label_system a }
        ensures same { result ≡ a % 16 }
    {
        a % 16 // each symbol is its own opposite
    }

    ghost order_is = { refl };

    ghost per_is = { refl };

    ghost root_is = { refl };
}

// Inverses turn the exponent round.
impl Field for RelabelledField {
    fn inv(a: u8) -> u8
        ensures partner { result ≡ partner_of label_system a }
        ensures labels { 0 < a % 16 → result ≡ (16 - a % 16) % 15 + 1 }
    {
        match a % 16 {
            0 => 0,
            a => (16 - a) % 15 + 1,
        }
    }
}

#[cfg(test)]
mod tests {
    use super::*;
    use field::{power, sub};

    // 1 and α are labelled 1 and 2, and 1 + α is α^4.
    #[test]
    fn a_sum_is_no_xor(rt: HostRuntime) {
        assert_eq!(rt; RelabelledField::add(1, 2), 5);
        assert_eq!(rt; RelabelledField::add(7, 7), 0);
        assert_eq!(rt; RelabelledField::add(0, 11), 11);
    }

    #[test]
    fn products_add_exponents(rt: HostRuntime) {
        assert_eq!(rt; RelabelledField::mul(2, 2), 3);
        assert_eq!(rt; RelabelledField::mul(15, 15), 14);
        assert_eq!(rt; RelabelledField::mul(0, 9), 0);
        assert_eq!(rt; RelabelledField::mul(18, 19), 4);
    }

    #[test]
    fn inverses(rt: HostRuntime) {
        assert_eq!(rt; RelabelledField::inv(0), 0);
        for x in 1..16u8 {
            assert_eq!(rt; RelabelledField::mul(x, RelabelledField::inv(x)), 1);
        }
    }

    #[test]
    fn generic_code(rt: HostRuntime) {
        assert_eq!(rt; power::<RelabelledField>(2, 14), 15);
        assert_eq!(rt; power::<RelabelledField>(2, 15), 1);
        assert_eq!(rt; sub::<RelabelledField>(5, 2), 1);
    }
}
