// Number systems and fields: the arithmetic of the symbols that the codes are made of. A number system is known by one ghost
// record that holds its operations together with the laws they keep; generic code rests on these laws and on nothing else. The
// byte field and the half-byte field are given here.
#![tactic(auto)]

ghost use Rattle.std.specs.Prelude.{◌≡◌, ℕ};
ghost use Rattle.field.specs.Systems.{System, sum_of, product_of, opposite_of, partner_of, difference_of, power_of};

pub mod byte;
pub mod half_byte;
pub mod table;

/// A number system: symbols 0 to q - 1 with a sum, a product, an opposite and a root. Every call is total: a code of q or more
/// counts as its remainder modulo q.
pub trait NumberSystem {
    /// q, the number of symbols
    const Q: u16;

    /// m, the number of symbols in a byte: q to the m is 256
    const PER_BYTE: usize;

    /// α, whose powers are all the symbols but 0
    const ALPHA: u8;

    /// the operations and their laws
    ghost system: { System };

    // The constants, as contracts name them.

    /// q
    ghost Q: { ℕ };

    /// m
    ghost PER_BYTE: { ℕ };

    /// the code of α
    ghost ALPHA: { ℕ };

    /// The number of symbols.
    fn order() -> u16
        ensures { result ≡ system.order }
    {
        Self::Q
    }

    /// The number of symbols in a byte.
    fn symbols_per_byte() -> usize
        ensures { result ≡ system.per }
    {
        Self::PER_BYTE
    }

    /// The symbol whose powers are all the symbols but 0.
    fn root() -> u8
        ensures { result ≡ system.root.code }
    {
        Self::ALPHA
    }

    fn add(a: u8, b: u8) -> u8
        ensures { result ≡ sum_of system a b };

    fn mul(a: u8, b: u8) -> u8
        ensures { result ≡ product_of system a b };

    fn neg(a: u8) -> u8
        ensures { result ≡ opposite_of system a };

    // The constants are those of the system.

    ghost order_is: { Q ≡ system.order };

    ghost per_is: { PER_BYTE ≡ system.per };

    ghost root_is: { ALPHA ≡ system.root.code };
}

/// A field: a number system that can also divide.
pub trait Field: NumberSystem {
    /// The symbol whose product with `a` is 1, and 0 for 0.
    fn inv(a: u8) -> u8
        ensures { result ≡ partner_of Self.NumberSystem.system a };
}

/// `a` less `b`.
pub fn sub<F: NumberSystem>(a: u8, b: u8) -> u8
    ensures { result ≡ difference_of F.NumberSystem.system a b }
{
    F::add(a, F::neg(b))
}

/// `x` to the power `n`.
pub fn power<F: NumberSystem>(x: u8, n: usize) -> u8
    ensures { result ≡ power_of F.NumberSystem.system x n }
{
    let mut r = 1;
    for _k in 0..n {
        r = F::mul(r, x);
    }
    r
}
