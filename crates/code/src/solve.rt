// The values at different locators whose sums are wanted ones: one locator is eliminated at a time.
ghost use Rattle.std.specs.Prelude.{◌≡◌, length};
ghost use Rattle.code.specs.Codewords.{symbols};
ghost use Rattle.code.specs.Equations.{Distinct};
ghost use Rattle.code.specs.Solving.{total as total_of, Eliminated, Divided, Solved};

use field::{Field, NumberSystem, sub};

// Takes the part of the locator `x` out of the sums after the first.
fn eliminate<F: NumberSystem>(x: u8, first: u8, others: &mut [u8])
    ensures { Eliminated F.NumberSystem.system x first others.old others.new }
{
    let mut before = first;
    for sum in others.iter_mut() {
        let less = sub::<F>(*sum, F::mul(x, before));
        before = *sum;
        *sum = less;
    }
}

// Divides each value by its locator less `x`.
fn divide<F: Field>(x: u8, locators: &[u8], values: &mut [u8])
    requires { length values.old ≡ length locators.now }
    ensures { Divided F.NumberSystem.system x locators.now values.old values.new }
{
    // by index, since a proof keeps no write that is made through a `zip` of `iter_mut`
    for (k, value) in values.iter_mut().enumerate() {
        *value = F::mul(*value, F::inv(sub::<F>(locators[k], x)));
    }
}

// The sum of the values.
fn total<F: NumberSystem>(values: &[u8]) -> u8
    ensures { result ≡ (total_of F.NumberSystem.system (symbols F.NumberSystem.system values.now)).code }
{
    values.iter().fold(0, |r, &v| F::add(r, v))
}

// Puts in the place of the wanted sums the values, one for each locator, that have them.
pub(crate) fn solve<F: Field>(locators: &[u8], sums: &mut [u8])
    requires { (length sums.old ≡ length locators.now) × (Distinct (symbols F.NumberSystem.system locators.now)) }
    ensures { Solved F.NumberSystem.system locators.now sums.old sums.new }
{
    if let Some((&x, rest)) = locators.split_first()
        && let Some((first, others)) = sums.split_first_mut()
    {
        eliminate::<F>(x, *first, others);
        solve::<F>(rest, others);
        divide::<F>(x, rest, others);
        *first = sub::<F>(*first, total::<F>(others));
    }
}
