// For our own crates: fractions, reduced and compared exactly (document 01, "Words" and "Strength, resolution, projections").
ghost use Rattle.std.specs.Prelude.{◌≡◌, ◌<◌};
ghost use Rattle.exact.specs.Fractions.{gcd, reduced, smaller, smaller_fraction, verdict_of, ShortDenominator};

use std::cmp::Ordering;

#[derive(Clone, Copy, Debug, PartialEq, Eq)]
pub struct Fraction {
    pub num: u64,
    pub den: u64,
}

// How two numbers, words or plans compare. The smaller is better.
#[derive(Clone, Copy, Debug, PartialEq, Eq)]
pub enum Verdict {
    Better,
    Worse,
    Equal,
}

impl From<Ordering> for Verdict {
    ghost from_gives = { λ order verdict. verdict ≡ verdict_of order };

    fn from(order: Ordering) -> Verdict {
        match order {
            Ordering::Less => Verdict::Better,
            Ordering::Greater => Verdict::Worse,
            Ordering::Equal => Verdict::Equal,
        }
    }
}

// The greatest common divisor, by Euclid's loop.
pub fn gcd(a: u64, b: u64) -> u64
    ensures { result ≡ gcd a b }
{
    let mut x = a;
    let mut y = b;
    while y != 0 {
        let rest = x % y;
        x = y;
        y = rest;
    }
    x
}

pub fn reduced(a: u64, b: u64) -> Fraction
    requires { 0 < b }
    ensures { result ≡ reduced a b }
{
    let common = gcd(a, b);
    let num = a / common;
    let den = b / common;
    Fraction { num, den }
}

pub fn smaller(a: u64, b: u64) -> Verdict
    ensures { result ≡ smaller a b }
{
    Verdict::from(a.cmp(&b))
}

// The products across can pass 64 bits. The quotients decide first; what is left of the numerators is below the denominators.
pub fn smaller_fraction(x: Fraction, y: Fraction) -> Verdict
    requires { (ShortDenominator x) × (ShortDenominator y) }
    ensures { result ≡ smaller_fraction x y }
{
    let left = x.num / x.den;
    let right = y.num / y.den;
    if left != right {
        return smaller(left, right);
    }
    smaller(x.num % x.den * y.den, y.num % y.den * x.den)
}
