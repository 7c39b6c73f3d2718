// Whole numbers: the greatest common divisor, the signed difference, the remainder that is never negative and its quotient.
#![tactic(auto)]

ghost use Rattle.std.specs.Prelude.{◌≡◌, ◌<◌, pos, ◌-ℤ◌};
ghost use Rattle.numbers.specs.Divisor.{IsGcd};
ghost use Rattle.numbers.specs.Remainder.{IsRemainder, IsQuotient};

// The greatest common divisor, by Euclid's rule: how often it divides is known only at the end.
pub fn gcd(a: u32, b: u32) -> u32
    ensures { IsGcd a b result }
{
    let mut x = a;
    let mut y = b;
    while y != 0 {
        let t = x % y;
        x = y;
        y = t;
    }
    x
}

// a less b, below zero where b is the greater.
pub fn difference(a: u32, b: u32) -> i64
    ensures { result ≡ pos a -ℤ pos b }
{
    i64::from(a) - i64::from(b)
}

// The remainder from 0 to g less 1, also of a negative number.
pub fn remainder(d: i64, g: u32) -> u32
    requires { 0 < g }
    ensures { IsRemainder d g result }
{
    d.rem_euclid(i64::from(g)) as u32
}

// How often g goes into d, rounded down.
pub fn quotient(d: i64, g: u32) -> i64
    requires { 0 < g }
    ensures { IsQuotient d g result }
{
    d.div_euclid(i64::from(g))
}
