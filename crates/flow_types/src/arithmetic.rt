ghost use Rattle.std.specs.Prelude.{◌≡◌, ◌+ℤ◌, ◌-ℤ◌, ◌*ℤ◌};
ghost use Rattle.flow_types.specs.Expressions.{wrap, div, rem};

/// The sum modulo 2^64, as Java adds.
pub fn sum(a: i64, b: i64) -> i64
    ensures { result ≡ wrap (a +ℤ b) }
{
    a.wrapping_add(b)
}

/// The difference modulo 2^64, as Java subtracts.
pub fn difference(a: i64, b: i64) -> i64
    ensures { result ≡ wrap (a -ℤ b) }
{
    a.wrapping_sub(b)
}

/// The product modulo 2^64, as Java multiplies.
pub fn product(a: i64, b: i64) -> i64
    ensures { result ≡ wrap (a *ℤ b) }
{
    a.wrapping_mul(b)
}

/// The quotient toward zero. It is 0 where the divisor is 0, which is this project's own rule; the
/// least Long by -1 is the least Long, as in Java.
pub fn quotient(a: i64, b: i64) -> i64
    ensures { result ≡ div a b }
{
    if b == 0 { 0 } else { a.wrapping_div(b) }
}

/// The remainder, with the sign of the dividend; 0 where the divisor is 0 or -1.
pub fn remainder(a: i64, b: i64) -> i64
    ensures { result ≡ rem a b }
{
    if b == 0 { 0 } else { a.wrapping_rem(b) }
}
