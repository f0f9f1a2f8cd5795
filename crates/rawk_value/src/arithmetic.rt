//! Arithmetic on numbers of 64 bits: what does not fit is a fault.

ghost use Rattle.std.specs.Prelude.{◌≡◌, ℕ, ◌≤◌, ◌+ℤ◌, ◌-ℤ◌, ◌*ℤ◌, neg_ℤ};
ghost use Rattle.rawk_value.specs.Values.{checked, combined, divided, powered, remainder, inverse_power, is_odd, power};

use crate::fault::Fault;
use crate::operator::Arithmetic;

/// The sum (POSIX awk, Expressions in awk). It is `Overflow` where that does not fit 64 bits.
#[inline]
pub fn add(x: i64, y: i64) -> Result<i64, Fault>
    ensures { result ≡ checked (x +ℤ y) }
{
    x.checked_add(y).ok_or(Fault::Overflow)
}

/// The difference. It is `Overflow` where that does not fit 64 bits.
#[inline]
pub fn sub(x: i64, y: i64) -> Result<i64, Fault>
    ensures { result ≡ checked (x -ℤ y) }
{
    x.checked_sub(y).ok_or(Fault::Overflow)
}

/// The product. It is `Overflow` where that does not fit 64 bits.
#[inline]
pub fn mul(x: i64, y: i64) -> Result<i64, Fault>
    ensures { result ≡ checked (x *ℤ y) }
{
    x.checked_mul(y).ok_or(Fault::Overflow)
}

/// The number with its sign changed. It is `Overflow` for the least number alone.
#[inline]
pub fn neg(x: i64) -> Result<i64, Fault>
    ensures { result ≡ checked (neg_ℤ x) }
{
    x.checked_neg().ok_or(Fault::Overflow)
}

/// The quotient, rounded to no other number (POSIX awk, Expressions in awk, over whole numbers): it is `ZeroDivisor` for a
/// divisor of 0, `Fraction` where a remainder is left, and `Overflow` for the least number by -1.
#[inline]
pub fn div(x: i64, y: i64) -> Result<i64, Fault>
    ensures { result ≡ divided x y }
{
    if y == 0 {
        Err(Fault::ZeroDivisor)
    } else if y == -1 {
        neg(x)
    } else if x % y == 0 {
        Ok(x / y)
    } else {
        Err(Fault::Fraction)
    }
}

/// What is left of a division that rounds toward 0: it has the dividend's sign, as C's `fmod` has (POSIX awk, Expressions in
/// awk). It is `ZeroDivisor` for a divisor of 0.
#[inline]
pub fn rem(x: i64, y: i64) -> Result<i64, Fault>
    ensures { result ≡ remainder x y }
{
    if y == 0 {
        Err(Fault::ZeroDivisor)
    } else if y == -1 {
        Ok(0)
    } else {
        Ok(x % y)
    }
}

/// A number to the power of another (POSIX awk, Expressions in awk): 1 for the power 0, and `Overflow` where the power does
/// not fit 64 bits. To a power below 0, 1 and -1 are exact, 0 is `ZeroDivisor` and another base is `Fraction`.
/// It takes two multiplications for each bit of an exponent below 64, 12 at most.
pub fn pow(x: i64, y: i64) -> Result<i64, Fault>
    ensures { result ≡ powered x y }
{
    let size = y.unsigned_abs();
    if y < 0 {
        inverse(x, size % 2 == 1)
    } else if size < 64 {
        small_power(x, size as u32)
    } else {
        great_power(x, size)
    }
}

// The power of an exponent below 0, which is odd or even.
fn inverse(x: i64, odd: bool) -> Result<i64, Fault>
    ensures { (n : ℕ) → odd ≡ is_odd n → result ≡ inverse_power x n }
{
    match x {
        0 => Err(Fault::ZeroDivisor),
        1 => Ok(1),
        -1 => Ok(if odd { -1 } else { 1 }),
        _ => Err(Fault::Fraction),
    }
}

// By squaring.
fn small_power(x: i64, n: u32) -> Result<i64, Fault>
    ensures { result ≡ checked (power x n) }
{
    x.checked_pow(n).ok_or(Fault::Overflow)
}

// Of 0, 1 and -1 alone a great power fits.
fn great_power(x: i64, n: u64) -> Result<i64, Fault>
    requires { 64 ≤ n }
    ensures { result ≡ checked (power x n) }
{
    let size = x.unsigned_abs();
    if 1 < size {
        Err(Fault::Overflow)
    } else if n % 2 == 1 {
        Ok(x)
    } else {
        Ok(size as i64)
    }
}

/// What an operator makes of two numbers, with the faults of `add`, `sub`, `mul`, `div`, `rem` and `pow`. It takes no memory.
#[inline(always)]
pub fn combine(operator: Arithmetic, x: i64, y: i64) -> Result<i64, Fault>
    ensures { result ≡ combined operator x y }
{
    match operator {
        Arithmetic::Add => add(x, y),
        Arithmetic::Sub => sub(x, y),
        Arithmetic::Mul => mul(x, y),
        Arithmetic::Div => div(x, y),
        Arithmetic::Rem => rem(x, y),
        Arithmetic::Pow => pow(x, y),
    }
}
