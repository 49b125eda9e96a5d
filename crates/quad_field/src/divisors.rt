//! The greatest common divisor of the parts of a list of K-integers, and lists with it taken out.

ghost use Rattle.std.specs.Prelude.{◌≡◌, ◌<◌, ℤ, ℕ, pos, ◌*ℤ◌, ◌≤ℤ◌, ◌<ℤ◌, All, map, unsigned_abs};
ghost use Prim.Native.Nat.{◌∣◌};
ghost use Rattle.std.specs.Int.{IsGcd};
ghost use Rattle.quad_field.specs.Content.{DividesAll, IsCancelled, IsCommonDivisor, IsPrimitive};
ghost use Rattle.quad_field.specs.Quads.{scaled, IsZero};

use super::Quad;

/// The greatest number of 64 bits.
const MAX_64: u128 = u64::MAX as u128;

/// The greatest signed number of 64 bits.
const MAX_SIGNED_64: i128 = i64::MAX as i128;

/// The least signed number of 64 bits.
const MIN_64: i128 = i64::MIN as i128;

/// The greatest common divisor of all parts of the list, 0 where all of them are 0.
pub fn content(list: &[Quad]) -> u128
    ensures divides { DividesAll result list.now }
    ensures greatest { (k : ℕ) → DividesAll k list.now → k ∣ result }
{
    let mut g: u128 = 0;
    for x in list {
        if g == 1 {
            return 1;
        }
        let parts = gcd(x.a.unsigned_abs(), x.b.unsigned_abs());
        g = gcd(g, parts);
    }
    g
}

/// The greatest common divisor, by Euclid's loop, in 64 bits as soon as both numbers fit.
fn gcd(a: u128, b: u128) -> u128
    ensures { IsGcd a b result }
{
    let mut x = a;
    let mut y = b;
    while y != 0 {
        if x <= MAX_64 && y <= MAX_64 {
            return u128::from(gcd_64(x as u64, y as u64));
        }
        let rest = x % y;
        x = y;
        y = rest;
    }
    x
}

/// The same for numbers of 64 bits.
fn gcd_64(a: u64, b: u64) -> u64
    ensures { IsGcd a b result }
{
    let mut x = a;
    let mut y = b;
    while y != 0 {
        let rest = x % y;
        x = y;
        y = rest;
    }
    x
}

/// Takes the greatest common divisor of all parts out of the numbers. Where all of them are zero they stay as they are.
pub fn primitive_part(numbers: &mut [Quad])
    ensures taken_out { (g : ℕ) × (0 < g) × (numbers.old ≡ map (scaled (pos g)) numbers.new) }
    ensures primitive { ¬ (All IsZero numbers.old) → IsPrimitive numbers.new }
{
    let g = content(numbers);
    if g > 0 {
        divide_all(numbers, g);
    }
}

/// Divides the numbers and their denominator by all that they have in common: the values stay.
pub fn reduce(nums: &mut [Quad], den: &mut i128)
    requires positive { pos 0 <ℤ den.old }
    ensures positive { pos 0 <ℤ den.new }
    ensures same { IsCancelled nums.old den.old nums.new den.new }
    ensures reduced { (k : ℕ) → DividesAll k nums.new → k ∣ unsigned_abs den.new → k ≡ 1 }
{
    let g = common_divisor(nums, *den);
    divide_all(nums, g);
    *den = quotient(*den, g);
}

/// The greatest common divisor of den and all parts of the list.
fn common_divisor(nums: &[Quad], den: i128) -> u128
    requires { pos 0 <ℤ den }
    ensures { IsCommonDivisor nums.now den result }
{
    gcd(den.unsigned_abs(), content(nums))
}

/// Divides each number by g.
fn divide_all(nums: &mut [Quad], g: u128)
    requires positive { 0 < g }
    requires divides { DividesAll g nums.old }
    ensures { nums.old ≡ map (scaled (pos g)) nums.new }
{
    if g == 1 {
        return;
    }
    for x in nums.iter_mut() {
        *x = Quad {
            a: quotient(x.a, g),
            b: quotient(x.b, g),
        };
    }
}

/// n / g, where g divides n: in 64 bits where both fit.
#[inline]
fn quotient(n: i128, g: u128) -> i128
    requires positive { 0 < g }
    requires divides { g ∣ unsigned_abs n }
    ensures { n ≡ result *ℤ pos g }
{
    if MIN_64 <= n && n <= MAX_SIGNED_64 && g <= MAX_SIGNED_64 as u128 {
        return i128::from(quotient_64(n as i64, g as i64));
    }
    wide_quotient(n, g)
}

/// The same in 64 bits.
#[inline]
fn quotient_64(n: i64, g: i64) -> i64
    requires positive { pos 0 <ℤ g }
    requires divides { unsigned_abs g ∣ unsigned_abs n }
    ensures { n ≡ result *ℤ g }
{
    n / g
}

/// The same where n or g doesn't fit in 64 bits.
#[inline(never)]
fn wide_quotient(n: i128, g: u128) -> i128
    requires positive { 0 < g }
    requires divides { g ∣ unsigned_abs n }
    ensures { n ≡ result *ℤ pos g }
{
    if g <= i128::MAX as u128 {
        n / (g as i128)
    } else if n == 0 {
        0
    } else {
        -1
    }
}
