// Whole numbers: magnitude, two's complement, rounding, the square root, long products and sums of courses.
#![tactic(auto)]

ghost use Rattle.std.specs.Prelude.{◌≡◌, ◌+◌, ◌*◌, ◌<◌, ◌^◌, leb, nat_abs};
ghost use Rattle.integers.specs.Floats.{bits_from, float_from};
ghost use Rattle.integers.specs.Root.{IsRoot, root_of};
ghost use Rattle.integers.specs.Round.{nearest_of, HalvesAway};
ghost use Rattle.integers.specs.TwosComplement.{signed_of, unsigned_of};
ghost use Rattle.integers.specs.Wide.{IsProduct, IsTriple, Limbs, base, triple_of};
ghost use Rattle.integers.specs.Wrap.{wrap_of};

// |x|, of every i64.
pub fn magnitude(x: i64) -> u64
    ensures { result ≡ nat_abs x }
{
    x.unsigned_abs()
}

// How many values one byte has, and two.
pub const ONE_BYTE: u16 = 256;

pub const TWO_BYTES: u32 = 65536;

// The bits of -1.
pub const MINUS_ONE: u32 = 4294967295;

// The number that bits are, in two's complement.
pub fn signed(u: u32) -> i32
    ensures { result ≡ signed_of u }
{
    u.cast_signed()
}

// The bits of a number.
pub fn unsigned(z: i32) -> u32
    ensures { result ≡ unsigned_of z }
{
    z.cast_unsigned()
}

// x / 16,384 to the nearest whole number, halves away from zero.
pub fn nearest(x: i64) -> i64
    ensures value { result ≡ nearest_of x }
    ensures halves_away { HalvesAway }
{
    let size = ((magnitude(x) + 8192) / 16384) as i64;
    if x < 0 { -size } else { size }
}

// The bits of a float that is at least 0, and 0 of any other.
pub fn bits_of(x: f64) -> u64
    ensures { result ≡ bits_from x }
{
    if 0.0 <= x { x.to_bits() } else { 0 }
}

// A whole number as a float: the last bits of a float from 2^52 on, less 2^52. A conversion would wait for what its register was made of before, in a
// loop for the round before.
pub fn float_of(n: u64) -> f64
    requires { n < 2 ^ 52 }
    ensures { result ≡ float_from n }
{
    f64::from_bits(n + 4841369599423283200) - 4503599627370496.0
}

// The floor of the square root, one binary digit of it a round, as on paper. Kept: the library's `isqrt`, tried here, takes twice the time (105 ns for
// 55), since it halves a range with a product a round.
pub fn root(n: u64) -> u64
    ensures value { result ≡ root_of n }
    ensures root { IsRoot n result }
{
    let mut found: u64 = 0;
    let mut rest: u64 = 0;
    // With k rounds to go, found is the root of n / 4^k, the number that n's leading digits make, and rest is what they are above found². A round
    // brings down the next two digits of n; the root's next digit is 1 where the rest is at least 4 found + 1, by which (2 found + 1)² is above
    // (2 found)².
    for rounds in (0..32u64).rev() {
        rest = (rest << 2) + ((n >> (rounds << 1)) & 3);
        let more = (found << 2) + 1;
        found <<= 1;
        if more <= rest {
            rest -= more;
            found += 1;
        }
    }
    found
}

// A sum of courses or turns, modulo 4,096.
pub fn wrap(x: i64) -> usize
    ensures { result ≡ wrap_of x }
{
    x.rem_euclid(4096) as usize
}

// How many values a digit has, and half a digit.
const DIGIT: u64 = 1 << 42;

const HALF_DIGIT: u64 = 1 << 21;

// high * 2^42 + low
#[derive(Clone, Copy)]
pub struct Wide {
    pub high: u64,
    pub low: u64,
}

// high * 2^84 + middle * 2^42 + low, and in that order compared, where middle and low are digits
#[derive(Clone, Copy, PartialEq, Eq, PartialOrd, Ord)]
pub struct Triple {
    pub high: u64,
    pub middle: u64,
    pub low: u64,
}

// The product of two numbers of 42 bits, by halves of 21 bits.
fn product(u: u64, v: u64) -> Wide
    requires { (u < base) × (v < base) }
    ensures { IsProduct u v result }
{
    let u1 = u / HALF_DIGIT;
    let u0 = u % HALF_DIGIT;
    let v1 = v / HALF_DIGIT;
    let v0 = v % HALF_DIGIT;
    let t = (u1 * v0 + u0 * v1) * HALF_DIGIT + u0 * v0;
    let high = u1 * v1 + t / DIGIT;
    let low = t % DIGIT;
    Wide { high, low }
}

// The product of a number of 84 bits and one of 42 bits.
fn long_product(w: Wide, a: u64) -> Triple
    requires { (w.high < base) × ((w.low < base) × (a < base)) }
    ensures { IsTriple w a result }
{
    let p = product(w.high, a);
    let q = product(w.low, a);
    let s = p.low + q.high;
    Triple {
        high: p.high + s / DIGIT,
        middle: s % DIGIT,
        low: q.low,
    }
}

// Whether y² a >= x² b, the products in full.
pub fn square_times_at_least(y: u64, a: u64, x: u64, b: u64) -> bool
    requires { (y < base) × ((a < base) × ((x < base) × (b < base))) }
    ensures { result ≡ leb (x * x * b) (y * y * a) }
{
    let yy = product(y, y);
    let xx = product(x, x);
    long_product(yy, a) >= long_product(xx, b)
}
