// Between f32 metres and whole decimetres, both ways, and directions as f32 (docs/RULES.md, 9.1, 9.4 and 9.5).
#![tactic(auto)]

ghost use Rattle.std.specs.Prelude.{◌≡◌, ◌≤◌, not, T, nat_abs};
ghost use Rattle.std.specs.Int.Signed.{non_neg};
ghost use Rattle.std.specs.Float.{binary32};
ghost use Rattle.std.specs.Float.Ieee.{round};
ghost use Rattle.integers.specs.Bounds.{Within};
ghost use Rattle.units.specs.Decimetres.{decimetres_of, in_limit};
ghost use Rattle.units.specs.Pattern.{field_of, unsigned_decimetres};
ghost use Rattle.units.specs.Position.{all_in_limit, in_decimetres, position_of, IsPosition};
ghost use Rattle.units.specs.CheckedExamples.{FixExamples};
ghost use Rattle.units.specs.Metres.{metres_of, direction_part_of, Exactly, Plain, PlainMeans};

use plane::Point;

// A position fix, in metres.
#[derive(Clone, Copy)]
pub struct Fix {
    pub north: f32,
    pub east: f32,
    pub down: f32,
}

// Whether x is a number of at most limit in size. A NaN fails both tests.
fn in_limit(x: f32, limit: u16) -> bool
    ensures { result ≡ in_limit limit x }
{
    let most = limit as f32;
    x <= most && -most <= x
}

// Whether each part of a fix is in its limit.
#[tactic(auto, unfolding(crate::specs::Position::all_in_limit))]
fn all_in_limit(fix: Fix) -> bool
    ensures { result ≡ all_in_limit fix }
{
    in_limit(fix.north, 50000) && in_limit(fix.east, 50000) && in_limit(fix.down, 10000)
}

// The size of a float in decimetres, from its bits: digits · 2^(field − 150) metres. Below field 120 it is under half a decimetre.
fn unsigned_decimetres(bits: u32) -> u32
    requires { field_of bits ≤ 142 }
    ensures { result ≡ unsigned_decimetres bits }
{
    let field = bits / 8388608 % 256;
    if field < 120 {
        return 0;
    }
    let digits = 8388608 + bits % 8388608;
    let one = 1u32 << (150 - field);
    (digits * 20 + one) / (2 * one)
}

// The nearest decimetre of x, halves away from zero.
fn decimetres(x: f32) -> i32
    requires { T (in_limit 50000 x) }
    ensures { result ≡ decimetres_of x }
{
    let size = unsigned_decimetres(x.to_bits()) as i32;
    if x.is_sign_negative() { -size } else { size }
}

// The point of a fix whose parts are in their limits.
fn in_decimetres(fix: Fix) -> Point
    requires { T (all_in_limit fix) }
    ensures { result ≡ in_decimetres fix }
{
    Point {
        north: decimetres(fix.north),
        east: decimetres(fix.east),
        down: decimetres(fix.down),
    }
}

// The position of a fix; there is none where a part is NaN, infinite or beyond its limit.
// No TryFrom: the promise is named `units::locate` in docs/ASSURANCE.md, and there is one way to have none, so that an error would say no more.
pub fn locate(fix: Fix) -> Option<Point>
    ensures { (result ≡ position_of fix) × (IsPosition result × FixExamples) }
{
    all_in_limit(fix).then(|| in_decimetres(fix))
}

// d decimetres in metres.
pub fn metres(d: i64) -> f32
    requires { Within 1000000 d }
    ensures { (result ≡ metres_of d) × ((result ≡ round binary32 (not (non_neg d)) (nat_abs d) 10) × (Plain result × PlainMeans)) }
{
    (d as f32) / 10.0
}

// A part of a direction D(k), which counts 1/16,384.
// Not one function with `metres` by its divisor: what each asks and promises differs, and all that they share is one division.
pub fn direction_part(x: i64) -> f32
    requires { Within 16384 x }
    ensures { (result ≡ direction_part_of x) × (Exactly result x 16384 × Plain result) }
{
    (x as f32) / 16384.0
}
