// Points, legs between them, the half-plane test and the arithmetic of level vectors (docs/RULES.md, 1.1 and 10.2).
#![tactic(auto)]

ghost use Rattle.std.specs.Prelude.{◌≡◌, ◌≤◌, ◌<◌};
ghost use Rattle.integers.specs.Bounds.{Within};
ghost use Rattle.course.specs.Vectors.{Near, cross};
ghost use Rattle.course.specs.Direction.{direction_of};
ghost use Rattle.plane.specs.Area.{InArea, IsLeg, leg_of, level_of};
ghost use Rattle.plane.specs.Level.{plus, minus, level_leg_of, dot_of, square_of, vector_length, sideways_of, arc_of};
ghost use Rattle.plane.specs.Half.{dot3_of, square3_of, half_plane, HandHalves, met_of, minor_size, cross_size, opposite_of};

use course::Vector;

// A point of a plan or a position, in decimetres. Its bound, InArea, stays a clause and no invariant: `plan::in_area` is asked of points outside.
#[derive(Clone, Copy)]
pub struct Point {
    pub north: i32,
    pub east: i32,
    pub down: i32,
}

// What lies from one point to another. Kept apart from Point: no function takes both, so a generic type would be plainer nowhere.
#[derive(Clone, Copy)]
pub struct Leg {
    pub north: i64,
    pub east: i64,
    pub down: i64,
}

// b - a
pub fn leg_between(a: Point, b: Point) -> Leg
    requires { InArea a × InArea b }
    ensures { (result ≡ leg_of a b) × IsLeg result }
{
    Leg {
        north: (b.north as i64) - (a.north as i64),
        east: (b.east as i64) - (a.east as i64),
        down: (b.down as i64) - (a.down as i64),
    }
}

// The point without its down part, which is why this is no `From`.
pub fn level(p: Point) -> Vector
    requires { InArea p }
    ensures { (result ≡ level_of p) × Near 500000 result }
{
    Vector {
        north: p.north as i64,
        east: p.east as i64,
    }
}

// b - a. Here and in `sum` an impl of `Sub` or `Add` would take the bounds out of the clauses, which callers cite.
pub fn vector_between(a: Vector, b: Vector) -> Vector
    requires { Near 1000000 a × Near 1000000 b }
    ensures { (result ≡ minus b a) × Near 2000000 result }
{
    Vector {
        north: b.north - a.north,
        east: b.east - a.east,
    }
}

// a + b
pub fn sum(a: Vector, b: Vector) -> Vector
    requires { Near 1000000 a × Near 1000000 b }
    ensures { (result ≡ plus a b) × Near 2000000 result }
{
    Vector {
        north: a.north + b.north,
        east: a.east + b.east,
    }
}

// What lies from one point to another in north and east.
pub fn level_leg(a: Point, b: Point) -> Vector
    requires { InArea a × InArea b }
    ensures { (result ≡ level_leg_of a b) × Near 1000000 result }
{
    vector_between(level(a), level(b))
}

// a·b
pub fn dot(a: Vector, b: Vector) -> i64
    requires { Near 2000000 a × Near 2000000 b }
    ensures { (result ≡ dot_of a b) × Within 8000000000000 result }
{
    a.north * b.north + a.east * b.east
}

// cross(a, b)
pub fn across(a: Vector, b: Vector) -> i64
    requires { Near 2000000 a × Near 2000000 b }
    ensures { (result ≡ cross a b) × Within 8000000000000 result }
{
    a.north * b.east - a.east * b.north
}

// v·v
pub fn squared(v: Vector) -> u64
    requires { Near 2000000 v }
    ensures { (result ≡ square_of v) × (result ≤ 8000000000000) }
{
    integers::magnitude(dot(v, v))
}

// The length of v, rounded down.
pub fn length(v: Vector) -> u64
    requires { Near 2000000 v }
    ensures { (result ≡ vector_length v) × (result ≤ 2828427) }
{
    integers::root(squared(v))
}

// d·D(k)
pub fn along(d: Vector, k: usize) -> i64
    requires { Near 2000000 d }
    ensures { (result ≡ dot_of d (direction_of k)) × Within 8000000000000 result }
{
    let q = course::direction(k);
    dot(d, q)
}

// The course a quarter to the right or to the left of course k.
pub fn sideways(k: usize, right: bool) -> usize
    requires { k < 4096 }
    ensures { (result ≡ sideways_of k right) × (result < 4096) }
{
    if right {
        (k + 1024) % 4096
    } else {
        (k + 3072) % 4096
    }
}

// The length of an arc.
pub fn arc(radius: u64, turns: u64) -> u64
    requires { (radius ≤ 10000) × (turns ≤ 8190) }
    ensures { (result ≡ arc_of radius turns) × (result ≤ 125633) }
{
    radius * turns * 355 / 231424
}

// a·b, in three dimensions. Kept beside `dot`: the parts have names, and a form over their number would give them up for indices.
pub fn dot3(a: Leg, b: Leg) -> i64
    requires { IsLeg a × IsLeg b }
    ensures { (result ≡ dot3_of a b) × Within 2040000000000 result }
{
    a.north * b.north + a.east * b.east + a.down * b.down
}

// a·a, in three dimensions
fn squared3(a: Leg) -> u64
    requires { IsLeg a }
    ensures { (result ≡ square3_of a) × (result ≤ 2040000000000) }
{
    integers::magnitude(dot3(a, a))
}

// Whether x/√a + y/√b ≥ 0.
fn half_plane(x: i64, y: i64, a: u64, b: u64) -> bool
    requires { (Within 2040000000000 x × Within 2040000000000 y) × ((a ≤ 2040000000000) × (b ≤ 2040000000000)) }
    ensures value { result ≡ half_plane x y a b }
    ensures hand_halves { HandHalves }
{
    let u = integers::magnitude(x);
    let v = integers::magnitude(y);
    match (0 <= x, 0 <= y) {
        (true, true) => true,
        (true, false) => integers::square_times_at_least(u, b, v, a),
        (false, true) => integers::square_times_at_least(v, a, u, b),
        (false, false) => false,
    }
}

// Whether d from a corner lies past its half-plane, with the legs a before it and b after it.
pub fn met(d: Leg, a: Leg, b: Leg) -> bool
    requires { IsLeg d × (IsLeg a × IsLeg b) }
    ensures { result ≡ met_of d a b }
{
    let x = dot3(d, a);
    let y = dot3(d, b);
    half_plane(x, y, squared3(a), squared3(b))
}

// |a d - b c|
fn minor_size(a: i64, b: i64, c: i64, d: i64) -> u64
    requires { (Within 1000000 a × Within 1000000 b) × (Within 1000000 c × Within 1000000 d) }
    ensures { (result ≡ minor_size a b c d) × (result ≤ 2000000000000) }
{
    integers::magnitude(a * d - b * c)
}

// How far two legs are from parallel: the magnitudes of the parts of their cross product.
fn cross_size(a: Leg, b: Leg) -> u64
    requires { IsLeg a × IsLeg b }
    ensures { result ≡ cross_size a b }
{
    let north = minor_size(a.east, a.down, b.east, b.down);
    let east = minor_size(a.down, a.north, b.down, b.north);
    let down = minor_size(a.north, a.east, b.north, b.east);
    north + east + down
}

// Whether two legs are exactly opposite. Most legs of a plan are told by the dot product alone.
pub fn opposite(a: Leg, b: Leg) -> bool
    requires { IsLeg a × IsLeg b }
    ensures { result ≡ opposite_of a b }
{
    dot3(a, b) < 0 && cross_size(a, b) == 0
}
