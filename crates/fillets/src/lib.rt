// Corners rounded by a fillet (docs/RULES.md, section 11).
#![tactic(auto)]

ghost use Rattle.std.specs.Prelude.{◌≡◌, true, ℕ, ◌≤◌, ◌<◌};
ghost use Rattle.course.specs.Vectors.{Near};
ghost use Rattle.plane.specs.Area.{InArea};
ghost use Rattle.fillets.specs.Corners.{lesser_turn, turn_between, corner_turn, easy_turn, turns_easily, tangent_of, IsTangent, right_of, rounded_of, corner_of, HandCorners, IsCorner};

use course::Vector;
use plane::Point;

// The arc of a corner: its tangent length, whether it turns right (sense +1), where the line ends and begins again, and its centre.
#[derive(Clone, Copy)]
pub struct Corner {
    pub tangent: u64,
    pub right: bool,
    pub z1: Vector,
    pub z2: Vector,
    pub centre: Vector,
}

// The greatest turn whose tangent length is at most 5/4 of the radius: a little above a right angle, since the corners of a survey come out some
// units above or below one.
pub const EASY_TURN: usize = 1168;

// The lesser way round between two courses.
pub fn lesser_turn(j: usize, k: usize) -> usize
    requires { (j < 4096) × (k < 4096) }
    ensures { (result ≡ lesser_turn j k) × (result ≤ 2048) }
{
    let d = (k + 4096 - j) % 4096;
    d.min(4096 - d)
}

// The turn between two legs.
fn turn_between(a: Vector, b: Vector) -> usize
    requires { Near 1000000 a × Near 1000000 b }
    ensures { (result ≡ turn_between a b) × (result ≤ 2048) }
{
    let j = course::bearing(a);
    let k = course::bearing(b);
    lesser_turn(j, k)
}

// Whether two products alone show that a turn is at most EASY_TURN, as they do up to 101 degrees: no bearing is worked out. Otherwise nothing is
// said of it.
pub fn turns_easily(a: Vector, b: Vector) -> bool
    requires { Near 1000000 a × Near 1000000 b }
    ensures value { result ≡ turns_easily a b }
    ensures b_bound { result ≡ true → turn_between a b ≤ easy_turn }
{
    let ahead = 5 * plane::dot(a, b);
    let side = plane::across(a, b);
    0 < ahead + side.abs()
}

// The turn at a point between two others.
pub fn turn_at(before: Point, point: Point, after: Point) -> usize
    requires { InArea before × (InArea point × InArea after) }
    ensures { (result ≡ corner_turn before point after) × (result ≤ 2048) }
{
    let a = plane::level_leg(before, point);
    let b = plane::level_leg(point, after);
    turn_between(a, b)
}

// The tangent length of a turn.
pub fn tangent_length(radius: u64, turn: usize) -> u64
    requires { (radius ≤ 10000) × (turn ≤ 1792) }
    ensures value { result ≡ tangent_of radius turn }
    ensures upper_bound { result ≤ 50280 }
    ensures tangent { IsTangent radius turn result × ((t : ℕ) → IsTangent radius turn t → t ≡ result) }
{
    let d = course::direction(turn);
    let sine = integers::magnitude(d.east);
    let base = integers::magnitude(16384 + d.north);
    radius * sine / base
}

// Whether the second leg turns right from the first, or goes straight on.
fn turns_right(a: Vector, b: Vector) -> bool
    requires { Near 1000000 a × Near 1000000 b }
    ensures { result ≡ right_of a b }
{
    0 <= plane::across(a, b)
}

// The corner at a point whose legs bear j and k, with the tangent length t.
fn rounded(point: Vector, j: usize, k: usize, right: bool, radius: u64, t: u64) -> Corner
    requires { Near 500000 point × ((j < 4096) × ((radius ≤ 10000) × (t ≤ 50280))) }
    ensures value { (result ≡ rounded_of point j k right radius t) × IsCorner result }
    ensures hand_corners { HandCorners }
{
    let z1 = plane::vector_between(course::offset(t, j), point);
    let z2 = plane::sum(point, course::offset(t, k));
    let side = plane::sideways(j, right);
    let centre = plane::sum(z1, course::offset(radius, side));
    Corner {
        tangent: t,
        right,
        z1,
        z2,
        centre,
    }
}

// The corner at a point between two others whose turn is at most 1,792.
pub fn round_corner(before: Point, point: Point, after: Point, radius: u64) -> Corner
    requires { (InArea before × (InArea point × InArea after)) × ((radius ≤ 10000) × (corner_turn before point after ≤ 1792)) }
    ensures { (result ≡ corner_of before point after radius) × IsCorner result }
{
    let a = plane::level_leg(before, point);
    let b = plane::level_leg(point, after);
    let j = course::bearing(a);
    let k = course::bearing(b);
    let t = tangent_length(radius, lesser_turn(j, k));
    let right = turns_right(a, b);
    rounded(plane::level(point), j, k, right, radius, t)
}
