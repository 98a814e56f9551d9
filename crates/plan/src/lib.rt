// A plan, its limits and its rules (docs/RULES.md, section 1, 7.8 to 7.12 and 7.17). The rules are asked of a plan that is lent (lent.rt); here
// is what they ask of points, turns and numbers by themselves.
#![tactic(auto)]

mod lent;

ghost use Rattle.std.specs.Prelude.{◌≡◌, true, ℕ, ◌+◌, ◌-◌, ◌*◌, ◌/◌, ◌≤◌, ltb, length};
ghost use Rattle.refusals.specs.Sweep.{every, noted, passed_of, unless_found};
ghost use Rattle.plane.specs.Area.{InArea};
ghost use Rattle.plane.specs.declared.Point.{Point};
ghost use Rattle.plane.specs.Level.{level_leg_of, square_of};
ghost use Rattle.fillets.specs.Corners.{tangent_of};
ghost use Rattle.dubins.specs.Limits.{IsEnds};
ghost use Rattle.plan.specs.declared.Mode.TheVariants.{Lines};
ghost use Rattle.plan.specs.Limits.{most_points, most_radius, most_turn, in_area_of, signed_between, number_fits, arc_radius, radius_fits};
ghost use Rattle.plan.specs.Places.{number_at, place_at, course_at};
ghost use Rattle.plan.specs.Rules.{mode_of, ends_at, courses_fit, pair_number, corner_number, tangent_number, ends_number, at_place};
ghost use Rattle.plan.specs.Stands.{There, Placed, Aiming, IsLevelLeg, given_of};

use dubins::Ends;
pub use lent::Lent;
use plane::Point;
use refusals::Refusal;

// The most points of a plan, and the fewest.
pub const MOST_POINTS: usize = 64;

pub const FEWEST_POINTS: usize = 3;

// The area, in decimetres from its middle.
pub const MOST_LEVEL: u32 = 500000;

pub const MOST_DOWN: u32 = 100000;

// Radii and courses.
pub const LEAST_RADIUS: u16 = 50;

pub const MOST_RADIUS: u16 = 10000;

pub const FULL_CIRCLE: u16 = 4096;

const LAST_COURSE: u32 = FULL_CIRCLE as u32 - 1;

// The greatest turn of a fillet corner.
pub const MOST_TURN: usize = 1792;

#[derive(Clone, Copy, PartialEq, Eq)]
pub enum Mode {
    Lines,
    Fillets,
    Dubins,
}

// What a plan is beside its points.
#[derive(Clone, Copy)]
pub struct Head {
    pub serial: u32,
    pub mode: Mode,
    pub radius: u16,
    pub count: usize,
}

// A plan. Places past the count are zero, and so are a radius and courses that its mode does not use.
// Each kind of number has an array of its own, not a point one: C keeps a state's words in these four blocks (17.2), and they are lent as they lie.
#[derive(Clone, Copy)]
pub struct Plan {
    pub head: Head,
    pub norths: [i32; MOST_POINTS],
    pub easts: [i32; MOST_POINTS],
    pub downs: [i32; MOST_POINTS],
    pub courses: [i32; MOST_POINTS],
}

// A leg in north and east: its bearing and its squared length.
#[derive(Clone, Copy)]
pub struct LevelLeg {
    pub bearing: usize,
    pub squared: u64,
}

// The point at a place of three arrays, which may end with it.
pub fn point_at(norths: &[i32], easts: &[i32], downs: &[i32], i: usize) -> Point
    requires { There norths.now easts.now downs.now i }
    ensures { result ≡ place_at norths.now easts.now downs.now i }
{
    Point {
        north: norths[i],
        east: easts[i],
        down: downs[i],
    }
}

// The course at a place of an array, which may end with it.
pub fn course_at(courses: &[i32], i: usize) -> usize
    requires { Aiming courses.now i }
    ensures { result ≡ course_at courses.now i }
{
    courses[i] as usize
}

// The leg that starts at place i, of arrays that may end with it.
pub fn level_leg_at(norths: &[i32], easts: &[i32], downs: &[i32], i: usize) -> LevelLeg
    requires { Placed norths.now easts.now downs.now i × Placed norths.now easts.now downs.now (i + 1) }
    ensures { IsLevelLeg (place_at norths.now easts.now downs.now i) (place_at norths.now easts.now downs.now (i + 1)) result }
{
    let a = point_at(norths, easts, downs, i);
    let b = point_at(norths, easts, downs, i + 1);
    let leg = plane::level_leg(a, b);
    LevelLeg {
        bearing: course::bearing(leg),
        squared: plane::squared(leg),
    }
}

// The ends of the Dubins leg that ends at place i, of arrays that may end with it.
pub fn leg_ends(
    norths: &[i32],
    easts: &[i32],
    downs: &[i32],
    courses: &[i32],
    i: usize,
    radius: u64,
) -> Ends
    requires { (1 ≤ i) × ((Placed norths.now easts.now downs.now (i - 1) × Placed norths.now easts.now downs.now i) × ((Aiming courses.now (i - 1) × Aiming courses.now i) × (radius ≤ most_radius))) }
    ensures { (result ≡ ends_at radius (place_at norths.now easts.now downs.now) (course_at courses.now) (i - 1) i) × IsEnds result }
{
    let start = point_at(norths, easts, downs, i - 1);
    let end = point_at(norths, easts, downs, i);
    let leave = course_at(courses, i - 1);
    let arrive = course_at(courses, i);
    Ends {
        start,
        leave,
        end,
        arrive,
        radius,
    }
}

// How many numbers the arrays of a plan have, and which stands where when they lie one after another.
pub const NUMBERS: usize = 4 * MOST_POINTS;

pub const NORTH_BLOCK: usize = 0;

pub const EAST_BLOCK: usize = 1;

pub const DOWN_BLOCK: usize = 2;

pub const COURSE_BLOCK: usize = 3;

// Whether -low ≤ z ≤ high: two comparisons, which the compiler makes one.
fn signed_between(z: i32, low: u32, high: u32) -> bool
    ensures { result ≡ signed_between low high z }
{
    let wide = i64::from(z);
    -i64::from(low) <= wide && wide <= i64::from(high)
}

// Whether a point lies in the area.
pub fn in_area(p: Point) -> bool
    ensures { (result ≡ in_area_of p) × (result ≡ true → InArea p) }
{
    signed_between(p.north, MOST_LEVEL, MOST_LEVEL)
        && signed_between(p.east, MOST_LEVEL, MOST_LEVEL)
        && signed_between(p.down, MOST_DOWN, MOST_DOWN)
}

// The mode of a plan with this radius, 0 for none, and courses given at so many points.
#[tactic(auto, unfolding(crate::specs::Rules::mode_of, conditions::specs::Choose::choose))]
pub fn mode_of(radius: u16, given: usize) -> Mode
    ensures { result ≡ mode_of radius given }
{
    match (radius, given) {
        (0, _) => Mode::Lines,
        (_, 0) => Mode::Fillets,
        _ => Mode::Dubins,
    }
}

// How many points of a plan have a course.
#[tactic(auto, unfolding(crate::specs::Stands::given_of))]
pub fn given_of(mode: Mode, count: usize) -> usize
    ensures { result ≡ given_of mode count }
{
    match mode {
        Mode::Lines | Mode::Fillets => 0,
        Mode::Dubins => count,
    }
}

// Whether arcs of a radius are flown.
#[tactic(auto, unfolding(crate::specs::Limits::arc_radius, conditions::specs::Both::both))]
fn arc_radius(radius: u16) -> bool
    ensures { result ≡ arc_radius radius }
{
    LEAST_RADIUS <= radius && radius <= MOST_RADIUS
}

// Whether a mode has this radius, 0 for none.
fn radius_fits(mode: Mode, radius: u16) -> bool
    ensures { (result ≡ radius_fits mode radius) × (result ≡ true → radius ≤ most_radius) }
{
    match mode {
        Mode::Lines => radius == 0,
        Mode::Fillets | Mode::Dubins => arc_radius(radius),
    }
}

// 9: whether no course is given, or one at each point of a plan that has a radius.
#[tactic(auto, unfolding(crate::specs::Rules::courses_fit, conditions::specs::Choose::choose, conditions::specs::Both::both))]
fn courses_fit(radius: u16, given: usize, count: usize) -> bool
    ensures { result ≡ courses_fit radius given count }
{
    given == 0 || (radius != 0 && given == count)
}

// 10 where two neighbours are equal in north and east. No square is taken: the compiler compares several pairs at once.
fn pair_number(a: Point, b: Point) -> Option<u8>
    ensures { result ≡ noted (pair_number a b) }
{
    if a.north == b.north && a.east == b.east {
        return Some(refusals::EQUAL_NEIGHBOURS);
    }
    None
}

// 11 where the legs of a plan of lines are exactly opposite at b.
fn line_corner_number(a: Point, b: Point, c: Point) -> Option<u8>
    requires { InArea a × (InArea b × InArea c) }
    ensures { result ≡ noted (corner_number Lines a b c) }
{
    if plane::opposite(plane::leg_between(a, b), plane::leg_between(b, c)) {
        return Some(refusals::SHARP_CORNER);
    }
    None
}

// 12 where the tangent lengths of a leg's ends exceed it, asked of the squares: no root is taken. Two tangent lengths are at most 100560.
fn tangent_number(squared: u64, tangents: u64) -> Option<u8>
    requires { tangents ≤ 100560 }
    ensures { (a b : Point) → squared ≡ square_of (level_leg_of a b) → result ≡ noted (tangent_number a b tangents) }
{
    if tangents * tangents <= squared {
        return None;
    }
    Some(refusals::SHORT_LEG)
}

// The squared length from which on a leg has room for two easy turns: their tangent lengths are at most 5/2 of the radius.
fn easy_square(radius: u64) -> u64
    requires { radius ≤ most_radius }
    ensures { result ≡ 5 * radius / 2 * (5 * radius / 2) }
{
    let most = 5 * radius / 2;
    most * most
}

// 12 of a leg with these turns at its ends. Few legs need their tangent lengths worked out.
fn turns_number(squared: u64, radius: u64, before: usize, after: usize) -> Option<u8>
    requires { (radius ≤ most_radius) × ((before ≤ most_turn) × (after ≤ most_turn)) }
    ensures { (a b : Point) → squared ≡ square_of (level_leg_of a b) → result ≡ noted (tangent_number a b (tangent_of radius before + tangent_of radius after)) }
{
    if easy_square(radius) <= squared
        && before <= fillets::EASY_TURN
        && after <= fillets::EASY_TURN
    {
        return None;
    }
    let first = fillets::tangent_length(radius, before);
    let second = fillets::tangent_length(radius, after);
    tangent_number(squared, first + second)
}

// 12 where the ends of a Dubins leg are too close, and then 17 where it has no case. Ends that are far enough apart always have one, except where
// the radius is 0.
fn ends_number(ends: Ends) -> Option<u8>
    requires { IsEnds ends }
    ensures { result ≡ noted (ends_number ends) }
{
    if !dubins::far_apart(ends.start, ends.end, ends.radius) {
        return Some(refusals::SHORT_LEG);
    }
    if 0 < ends.radius || dubins::has_path(ends) {
        return None;
    }
    Some(refusals::NO_CASE)
}

// The refusal at a place, if it has a number.
#[tactic(auto, unfolding(crate::specs::Rules::at_place, refusals::specs::Sweep::passed_of, refusals::specs::Sweep::noted, conditions::specs::Choose::choose))]
fn at_place(number: Option<u8>, place: usize) -> Result<(), Refusal>
    ensures { (n : ℕ) → number ≡ noted n → result ≡ passed_of (at_place n place) }
{
    match number {
        Some(number) => Err(Refusal { number, place }),
        None => Ok(()),
    }
}

// What the legs before have found, or else 12 of the next leg.
#[tactic(auto, unfolding(refusals::specs::Sweep::unless_found))]
fn leg_found(
    found: Result<(), Refusal>,
    squared: u64,
    radius: u64,
    before: usize,
    after: usize,
    place: usize,
) -> Result<(), Refusal>
    requires { (radius ≤ most_radius) × ((before ≤ most_turn) × (after ≤ most_turn)) }
    ensures { (a b : Point) → squared ≡ square_of (level_leg_of a b) → result ≡ unless_found found (passed_of (at_place (tangent_number a b (tangent_of radius before + tangent_of radius after)) place)) }
{
    found?;
    at_place(turns_number(squared, radius, before, after), place)
}

// Whether the values from one place to below another lie between limits. Those that do not are counted: without a way out of the loop the
// compiler takes several at once.
fn values_between(values: &[i32], from: usize, to: usize, low: u32, high: u32) -> bool
    requires { (to ≤ most_points) × (to ≤ length values.now) }
    ensures { result ≡ every (λ (i : ℕ). signed_between low high (number_at values.now i)) (to - from) from }
{
    let mut over: u32 = 0;
    for i in from..to {
        if !signed_between(values[i], low, high) {
            over += 1;
        }
    }
    over == 0
}

// Whether the values of the places in use lie between limits and the others are zero.
fn number_places_fit(values: &[i32], used: usize, low: u32, high: u32) -> bool
    requires { (used ≤ most_points) × (most_points ≤ length values.now) }
    ensures { result ≡ every (λ (i : ℕ). number_fits (ltb i used) low high (number_at values.now i)) (most_points - 0) 0 }
{
    values_between(values, 0, used, low, high) && values_between(values, used, MOST_POINTS, 0, 0)
}
