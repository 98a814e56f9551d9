// What to follow at a fix: a line or a circle, the heading for it, and whether the phase is over (docs/RULES.md, sections 9 to 14).
#![tactic(auto)]

ghost use Rattle.std.specs.Prelude.{◌≡◌, ◌≤◌, ◌<◌};
ghost use Rattle.integers.specs.Bounds.{Within};
ghost use Rattle.course.specs.Vectors.{Near};
ghost use Rattle.plane.specs.Area.{InArea, IsLeg};
ghost use Rattle.fillets.specs.Corners.{corner_turn, IsCorner};
ghost use Rattle.dubins.specs.Limits.{IsEnds, IsPath};
ghost use Rattle.guidance.specs.Commands.{sense_of, place_metres, leg_metres, line_command, course_command, circle_command, CommandMeans};
ghost use Rattle.guidance.specs.Guide.{from_of, reached_of, short_of, leg_heading, leg_guide, line_guide, past_of, fillet_line, fillet_circle, fillet_guide, leg_ended, last_leg_guide, circle_guide, straight_guide, start_passed, end_passed, dubins_guide};

use course::Vector;
use dubins::{Ends, Path};
use fillets::Corner;
use plane::{Leg, Point};

// A place or a direction, in metres.
#[derive(Clone, Copy)]
pub struct Metres {
    pub north: f32,
    pub east: f32,
    pub down: f32,
}

// What the autopilot is to follow. Sense is +1 for clockwise and -1 for the other way; Nothing where a fix is refused, a case and no Option of the
// others, as `Flies` and `command_numbers` have three kinds.
#[derive(Clone, Copy)]
pub enum Command {
    Line {
        start: Metres,
        direction: Metres,
    },
    Circle {
        centre: Metres,
        radius: f32,
        sense: i8,
    },
    Nothing,
}

// The command and heading of a phase at a position, and whether the position ends the phase.
#[derive(Clone, Copy)]
pub struct Guidance {
    pub command: Command,
    pub heading: usize,
    pub passed: bool,
}

// How the end of the last leg is looked at: in north and east, or in three dimensions.
#[derive(Clone, Copy, PartialEq, Eq)]
pub enum View {
    Level,
    InSpace,
}

// A level place at the height of a point.
fn place_metres(v: Vector, p: Point) -> Metres
    requires { Near 1000000 v × InArea p }
    ensures { result ≡ place_metres v p.down }
{
    Metres {
        north: units::metres(v.north),
        east: units::metres(v.east),
        down: units::metres(p.down as i64),
    }
}

fn leg_metres(l: Leg) -> Metres
    requires { IsLeg l }
    ensures { result ≡ leg_metres l }
{
    Metres {
        north: units::metres(l.north),
        east: units::metres(l.east),
        down: units::metres(l.down),
    }
}

// The line from a along its leg to b.
fn line_command(a: Point, b: Point) -> Command
    requires { InArea a × InArea b }
    ensures { result ≡ line_command a b }
{
    let start = place_metres(plane::level(a), a);
    let direction = leg_metres(plane::leg_between(a, b));
    Command::Line { start, direction }
}

// The line from a place at the height of p along a course.
fn course_command(from: Vector, p: Point, course: usize) -> Command
    requires { Near 1000000 from × InArea p }
    ensures { result ≡ course_command from p.down course }
{
    let start = place_metres(from, p);
    let d = course::direction(course);
    let direction = Metres {
        north: units::direction_part(d.north),
        east: units::direction_part(d.east),
        down: units::direction_part(0),
    };
    Command::Line { start, direction }
}

fn sense(right: bool) -> i8
    ensures { (result ≡ sense_of right) × Within 1 result }
{
    if right { 1 } else { -1 }
}

// The circle at the height of p.
fn circle_command(centre: Vector, p: Point, radius: u64, right: bool) -> Command
    requires { Near 1000000 centre × (InArea p × (radius ≤ 10000)) }
    ensures { (result ≡ circle_command centre p.down radius right) × CommandMeans }
{
    let place = place_metres(centre, p);
    Command::Circle {
        centre: place,
        radius: units::metres(radius as i64),
        sense: sense(right),
    }
}

// The position less a place.
fn from(start: Vector, at: Point) -> Vector
    requires { Near 1000000 start × InArea at }
    ensures { (result ≡ from_of start at) × Near 1500000 result }
{
    plane::vector_between(start, plane::level(at))
}

// Whether the position is at a place or beyond it, along a course.
fn reached(start: Vector, course: usize, at: Point) -> bool
    requires { Near 1000000 start × InArea at }
    ensures { result ≡ reached_of start course at }
{
    0 <= plane::along(from(start, at), course)
}

// Whether the position is at a place or short of it, along a course.
fn short(start: Vector, course: usize, at: Point) -> bool
    requires { Near 1000000 start × InArea at }
    ensures { result ≡ short_of start course at }
{
    plane::along(from(start, at), course) <= 0
}

// The heading on the line from a along its leg to b.
fn leg_heading(a: Point, b: Point, at: Point) -> usize
    requires { InArea a × (InArea b × InArea at) }
    ensures { (result ≡ leg_heading a b at) × (result < 4096) }
{
    heading::line_heading(plane::level_leg(a, b), from(plane::level(a), at))
}

// The line along the leg from a to b, until the phase is over.
fn leg_guide(a: Point, b: Point, passed: bool, at: Point) -> Guidance
    requires { InArea a × (InArea b × InArea at) }
    ensures { (result ≡ leg_guide a b passed at) × (result.heading < 4096) }
{
    Guidance {
        command: line_command(a, b),
        heading: leg_heading(a, b, at),
        passed,
    }
}

// Lines: from a to b, until the half-plane of b is met, with c after it.
pub fn line_guide(a: Point, b: Point, c: Point, at: Point) -> Guidance
    requires { InArea a × (InArea b × (InArea c × InArea at)) }
    ensures { (result ≡ line_guide a b c at) × (result.heading < 4096) }
{
    let passed = plane::met(
        plane::leg_between(b, at),
        plane::leg_between(a, b),
        plane::leg_between(b, c),
    );
    leg_guide(a, b, passed, at)
}

// Whether the position lies past a place along a leg.
fn past(place: Vector, leg: Vector, at: Point) -> bool
    requires { Near 1000000 place × (Near 1000000 leg × InArea at) }
    ensures { result ≡ past_of place leg at }
{
    0 <= plane::dot(from(place, at), leg)
}

// A circle at the height of p, until the phase is over.
fn circle_guide(
    centre: Vector,
    p: Point,
    radius: u64,
    right: bool,
    passed: bool,
    at: Point,
) -> Guidance
    requires { Near 1000000 centre × (InArea p × ((radius ≤ 10000) × InArea at)) }
    ensures { (result ≡ circle_guide centre p radius right passed at) × (result.heading < 4096) }
{
    Guidance {
        command: circle_command(centre, p, radius, right),
        heading: heading::circle_heading(from(centre, at), radius, right),
        passed,
    }
}

// Fillets, phase line: from a toward b, until z1.
fn fillet_line(a: Point, b: Point, corner: Corner, at: Point) -> Guidance
    requires { InArea a × (InArea b × (IsCorner corner × InArea at)) }
    ensures { (result ≡ fillet_line a b corner at) × (result.heading < 4096) }
{
    let z1 = corner.z1;
    let passed = past(z1, plane::level_leg(a, b), at);
    leg_guide(a, b, passed, at)
}

// Fillets, phase circle: round the corner at b, until z2 toward c.
fn fillet_circle(b: Point, c: Point, radius: u64, corner: Corner, at: Point) -> Guidance
    requires { InArea b × (InArea c × ((radius ≤ 10000) × (IsCorner corner × InArea at))) }
    ensures { (result ≡ fillet_circle b c radius corner at) × (result.heading < 4096) }
{
    let centre = corner.centre;
    let z2 = corner.z2;
    let passed = past(z2, plane::level_leg(b, c), at);
    circle_guide(centre, b, radius, corner.right, passed, at)
}

// Fillets: the corner at b between a and c, in phase 1 or 2. Phases are numbers, as `fillet_guide` takes every one, and C gives them in a word.
pub fn fillet_guide(a: Point, b: Point, c: Point, radius: u64, phase: u8, at: Point) -> Guidance
    requires { (InArea a × (InArea b × InArea c)) × (((radius ≤ 10000) × (corner_turn a b c ≤ 1792)) × InArea at) }
    ensures { (result ≡ fillet_guide a b c radius phase at) × (result.heading < 4096) }
{
    let corner = fillets::round_corner(a, b, c, radius);
    if phase == 1 {
        fillet_line(a, b, corner, at)
    } else {
        fillet_circle(b, c, radius, corner, at)
    }
}

// Whether the position is at b or beyond it along the leg from a.
fn leg_ended(view: View, a: Point, b: Point, at: Point) -> bool
    requires { InArea a × (InArea b × InArea at) }
    ensures { result ≡ leg_ended view a b at }
{
    match view {
        View::Level => past(plane::level(b), plane::level_leg(a, b), at),
        View::InSpace => 0 <= plane::dot3(plane::leg_between(b, at), plane::leg_between(a, b)),
    }
}

// The last leg, from a to b, until its end.
pub fn last_leg_guide(view: View, a: Point, b: Point, at: Point) -> Guidance
    requires { InArea a × (InArea b × InArea at) }
    ensures { (result ≡ last_leg_guide view a b at) × (result.heading < 4096) }
{
    leg_guide(a, b, leg_ended(view, a, b, at), at)
}

// The straight part of a Dubins leg, from z1 along its course until z2, at the height of the start.
fn straight_guide(start: Point, path: Path, at: Point) -> Guidance
    requires { InArea start × (IsPath path × InArea at) }
    ensures { (result ≡ straight_guide start path at) × (result.heading < 4096) }
{
    let z1 = path.z1;
    let z2 = path.z2;
    let q = course::direction(path.course);
    Guidance {
        command: course_command(z1, start, path.course),
        heading: heading::line_heading(q, from(z1, at)),
        passed: reached(z2, path.course, at),
    }
}

// Phases 1 and 2: behind z1 along the straight part, and then level with it.
fn start_passed(path: Path, phase: u8, at: Point) -> bool
    requires { IsPath path × InArea at }
    ensures { result ≡ start_passed path phase at }
{
    let z1 = path.z1;
    if phase == 1 {
        short(z1, path.course, at)
    } else {
        reached(z1, path.course, at)
    }
}

// Phases 4 and 5: behind the end point along its course, and then level with it.
fn end_passed(end: Point, course: usize, phase: u8, at: Point) -> bool
    requires { InArea end × InArea at }
    ensures { result ≡ end_passed end course phase at }
{
    let place = plane::level(end);
    if phase == 4 {
        short(place, course, at)
    } else {
        reached(place, course, at)
    }
}

// Dubins: a leg and the path that was worked out for it, in phase 1 to 5.
pub fn dubins_guide(ends: Ends, path: Path, phase: u8, at: Point) -> Guidance
    requires { IsEnds ends × (IsPath path × InArea at) }
    ensures { (result ≡ dubins_guide ends path phase at) × (result.heading < 4096) }
{
    let start = ends.start;
    let end = ends.end;
    if phase == 3 {
        return straight_guide(start, path, at);
    }
    if phase < 3 {
        let centre = path.start;
        let passed = start_passed(path, phase, at);
        return circle_guide(
            centre,
            start,
            ends.radius,
            path.case.starts_right(),
            passed,
            at,
        );
    }
    let centre = path.end;
    let passed = end_passed(end, ends.arrive, phase, at);
    circle_guide(centre, end, ends.radius, path.case.ends_right(), passed, at)
}
