// The four cases of a Dubins leg and the shortest of them (docs/RULES.md, section 12).
#![tactic(auto)]

ghost use Rattle.std.specs.Prelude.{◌≡◌, true, ℕ, ◌+◌, ◌≤◌, ◌<◌, leb, Option};
ghost use Rattle.course.specs.Vectors.{Near};
ghost use Rattle.plane.specs.declared.Point.{Point};
ghost use Rattle.plane.specs.Area.{InArea};
ghost use Rattle.plane.specs.Level.{minus};
ghost use Rattle.dubins.specs.declared.Path.{Path};
ghost use Rattle.dubins.specs.Limits.{IsEnds, IsCircles, IsPath, IsFound};
ghost use Rattle.dubins.specs.Cases.{starts_right, ends_right, right_at_start, right_at_end, SidesByNumber, same_side, centre_of, circles_of, tangent_exists, straight_of, inner_tangent, straight_course, arc_turn, case_length, touch_of, path_of, case_exists};
ghost use Rattle.dubins.specs.Choice.{case_path, shorter_of, shortest_of, found_length, has_path_of, far_apart, Chosen, Existence};
ghost use Rattle.dubins.specs.HandLegs.{HandLegs};
ghost use Rattle.dubins.specs.Ways.{AreCentres, IsWay, IsTried, path_along, found_by, no_length, Measures};

use course::Vector;
use plane::Point;

// The cases of a leg, in the rules' order: the side of the circle at the start, a straight part, the side of the circle at the end.
#[derive(Clone, Copy, PartialEq, Eq)]
pub enum Case {
    Rsr,
    Rsl,
    Lsr,
    Lsl,
}

impl Case {
    // Whether the circle at the start is a right one.
    pub fn starts_right(self) -> bool
        ensures { result ≡ starts_right self }
    {
        matches!(self, Case::Rsr | Case::Rsl)
    }

    // Whether the circle at the end is a right one.
    pub fn ends_right(self) -> bool
        ensures { result ≡ ends_right self }
    {
        matches!(self, Case::Rsr | Case::Lsr)
    }

    // Whether both circles lie on the same side.
    fn same_side(self) -> bool
        ensures { result ≡ same_side self }
    {
        self.starts_right() == self.ends_right()
    }
}

// The same of a case's number, 1 to 4 in the order above; any other number goes by the same rule.
#[tactic(auto, using(crate::proofs::SideLaws::sides), unfolding(crate::specs::Cases::right_at_start))]
pub fn starts_right(case: u8) -> bool
    ensures value { result ≡ right_at_start case }
    ensures sides { SidesByNumber }
{
    case <= 2
}

#[tactic(auto, using(crate::proofs::SideLaws::sides), unfolding(crate::specs::Cases::right_at_end))]
pub fn ends_right(case: u8) -> bool
    ensures value { result ≡ right_at_end case }
    ensures sides { SidesByNumber }
{
    case % 2 == 1
}

// The ends of a leg: its points, the courses to leave and to arrive on, the radius of the circles.
// Their bounds stand in clauses, as `IsEnds`, and not in the type: the definition `ends_at` (plan/specs/Rules) makes the ends of a leg of any plan.
#[derive(Clone, Copy)]
pub struct Ends {
    pub start: Point,
    pub leave: usize,
    pub end: Point,
    pub arrive: usize,
    pub radius: u64,
}

// The centres of the circles to the right and to the left of an end of a leg.
#[derive(Clone, Copy)]
struct Centres {
    right: Vector,
    left: Vector,
}

// A leg with both centres at each of its ends, which are worked out once for all cases.
#[derive(Clone, Copy)]
struct Sides {
    ends: Ends,
    from: Centres,
    to: Centres,
    ghost low: { IsEnds ends },
    ghost start: { AreCentres ends.start ends.radius ends.leave from },
    ghost end: { AreCentres ends.end ends.radius ends.arrive to },
}

// The circles of a case: their centres, and v from the start's to the end's.
#[derive(Clone, Copy)]
struct Circles {
    start: Vector,
    end: Vector,
    v: Vector,
}

// A leg by one case: the centres of its circles, the course of the straight part from z1 to z2, the length of the whole.
#[derive(Clone, Copy)]
pub struct Path {
    pub case: Case,
    pub course: usize,
    pub length: u64,
    pub start: Vector,
    pub end: Vector,
    pub z1: Vector,
    pub z2: Vector,
}

// A path without z1 and z2, which only the shortest needs.
#[derive(Clone, Copy)]
struct Way {
    case: Case,
    course: usize,
    length: u64,
    start: Vector,
    end: Vector,
}

// More than a leg is long by any case.
const NO_LENGTH: u64 = 2000000;

// The centre of the circle to the right or to the left of a point with a course.
fn centre(p: Point, radius: u64, course: usize, right: bool) -> Vector
    requires { InArea p × ((radius ≤ 10000) × (course < 4096)) }
    ensures { (result ≡ centre_of p radius course right) × Near 510000 result }
{
    let side = plane::sideways(course, right);
    let across = course::offset(radius, side);
    let from = plane::level(p);
    plane::sum(from, across)
}

// The circles of a case, from their centres.
fn circles_at(start: Vector, end: Vector) -> Circles
    requires { Near 510000 start × Near 510000 end }
    ensures { (result ≡ record { start = start; end = end; v = minus end start }) × IsCircles result }
{
    let v = plane::vector_between(start, end);
    Circles { start, end, v }
}

// The circles of a case of a leg.
fn circles_of(ends: Ends, case: Case) -> Circles
    requires { IsEnds ends }
    ensures { (result ≡ circles_of ends case) × IsCircles result }
{
    let from = ends.start;
    let to = ends.end;
    let start = centre(from, ends.radius, ends.leave, case.starts_right());
    let end = centre(to, ends.radius, ends.arrive, case.ends_right());
    circles_at(start, end)
}

// Both centres at a point with a course.
fn both_centres(p: Point, radius: u64, course: usize) -> Centres
    requires { InArea p × ((radius ≤ 10000) × (course < 4096)) }
    ensures { AreCentres p radius course result }
{
    let right = centre(p, radius, course, true);
    let left = centre(p, radius, course, false);
    Centres { right, left }
}

// Of both centres at an end, the one to the right or to the left.
fn centre_on(centres: Centres, right: bool) -> Vector
    ensures { (p : Point) (R χ : ℕ) → AreCentres p R χ centres → (result ≡ centre_of p R χ right) × Near 510000 result }
{
    if right { centres.right } else { centres.left }
}

// Whether the circles of a case, v apart, have the tangent that it flies along.
fn tangent_exists(v: Vector, radius: u64, case: Case) -> bool
    requires { Near 1020000 v × (radius ≤ 10000) }
    ensures { result ≡ tangent_exists case radius v }
{
    let square = plane::squared(v);
    if case.same_side() {
        0 < square
    } else {
        4 * radius * radius <= square
    }
}

// The length of the straight part. Where the case exists, the root is of no negative number.
fn straight(v: Vector, radius: u64, case: Case) -> u64
    requires { Near 1020000 v × ((radius ≤ 10000) × (tangent_exists case radius v ≡ true)) }
    ensures { (result ≡ straight_of case radius v) × (result ≤ 1442497) }
{
    let square = plane::squared(v);
    if case.same_side() {
        integers::root(square)
    } else {
        integers::root(square - 4 * radius * radius)
    }
}

// A vector along the straight part of RSL, which starts right, or of LSR; s is its length.
fn inner_tangent(v: Vector, s: u64, radius: u64, right: bool) -> Vector
    requires { Near 1020000 v × ((s ≤ 1442497) × (radius ≤ 10000)) }
    ensures { (result ≡ inner_tangent right radius s v) × Near 1491746940000 result }
{
    let length = s as i64;
    let width = (2 * radius) as i64;
    if right {
        Vector {
            north: length * v.north - width * v.east,
            east: length * v.east + width * v.north,
        }
    } else {
        Vector {
            north: length * v.north + width * v.east,
            east: length * v.east - width * v.north,
        }
    }
}

// The course of the straight part of length s.
fn straight_course(v: Vector, s: u64, radius: u64, case: Case) -> usize
    requires { Near 1020000 v × ((s ≤ 1442497) × (radius ≤ 10000)) }
    ensures { (result ≡ straight_course case radius s v) × (result < 4096) }
{
    if case.same_side() {
        course::bearing(v)
    } else {
        course::bearing(inner_tangent(v, s, radius, case.starts_right()))
    }
}

// How far a right or a left turn goes from one course to another.
fn turn(from: usize, to: usize, right: bool) -> u64
    requires { (from < 4096) × (to < 4096) }
    ensures { (result ≡ arc_turn from to right) × (result < 4096) }
{
    if right {
        ((to + 4096 - from) % 4096) as u64
    } else {
        ((from + 4096 - to) % 4096) as u64
    }
}

// Where a straight part with a course touches a right or a left circle.
fn touch(centre: Vector, radius: u64, course: usize, right: bool) -> Vector
    requires { Near 510000 centre × ((radius ≤ 10000) × (course < 4096)) }
    ensures { (result ≡ touch_of centre radius course right) × Near 520000 result }
{
    let side = plane::sideways(course, !right);
    let across = course::offset(radius, side);
    plane::sum(centre, across)
}

// The length of a case with its two arcs, from the length and the course of its straight part.
fn case_length(ends: Ends, case: Case, s: u64, course: usize) -> u64
    requires { IsEnds ends × ((s ≤ 1442497) × (course < 4096)) }
    ensures { (result ≡ case_length ends case s course) × (result ≤ 1568130) }
{
    let start_turn = turn(ends.leave, course, case.starts_right());
    let end_turn = turn(course, ends.arrive, case.ends_right());
    s + plane::arc(ends.radius, start_turn + end_turn)
}

// The way of a case, from its circles and the length and the course of its straight part.
fn way_of(ends: Ends, case: Case, circles: Circles, s: u64, course: usize) -> Way
    requires { IsEnds ends × (IsCircles circles × ((s ≤ 1442497) × (course < 4096))) }
    ensures { (path_along ends.radius result ≡ path_of ends case circles s course) × IsWay result }
{
    let start = circles.start;
    let end = circles.end;
    let length = case_length(ends, case, s, course);
    Way {
        case,
        course,
        length,
        start,
        end,
    }
}

// Whether a case of a leg exists.
fn case_exists(ends: Ends, case: Case) -> bool
    requires { IsEnds ends }
    ensures { result ≡ case_exists ends case }
{
    let circles = circles_of(ends, case);
    let v = circles.v;
    tangent_exists(v, ends.radius, case)
}

// The shorter of what was found before and a way, the earlier on a tie.
fn shorter(best: Option<Way>, later: Way) -> Way
    requires { IsTried best × IsWay later }
    ensures { ((R : ℕ) → Some (path_along R result) ≡ shorter_of (found_by R best) (Some (path_along R later))) × IsWay result }
{
    match best {
        Some(earlier) => if earlier.length <= later.length {
            earlier
        } else {
            later
        },
        None => later,
    }
}

// The length of what was found, and more than any length where nothing was.
fn length_before(best: Option<Way>) -> u64
    requires { IsTried best }
    ensures { (R : ℕ) → Measures (found_by R best) result }
{
    best.map_or(NO_LENGTH, |way| way.length)
}

// What both turns of a case come to at least, whatever the course between them: the turn from course to course on the side of both circles, and
// between circles on either side the lesser of the two.
fn least_turn(ends: Ends, case: Case) -> u64
    requires { IsEnds ends }
    ensures { ((θ : ℕ) → θ < 4096 → result ≤ arc_turn ends.leave θ (starts_right case) + arc_turn θ ends.arrive (ends_right case)) × (result < 4096) }
{
    let right = turn(ends.leave, ends.arrive, true);
    let left = turn(ends.leave, ends.arrive, false);
    if case.same_side() {
        if case.starts_right() { right } else { left }
    } else {
        right.min(left)
    }
}

// Whether the straight part of a case with v between its centres and its arcs are as long as a length. Squares are compared, so that no root is
// worked out.
fn as_long(length: u64, arcs: u64, v: Vector, radius: u64, case: Case) -> bool
    requires { (length ≤ no_length) × (Near 1020000 v × (radius ≤ 10000)) }
    ensures { result ≡ leb length (straight_of case radius v + arcs) }
{
    if length <= arcs {
        return true;
    }
    let rest = length - arcs;
    if case.same_side() {
        rest * rest <= plane::squared(v)
    } else {
        rest * rest + 4 * radius * radius <= plane::squared(v)
    }
}

// Whether a case with v between its centres is seen without a root to be no shorter than a length: by the least that its turns come to, and where both
// circles lie on the same side, so that its course needs no root, by its own arcs.
fn no_shorter(length: u64, ends: Ends, v: Vector, case: Case) -> bool
    requires { IsEnds ends × Near 1020000 v }
    ensures { result ≡ true → (length < no_length) × (length ≤ case_length ends case (straight_of case ends.radius v) (straight_course case ends.radius (straight_of case ends.radius v) v)) }
{
    if NO_LENGTH <= length {
        return false;
    }
    if as_long(
        length,
        plane::arc(ends.radius, least_turn(ends, case)),
        v,
        ends.radius,
        case,
    ) {
        return true;
    }
    if case.same_side() {
        return as_long(
            length,
            case_length(ends, case, 0, course::bearing(v)),
            v,
            ends.radius,
            case,
        );
    }
    false
}

impl Sides {
    // Both centres at each end of a leg.
    fn new(ends: Ends) -> Sides
        requires { IsEnds ends }
        ensures { result.ends ≡ ends }
    {
        let start = ends.start;
        let end = ends.end;
        Sides {
            ends,
            from: both_centres(start, ends.radius, ends.leave),
            to: both_centres(end, ends.radius, ends.arrive),
        }
    }

    // The circles of a case.
    fn circles(self, case: Case) -> Circles
        ensures { (result ≡ circles_of self.ends case) × IsCircles result }
    {
        let start = centre_on(self.from, case.starts_right());
        let end = centre_on(self.to, case.ends_right());
        circles_at(start, end)
    }

    // The shorter of what was found before and a case. Roots and bearings are dear, so those of a case that is seen not to win are not worked out.
    fn better(self, best: Option<Way>, case: Case) -> Option<Way>
        requires { IsTried best }
        ensures { (found_by self.ends.radius result ≡ shorter_of (found_by self.ends.radius best) (case_path self.ends case)) × IsTried result }
    {
        let ends = self.ends;
        let circles = self.circles(case);
        let v = circles.v;
        if !tangent_exists(v, ends.radius, case) {
            return best;
        }
        if no_shorter(length_before(best), ends, v, case) {
            return best;
        }
        let s = straight(v, ends.radius, case);
        let course = straight_course(v, s, ends.radius, case);
        Some(shorter(best, way_of(ends, case, circles, s, course)))
    }

    // The lesser of a length and that of a case; a case that does not exist has none.
    fn better_length(self, best: u64, case: Case) -> u64
        ensures { (f : Option Path) → Measures f best → Measures (shorter_of f (case_path self.ends case)) result }
    {
        let ends = self.ends;
        let circles = self.circles(case);
        let v = circles.v;
        if !tangent_exists(v, ends.radius, case) {
            return best;
        }
        if no_shorter(best, ends, v, case) {
            return best;
        }
        let s = straight(v, ends.radius, case);
        let course = straight_course(v, s, ends.radius, case);
        best.min(case_length(ends, case, s, course))
    }

    // Whether the circles to the left are nearer to each other than those to the right. It decides nothing but what is worked out first.
    fn left_nearer(self) -> bool {
        let right = self.circles(Case::Rsr);
        let left = self.circles(Case::Lsl);
        plane::squared(left.v) < plane::squared(right.v)
    }

    // The lesser length of RSR and LSL: that of the nearer circles first, so that the other's is mostly not worked out.
    fn outer_length(self) -> u64
        ensures { Measures (shorter_of (shorter_of None (case_path self.ends Case.Rsr)) (case_path self.ends Case.Lsl)) result }
    {
        if self.left_nearer() {
            let lsl = self.better_length(NO_LENGTH, Case::Lsl);
            self.better_length(lsl, Case::Rsr)
        } else {
            let rsr = self.better_length(NO_LENGTH, Case::Rsr);
            self.better_length(rsr, Case::Lsl)
        }
    }
}

// The path along a way, with the points where its straight part touches the circles.
fn path_along(way: Way, radius: u64) -> Path
    requires { IsWay way × (radius ≤ 10000) }
    ensures { (result ≡ path_along radius way) × IsPath result }
{
    let start = way.start;
    let end = way.end;
    let z1 = touch(start, radius, way.course, way.case.starts_right());
    let z2 = touch(end, radius, way.course, way.case.ends_right());
    Path {
        case: way.case,
        course: way.course,
        length: way.length,
        start,
        end,
        z1,
        z2,
    }
}

// The path of a case that was tried, where that exists.
fn found_by(tried: Option<Way>, radius: u64) -> Option<Path>
    requires { IsTried tried × (radius ≤ 10000) }
    ensures { (result ≡ found_by radius tried) × IsFound result }
{
    tried.map(|way| path_along(way, radius))
}

// The shortest leg by any case. The centres are worked out once for all cases, z1 and z2 for the shortest alone.
pub fn shortest_path(ends: Ends) -> Option<Path>
    requires { IsEnds ends }
    ensures value { result ≡ shortest_of ends }
    ensures found { IsFound result }
    ensures chosen { Chosen ends result × HandLegs }
{
    let sides = Sides::new(ends);
    let rsr = sides.better(None, Case::Rsr);
    let rsl = sides.better(rsr, Case::Rsl);
    let lsr = sides.better(rsl, Case::Lsr);
    let lsl = sides.better(lsr, Case::Lsl);
    found_by(lsl, ends.radius)
}

// The length of the shortest leg by any case, 0 where none exists. Only lengths are carried from case to case, no way; the least is the same in any
// order, and RSR and LSL, whose courses need no root, come first.
pub fn shortest_length(ends: Ends) -> u64
    requires { IsEnds ends }
    ensures { (result ≡ found_length (shortest_of ends)) × (result ≤ 2000000) }
{
    let sides = Sides::new(ends);
    let rsl = sides.better_length(sides.outer_length(), Case::Rsl);
    let best = sides.better_length(rsl, Case::Lsr);
    if best < NO_LENGTH { best } else { 0 }
}

// Whether any case exists, with no bearing and no root worked out.
pub fn has_path(ends: Ends) -> bool
    requires { IsEnds ends }
    ensures value { result ≡ has_path_of ends }
    ensures existence { Existence ends }
{
    case_exists(ends, Case::Rsr)
        || case_exists(ends, Case::Rsl)
        || case_exists(ends, Case::Lsr)
        || case_exists(ends, Case::Lsl)
}

// Whether the squared distance in north and east is at least 9 R².
pub fn far_apart(a: Point, b: Point, radius: u64) -> bool
    requires { InArea a × (InArea b × (radius ≤ 10000)) }
    ensures { result ≡ far_apart a b radius }
{
    let d = plane::vector_between(plane::level(a), plane::level(b));
    9 * radius * radius <= plane::squared(d)
}
