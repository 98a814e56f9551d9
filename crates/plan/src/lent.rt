// A plan whose numbers a caller lends where they lie, and its rules: nothing is copied to ask a question of it.
ghost use Rattle.plan.specs.Long.{Long};

use crate::{
    FEWEST_POINTS, Head, LAST_COURSE, LevelLeg, MOST_DOWN, MOST_LEVEL, MOST_POINTS, MOST_TURN,
    Mode, Plan, at_place, course_at, courses_fit, easy_square, ends_number, given_of, leg_ends,
    leg_found, level_leg_at, line_corner_number, number_places_fit, pair_number, point_at,
    radius_fits,
};
use dubins::Ends;
use plane::Point;
use refusals::Refusal;

// A plan by its head and four slices, each with a number for every place, and perhaps more.
#[derive(Clone, Copy)]
pub struct Lent<'a> {
    pub head: Head,
    pub norths: &'a [i32],
    pub easts: &'a [i32],
    pub downs: &'a [i32],
    pub courses: &'a [i32],
    pub ghost long: { Long norths.now easts.now downs.now courses.now },
}

impl Plan {
    ghost use Rattle.std.specs.Prelude.{◌≡◌};
    ghost use Rattle.plan.specs.Lent.{lent_plan};

    // The plan, lent by its own arrays.
    pub fn lent(&self) -> Lent<'_>
        ensures { lent_plan result ≡ self.now }
    {
        Lent {
            head: self.head,
            norths: &self.norths,
            easts: &self.easts,
            downs: &self.downs,
            courses: &self.courses,
        }
    }
}

impl Lent<'_> {
    ghost use Rattle.std.specs.Prelude.{◌≡◌, true, ℕ, ◌+◌, ◌-◌, ◌≤◌, ltb};
    ghost use Rattle.refusals.specs.Outcome.{and_then, good, is_good};
    ghost use Rattle.refusals.specs.Sweep.{Done, done, every, passed_of};
    ghost use Rattle.dubins.specs.Limits.{IsEnds};
    ghost use Rattle.plan.specs.declared.Mode.TheVariants.{Lines, Fillets, Dubins};
    ghost use Rattle.plan.specs.Limits.{most_points, most_radius};
    ghost use Rattle.plan.specs.Places.{plan_point, plan_course, no_course};
    ghost use Rattle.plan.specs.Rules.{ends_at, pairs_of, corners_of, legs_of, geometry_on};
    ghost use Rattle.plan.specs.Stands.{point_fits, places_fit, rules_of, stands_of, IsLevelLeg, LongAt, EasyAt, Bounded, Stands};
    ghost use Rattle.plan.specs.Lent.{lent_plan, PointThere, PointPlaced, CourseThere, PointsCounted, PlanFits};
    ghost use Rattle.plan.specs.Facts.{PlanFacts};

    // The point at a place.
    pub fn point_at(&self, i: usize) -> Point
        requires { PointThere (lent_plan self.now) i }
        ensures { result ≡ plan_point (lent_plan self.now) i }
    {
        point_at(self.norths, self.easts, self.downs, i)
    }

    // The course at a place.
    pub fn course_at(&self, i: usize) -> usize
        requires { CourseThere (lent_plan self.now) i }
        ensures { result ≡ plan_course (lent_plan self.now) i }
    {
        course_at(self.courses, i)
    }

    // The leg that starts at place i.
    pub fn level_leg_at(&self, i: usize) -> LevelLeg
        requires { PointPlaced (lent_plan self.now) i × PointPlaced (lent_plan self.now) (i + 1) }
        ensures { IsLevelLeg (plan_point (lent_plan self.now) i) (plan_point (lent_plan self.now) (i + 1)) result }
    {
        level_leg_at(self.norths, self.easts, self.downs, i)
    }

    // The ends of the leg of a Dubins plan that ends at place i.
    pub fn leg_ends(&self, i: usize) -> Ends
        requires points { (1 ≤ i) × (PointPlaced (lent_plan self.now) (i - 1) × PointPlaced (lent_plan self.now) i) }
        requires courses { (CourseThere (lent_plan self.now) (i - 1) × CourseThere (lent_plan self.now) i) × (self.now.head.radius ≤ most_radius) }
        ensures { (result ≡ ends_at self.now.head.radius (plan_point (lent_plan self.now)) (plan_course (lent_plan self.now)) (i - 1) i) × IsEnds result }
    {
        let radius = u64::from(self.head.radius);
        leg_ends(self.norths, self.easts, self.downs, self.courses, i, radius)
    }

    // Whether no pair is equal in north and east. Those that are get counted: without a way out of the loop the compiler takes several at once.
    fn all_apart(&self) -> bool
        requires { PointsCounted (lent_plan self.now) × (self.now.head.count ≤ most_points) }
        ensures { result ≡ is_good (pairs_of self.now.head.count (plan_point (lent_plan self.now))) }
    {
        let mut equal: u32 = 0;
        for i in 1..self.head.count {
            if pair_number(self.point_at(i - 1), self.point_at(i)).is_some() {
                equal += 1;
            }
        }
        equal == 0
    }

    // 10 at each pair, by its later point.
    fn pairs(&self) -> Result<(), Refusal>
        requires { PointsCounted (lent_plan self.now) }
        ensures { result ≡ passed_of (pairs_of self.now.head.count (plan_point (lent_plan self.now))) }
    {
        refusals::sweep(1..self.head.count, |i| {
            pair_number(self.point_at(i - 1), self.point_at(i))
        })
    }

    // 11 at each corner of a plan of lines.
    fn line_corners(&self) -> Result<(), Refusal>
        requires { PointsCounted (lent_plan self.now) }
        ensures { result ≡ passed_of (corners_of Lines self.now.head.count (plan_point (lent_plan self.now))) }
    {
        refusals::sweep(1..self.head.count - 1, |i| {
            line_corner_number(self.point_at(i - 1), self.point_at(i), self.point_at(i + 1))
        })
    }

    // 12 and 17 at each leg of a Dubins plan, by its end point.
    fn dubins_legs(&self) -> Result<(), Refusal>
        requires { PlanFits (lent_plan self.now) }
        ensures { result ≡ passed_of (legs_of Dubins self.now.head.radius self.now.head.count (plan_point (lent_plan self.now)) (plan_course (lent_plan self.now))) }
    {
        refusals::sweep(1..self.head.count, |i| ends_number(self.leg_ends(i)))
    }

    // Whether the leg to place i is so long, squared.
    fn long_at(&self, i: usize, least: u64) -> bool
        requires { (1 ≤ i) × (PointPlaced (lent_plan self.now) (i - 1) × PointPlaced (lent_plan self.now) i) }
        ensures { result ≡ true → LongAt least (plan_point (lent_plan self.now)) i }
    {
        least <= plane::squared(plane::level_leg(self.point_at(i - 1), self.point_at(i)))
    }

    // Whether products alone show that the leg to place i is so long, squared, and the turn there easy. Otherwise nothing is said of them.
    fn easy_at(&self, i: usize, least: u64) -> bool
        requires { (1 ≤ i) × (PointPlaced (lent_plan self.now) (i - 1) × (PointPlaced (lent_plan self.now) i × PointPlaced (lent_plan self.now) (i + 1))) }
        ensures { result ≡ true → EasyAt least (plan_point (lent_plan self.now)) i }
    {
        let a = self.point_at(i - 1);
        let b = self.point_at(i);
        let c = self.point_at(i + 1);
        let leg = plane::level_leg(a, b);
        if least <= plane::squared(leg) {
            let next = plane::level_leg(b, c);
            return fillets::turns_easily(leg, next);
        }
        false
    }

    // Whether products alone show that 11 and 12 refuse nothing of a fillet plan: all its turns are easy, and all legs long enough for two of them.
    // So it is with most plans of a survey, and no bearing is worked out. Otherwise nothing is said of the plan.
    fn all_easy(&self) -> bool
        requires { PlanFits (lent_plan self.now) }
        ensures { result ≡ true → and_then (corners_of Fillets self.now.head.count (plan_point (lent_plan self.now))) (λ (_ : Done). legs_of Fillets self.now.head.radius self.now.head.count (plan_point (lent_plan self.now)) no_course) ≡ good done }
    {
        let least = easy_square(u64::from(self.head.radius));
        let last = self.head.count - 1;
        for i in 1..last {
            if !self.easy_at(i, least) {
                return false;
            }
        }
        self.long_at(last, least)
    }

    // 11 at each corner, and then 12 at each leg of a fillet plan by its end point, in one pass: each leg and the turn at each corner are worked out
    // once and carried along. What a leg finds waits until all corners have passed. The first and the last point count as turns of 0, which have no
    // tangent length.
    fn turns_and_legs(&self) -> Result<(), Refusal>
        requires { PlanFits (lent_plan self.now) }
        ensures { result ≡ passed_of (and_then (corners_of Fillets self.now.head.count (plan_point (lent_plan self.now))) (λ (_ : Done). legs_of Fillets self.now.head.radius self.now.head.count (plan_point (lent_plan self.now)) no_course)) }
    {
        let radius = u64::from(self.head.radius);
        let last = self.head.count - 1;
        let mut leg = self.level_leg_at(0);
        let mut before: usize = 0;
        let mut found = Ok(());
        for i in 1..last {
            let next = self.level_leg_at(i);
            let turn = fillets::lesser_turn(leg.bearing, next.bearing);
            if MOST_TURN < turn {
                return Err(Refusal {
                    number: refusals::SHARP_CORNER,
                    place: i + 1,
                });
            }
            found = leg_found(found, leg.squared, radius, before, turn, i + 1);
            before = turn;
            leg = next;
        }
        leg_found(found, leg.squared, radius, before, 0, self.head.count)
    }

    // 11 and then 12 of a fillet plan. Its turns are worked out only where products do not show that all is well.
    fn fillet_rules(&self) -> Result<(), Refusal>
        requires { PlanFits (lent_plan self.now) }
        ensures { result ≡ passed_of (and_then (corners_of Fillets self.now.head.count (plan_point (lent_plan self.now))) (λ (_ : Done). legs_of Fillets self.now.head.radius self.now.head.count (plan_point (lent_plan self.now)) no_course)) }
    {
        if self.all_easy() {
            return Ok(());
        }
        self.turns_and_legs()
    }

    // All corners, then all legs. Lines have no rule on legs, and Dubins plans none on corners.
    fn corners_and_legs(&self) -> Result<(), Refusal>
        requires { PlanFits (lent_plan self.now) }
        ensures { result ≡ passed_of (and_then (corners_of self.now.head.mode self.now.head.count (plan_point (lent_plan self.now))) (λ (_ : Done). legs_of self.now.head.mode self.now.head.radius self.now.head.count (plan_point (lent_plan self.now)) (plan_course (lent_plan self.now)))) }
    {
        match self.head.mode {
            Mode::Lines => self.line_corners(),
            Mode::Fillets => self.fillet_rules(),
            Mode::Dubins => self.dubins_legs(),
        }
    }

    // All pairs, then all corners, then all legs. Which pair is equal is asked only where one is.
    fn geometry(&self) -> Result<(), Refusal>
        requires { PlanFits (lent_plan self.now) × (self.now.head.count ≤ most_points) }
        ensures { result ≡ passed_of (geometry_on self.now.head.mode self.now.head.radius self.now.head.count (plan_point (lent_plan self.now)) (plan_course (lent_plan self.now))) }
    {
        if self.all_apart() {
            return self.corners_and_legs();
        }
        self.pairs()
    }

    // Refusals 8 to 12 and 17 in their order, of a plan with courses given at so many points.
    pub fn rules(&self, given: usize) -> Result<(), Refusal>
        requires { Bounded (lent_plan self.now) }
        ensures { result ≡ passed_of (rules_of (lent_plan self.now) given) }
    {
        let count = self.head.count;
        if count < FEWEST_POINTS || MOST_POINTS < count {
            return Err(refusals::failed(refusals::POINT_COUNT));
        }
        if !courses_fit(self.head.radius, given, count) {
            return Err(refusals::failed(refusals::COURSE_COUNT));
        }
        self.geometry()
    }

    // Whether the points in use lie in the area and the others are zero.
    fn point_places_fit(&self) -> bool
        requires { self.now.head.count ≤ most_points }
        ensures { result ≡ every (λ (i : ℕ). point_fits (ltb i self.now.head.count) (plan_point (lent_plan self.now) i)) (most_points - 0) 0 }
    {
        let n = self.head.count;
        number_places_fit(self.norths, n, MOST_LEVEL, MOST_LEVEL)
            && number_places_fit(self.easts, n, MOST_LEVEL, MOST_LEVEL)
            && number_places_fit(self.downs, n, MOST_DOWN, MOST_DOWN)
    }

    // Whether every place of a plan fits, the unused ones too.
    fn places_fit(&self) -> bool
        requires { self.now.head.count ≤ most_points }
        ensures { result ≡ places_fit (lent_plan self.now) }
    {
        let given = given_of(self.head.mode, self.head.count);
        self.point_places_fit() && number_places_fit(self.courses, given, 0, LAST_COURSE)
    }

    // Whether lent numbers break no limit and no rule: refusal 14's part on the plan.
    pub fn stands(&self) -> bool
        ensures { (result ≡ stands_of (lent_plan self.now)) × ((result ≡ true → Stands (lent_plan self.now)) × PlanFacts) }
    {
        if self.head.serial == 0 || MOST_POINTS < self.head.count {
            return false;
        }
        if radius_fits(self.head.mode, self.head.radius) && self.places_fit() {
            return self
                .rules(given_of(self.head.mode, self.head.count))
                .is_ok();
        }
        false
    }
}
