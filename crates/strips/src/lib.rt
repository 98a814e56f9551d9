// Strip plans (docs/RULES.md, section 20): whether a state's plan is one, and the row of each strip. Points and courses are lent: nothing is copied
// to ask a question of it.
#![tactic(auto)]

ghost use Rattle.std.specs.Prelude.{◌≡◌, ◌≤◌, ◌<◌};
ghost use Rattle.refusals.specs.Sweep.{noted, passed_of};
ghost use Rattle.course.specs.Vectors.{Near};
ghost use Rattle.plan.specs.Limits.{most_points, full_circle};
ghost use Rattle.plan.specs.Places.{place_at, course_at, plan_point, plan_course};
ghost use Rattle.plan.specs.Stands.{Placed};
ghost use Rattle.plan.specs.Lent.{lent_plan};
ghost use Rattle.manager.specs.State.{with_progress};
ghost use Rattle.strips.specs.Strips.{first_place, last_place, strip_leg};
ghost use Rattle.strips.specs.Check.{opposed_of, rule_broken, fault_of, paired_of, check_of, checked_as, numbered, strip_of, strip_row, Tied, OneAnswer, StripThere, PlanStripThere, StripsThere};
ghost use Rattle.strips.specs.Holds.{StripsHold};

use course::Vector;
use manager::{Progress, State};
use plan::{Lent, Mode};
use refusals::Refusal;

// The units of a full circle.
const CIRCLE: usize = plan::FULL_CIRCLE as usize;

// The rules by their numbers, as `Keeps` and `FirstFault` name them: they go to C as they are (17.16), and an enum would be turned to its number.
const EQUAL_COURSES: u8 = 1;

const ALONG_THE_LEG: u8 = 2;

const AGAINST_THE_STRIP_BEFORE: u8 = 3;

// What is wrong with a state or its plan: the refusal, and of 18 the first strip at fault as the place, and the rule that it breaks; 0 and 0 where no
// strip is asked.
#[derive(Clone, Copy)]
pub struct Fault {
    pub refusal: u8,
    pub place: usize,
    pub rule: u8,
}

// The row of a strip: its number from 1, its course, and its length in north and east. Where there is no strip all three are 0, as 20.6 says, and no
// Option stands for it: `strip_row` in the contract of `row`.
#[derive(Clone, Copy)]
pub struct Strip {
    pub number: usize,
    pub course: usize,
    pub length: u64,
}

// What is told of strips: the check, which gives how many there are, and the row of one of them.
#[derive(Clone, Copy)]
pub struct Told {
    pub checked: Result<usize, Fault>,
    pub strip: Strip,
}

// Where the first point of a strip stands. The second stands behind it.
fn first_place(number: usize) -> usize
    requires { (1 ≤ number) × (number ≤ most_points) }
    ensures { result ≡ first_place number }
{
    2 * number - 2
}

// The leg of a strip in north and east.
fn leg_of(norths: &[i32], easts: &[i32], downs: &[i32], number: usize) -> Vector
    requires { ((1 ≤ number) × (number ≤ most_points)) × (Placed norths.now easts.now downs.now (first_place number) × Placed norths.now easts.now downs.now (last_place number)) }
    ensures { (result ≡ strip_leg (place_at norths.now easts.now downs.now) number) × Near 1000000 result }
{
    let i = first_place(number);
    let a = plan::point_at(norths, easts, downs, i);
    let b = plan::point_at(norths, easts, downs, i + 1);
    plane::level_leg(a, b)
}

// Whether two courses differ by half a circle, modulo a full one.
fn opposed(course: usize, before: usize) -> bool
    requires { (course < full_circle) × (before < full_circle) }
    ensures { result ≡ opposed_of course before }
{
    (course + CIRCLE - before) % CIRCLE == CIRCLE / 2
}

// The first rule that a strip breaks, if it breaks one.
fn rule_broken(plan: &Lent, number: usize) -> Option<u8>
    requires { PlanStripThere (lent_plan plan.now) number }
    ensures { result ≡ noted (rule_broken (plan_point (lent_plan plan.now)) (plan_course (lent_plan plan.now)) number) }
{
    let i = first_place(number);
    let course = plan.course_at(i);
    if course != plan.course_at(i + 1) {
        return Some(EQUAL_COURSES);
    }
    let leg = leg_of(plan.norths, plan.easts, plan.downs, number);
    if course != course::bearing(leg) {
        return Some(ALONG_THE_LEG);
    }
    if 2 <= number && !opposed(course, plan.course_at(first_place(number - 1))) {
        return Some(AGAINST_THE_STRIP_BEFORE);
    }
    None
}

// The first strip at fault as the place, and the first of its rules broken as the number.
fn first_fault(plan: &Lent) -> Result<(), Refusal>
    requires { StripsThere (lent_plan plan.now) }
    ensures { result ≡ passed_of (fault_of (plan_point (lent_plan plan.now)) (plan_course (lent_plan plan.now)) plan.now.head.count) }
{
    refusals::sweep(0..plan.head.count / 2, |i| rule_broken(plan, i + 1))
}

// Whether a plan is one of Dubins legs with an even number of points.
#[tactic(auto, unfolding(crate::specs::Check::paired_of, crate::specs::Check::is_dubins, conditions::specs::Both::both))]
fn paired(mode: Mode, count: usize) -> bool
    ensures { result ≡ paired_of mode count }
{
    match mode {
        Mode::Lines | Mode::Fillets => false,
        Mode::Dubins => count % 2 == 0,
    }
}

// A refusal before any strip is asked.
fn at_once(refusal: u8) -> Fault
    ensures { result ≡ record { refusal = refusal; place = 0; rule = 0 } }
{
    Fault {
        refusal,
        place: 0,
        rule: 0,
    }
}

// Whether a state, its plan lent, has a strip plan, and of how many strips.
// In line, as `told_from` is: the calls for C that ask for strips have one frame for all of it.
#[inline(always)]
fn check_from(plan: &Lent, progress: Progress) -> Result<usize, Fault>
    ensures { result ≡ checked_as (check_of (with_progress (lent_plan plan.now) progress)) }
{
    if !manager::valid(plan, progress) {
        return Err(at_once(refusals::NO_STATE));
    }
    if !paired(plan.head.mode, plan.head.count) {
        return Err(at_once(refusals::NOT_STRIPS));
    }
    match first_fault(plan) {
        Ok(()) => Ok(plan.head.count / 2),
        Err(found) => Err(Fault {
            refusal: refusals::NOT_STRIPS,
            place: found.place,
            rule: found.number,
        }),
    }
}

// The row of a strip of arrays that have it, and may end with it.
pub fn row_at(norths: &[i32], easts: &[i32], downs: &[i32], courses: &[i32], number: usize) -> Strip
    requires { StripThere norths.now easts.now downs.now courses.now number }
    ensures { result ≡ strip_of (place_at norths.now easts.now downs.now) (course_at courses.now) number }
{
    let course = plan::course_at(courses, first_place(number));
    let length = plane::length(leg_of(norths, easts, downs, number));
    Strip {
        number,
        course,
        length,
    }
}

// The check of a state, its plan lent, and the row of a strip by its number; zeros in the row where the plan is no strip plan, or has no such strip.
#[inline(always)]
pub fn told_from(plan: &Lent, progress: Progress, number: usize) -> Told
    ensures checked_value { result.checked ≡ checked_as (check_of (with_progress (lent_plan plan.now) progress)) }
    ensures strip_value { result.strip ≡ strip_row (with_progress (lent_plan plan.now) progress) number }
{
    let checked = check_from(plan, progress);
    let strip = match checked {
        Ok(strips) if 1 <= number && number <= strips => row_at(
            plan.norths,
            plan.easts,
            plan.downs,
            plan.courses,
            number,
        ),
        _ => Strip {
            number: 0,
            course: 0,
            length: 0,
        },
    };
    Told { checked, strip }
}

// Whether a state's plan is a strip plan, and of how many strips.
pub fn check(state: State) -> Result<usize, Fault>
    ensures { (result ≡ checked_as (check_of state)) × (Tied state (numbered result) × (OneAnswer × StripsHold)) }
{
    check_from(&state.plan.lent(), state.progress)
}

// The row of a state's strip by its number; zeros where the plan is no strip plan, or has no such strip.
pub fn row(state: State, number: usize) -> Strip
    ensures { result ≡ strip_row state number }
{
    told_from(&state.plan.lent(), state.progress, number).strip
}
