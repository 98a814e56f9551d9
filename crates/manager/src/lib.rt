// The state of a flight, and one fix at a time (docs/RULES.md, 7.13 to 7.15 and sections 8, 9 and 13). A fix is decided over a plan's small
// fields, how far it is flown, and its numbers, which are lent: nothing is copied.
#![tactic(auto)]

ghost use Rattle.std.specs.Prelude.{◌≡◌, true, false, ℕ, ◌≤◌, ◌<◌};
ghost use Rattle.refusals.specs.Numbers.{no_state};
ghost use Rattle.plane.specs.Area.{InArea};
ghost use Rattle.dubins.specs.Limits.{IsEnds};
ghost use Rattle.dubins.specs.Choice.{shortest_of};
ghost use Rattle.plan.specs.Limits.{most_points};
ghost use Rattle.plan.specs.Stands.{stands_of};
ghost use Rattle.plan.specs.Lent.{lent_plan};
ghost use Rattle.manager.specs.State.{empty_state, first_progress, with_progress, last_index, on_last_leg, last_phase, at_end, index_fits, phase_fits, end_fits, placed_of, valid_of, Valid};
ghost use Rattle.manager.specs.Step.{path_guide, guide_here, next_of, stepped_by, answering, refused_at, refuse_of, answered, moved_of, step_of};
ghost use Rattle.manager.specs.Finish.{Finishes};
ghost use Rattle.manager.specs.LastLeg.{LastLeg};
ghost use Rattle.manager.specs.Flies.{Flies};

use dubins::Ends;
use guidance::{Command, Guidance, View};
use plan::{Head, Lent, Mode, Plan};
use plane::Point;
use units::Fix;

// How far a plan is flown: the index of the point that is flown to, from 1, the phase there, and whether the end was reached.
#[derive(Clone, Copy)]
pub struct Progress {
    pub index: usize,
    pub phase: u8,
    pub finished: bool,
}

// A plan and how far it is flown.
#[derive(Clone, Copy)]
pub struct State {
    pub plan: Plan,
    pub progress: Progress,
}

// What a fix is answered. The refusal is a number of section 7, 0 for none, and no Result: a refused fix answers its index and phase as well
// (`refused_at`), and C gets all eight words.
#[derive(Clone, Copy)]
pub struct Answer {
    pub refusal: u8,
    pub place: usize,
    pub command: Command,
    pub heading: u16,
    pub index: usize,
    pub phase: u8,
    pub finished: bool,
}

// The answer, and how far the plan is flown after it.
#[derive(Clone, Copy)]
pub struct Decided {
    pub answer: Answer,
    pub progress: Progress,
}

// The answer, and the state for the next fix.
#[derive(Clone, Copy)]
pub struct Stepped {
    pub answer: Answer,
    pub state: State,
}

// The state of no plan, which every fix and write refuses.
pub fn empty() -> State
    ensures { (result ≡ empty_state) × ((valid_of result ≡ false) × ((serial : ℕ) (fix : Fix) → step_of result serial fix ≡ refuse_of result no_state)) }
{
    State {
        plan: Plan {
            head: Head {
                serial: 0,
                mode: Mode::Lines,
                radius: 0,
                count: 0,
            },
            norths: [0; plan::MOST_POINTS],
            easts: [0; plan::MOST_POINTS],
            downs: [0; plan::MOST_POINTS],
            courses: [0; plan::MOST_POINTS],
        },
        progress: Progress {
            index: 0,
            phase: 0,
            finished: false,
        },
    }
}

// How far a plan is flown at its start.
pub fn first() -> Progress
    ensures { (result ≡ first_progress) × ((p : Plan) → stands_of p ≡ true → valid_of (record { plan = p; progress = result }) ≡ true) }
{
    Progress {
        index: 2,
        phase: 1,
        finished: false,
    }
}

// The last index of count points, in every mode.
fn last_index(count: usize) -> usize
    ensures { result ≡ last_index count }
{
    count
}

// Whether the leg to the point of an index is the last one.
fn on_last_leg(count: usize, index: usize) -> bool
    ensures { result ≡ on_last_leg count index }
{
    index == last_index(count)
}

// The last phase at an index. There is no corner to round at the end of the last leg.
fn last_phase(head: Head, index: usize) -> u8
    ensures { result ≡ last_phase head.mode head.count index }
{
    match head.mode {
        Mode::Lines => 1,
        Mode::Fillets => if on_last_leg(head.count, index) { 1 } else { 2 },
        Mode::Dubins => 5,
    }
}

// Whether a flight is at the last index and phase.
#[tactic(auto, unfolding(crate::specs::State::at_end, conditions::specs::Both::both))]
fn at_end(head: Head, p: Progress) -> bool
    ensures { result ≡ at_end head.mode head.count p }
{
    conditions::both(
        on_last_leg(head.count, p.index),
        p.phase == last_phase(head, p.index),
    )
}

// Whether the index is one that a plan has.
#[tactic(auto, unfolding(crate::specs::State::index_fits, conditions::specs::Both::both))]
fn index_fits(head: Head, p: Progress) -> bool
    ensures { result ≡ index_fits head.count p }
{
    conditions::both(2 <= p.index, p.index <= last_index(head.count))
}

// Whether the phase is one that the mode allows at the index.
#[tactic(auto, unfolding(crate::specs::State::phase_fits, conditions::specs::Both::both))]
fn phase_fits(head: Head, p: Progress) -> bool
    ensures { result ≡ phase_fits head.mode head.count p }
{
    conditions::both(1 <= p.phase, p.phase <= last_phase(head, p.index))
}

// Whether a flight that is finished is at the last index and phase.
#[tactic(auto, unfolding(crate::specs::State::end_fits, conditions::specs::Choose::choose))]
fn end_fits(head: Head, p: Progress) -> bool
    ensures { result ≡ end_fits head.mode head.count p }
{
    !p.finished || at_end(head, p)
}

// Whether index, phase and finished are such as the mode allows.
#[tactic(auto, unfolding(crate::specs::State::placed_of, conditions::specs::Both::both))]
fn placed(head: Head, p: Progress) -> bool
    ensures { result ≡ placed_of head.mode head.count p }
{
    conditions::both(
        index_fits(head, p),
        conditions::both(phase_fits(head, p), end_fits(head, p)),
    )
}

// Whether a state, its plan lent, is not refused 14.
// In line: with a frame of its own it would lie under the rules of a plan on the deepest stack of the calls for C.
#[inline(always)]
pub fn valid(plan: &Lent, progress: Progress) -> bool
    ensures { (result ≡ valid_of (with_progress (lent_plan plan.now) progress)) × (result ≡ true → Valid (with_progress (lent_plan plan.now) progress)) }
{
    plan.stands() && placed(plan.head, progress)
}

// The guidance on a Dubins leg. The path is worked out afresh.
fn path_guide(ends: Ends, phase: u8, at: Point) -> Guidance
    requires { IsEnds ends × InArea at }
    ensures { (result ≡ path_guide ends phase at (shortest_of ends)) × (result.heading < 4096) }
{
    match dubins::shortest_path(ends) {
        Some(path) => guidance::dubins_guide(ends, path, phase, at),
        None => Guidance {
            command: Command::Nothing,
            heading: 0,
            passed: false,
        },
    }
}

// The guidance at an index and phase. Point i lies at place i - 1. Unless the leg is the last one a point comes behind it.
fn guide(plan: &Lent, progress: Progress, at: Point) -> Guidance
    requires { Valid (with_progress (lent_plan plan.now) progress) × InArea at }
    ensures { (result ≡ guide_here (with_progress (lent_plan plan.now) progress) at) × (result.heading < 4096) }
{
    let i = progress.index;
    let last = on_last_leg(plan.head.count, i);
    let a = plan.point_at(i - 2);
    let b = plan.point_at(i - 1);
    match plan.head.mode {
        Mode::Lines => {
            if last {
                return guidance::last_leg_guide(View::InSpace, a, b, at);
            }
            guidance::line_guide(a, b, plan.point_at(i), at)
        }
        Mode::Fillets => {
            if last {
                return guidance::last_leg_guide(View::Level, a, b, at);
            }
            let radius = u64::from(plan.head.radius);
            guidance::fillet_guide(a, b, plan.point_at(i), radius, progress.phase, at)
        }
        Mode::Dubins => path_guide(plan.leg_ends(i - 1), progress.phase, at),
    }
}

// How far the plan is flown after a fix that ended its phase, or did not.
#[tactic(auto, unfolding(crate::specs::Step::next_of, conditions::specs::Choose::choose))]
fn next(head: Head, p: Progress, passed: bool) -> Progress
    requires { p.index ≤ most_points }
    ensures { result ≡ next_of head.mode head.count p passed }
{
    if !passed {
        p
    } else if p.phase < last_phase(head, p.index) {
        Progress {
            phase: p.phase + 1,
            ..p
        }
    } else if on_last_leg(head.count, p.index) {
        Progress {
            finished: true,
            ..p
        }
    } else {
        Progress {
            index: p.index + 1,
            phase: 1,
            ..p
        }
    }
}

// What is decided of a fix: a number, a command and a heading, and how far the plan is flown after it.
fn answering(number: u8, command: Command, heading: u16, progress: Progress) -> Decided
    ensures { result ≡ answering number command heading progress }
{
    let answer = Answer {
        refusal: number,
        place: 0,
        command,
        heading,
        index: progress.index,
        phase: progress.phase,
        finished: progress.finished,
    };
    Decided { answer, progress }
}

// A refusal: no command, heading 0, as far as before.
fn refuse(progress: Progress, number: u8) -> Decided
    ensures { result ≡ refused_at progress number }
{
    answering(number, Command::Nothing, 0, progress)
}

// The answer by a guidance, and how far the plan is flown after it.
fn accept(g: Guidance, progress: Progress) -> Decided
    requires { g.heading < 4096 }
    ensures { result ≡ answered g progress }
{
    answering(0, g.command, g.heading as u16, progress)
}

// A fix that no number refuses, at its position.
fn moved(plan: &Lent, progress: Progress, at: Point) -> Decided
    requires { Valid (with_progress (lent_plan plan.now) progress) × InArea at }
    ensures { stepped_by (lent_plan plan.now) result ≡ moved_of (with_progress (lent_plan plan.now) progress) at }
{
    let g = guide(plan, progress, at);
    accept(g, next(plan.head, progress, g.passed))
}

// One fix: the command of the index and phase before it, and how far the plan is flown after it.
pub fn decide(plan: &Lent, progress: Progress, serial: u32, fix: Fix) -> Decided
    ensures { stepped_by (lent_plan plan.now) result ≡ step_of (with_progress (lent_plan plan.now) progress) serial fix }
{
    if !valid(plan, progress) {
        return refuse(progress, refusals::NO_STATE);
    }
    if serial != plan.head.serial {
        return refuse(progress, refusals::OTHER_SERIAL);
    }
    match units::locate(fix) {
        Some(at) => moved(plan, progress, at),
        None => refuse(progress, refusals::NO_POSITION),
    }
}

impl State {
    // One fix of a state, which lends its own numbers.
    pub fn step(self, serial: u32, fix: Fix) -> Stepped
        ensures { (result ≡ step_of self serial fix) × (Finishes self fix result × (Flies self serial fix result × LastLeg)) }
    {
        let decided = decide(&self.plan.lent(), self.progress, serial, fix);
        Stepped {
            answer: decided.answer,
            state: State {
                progress: decided.progress,
                ..self
            },
        }
    }
}
