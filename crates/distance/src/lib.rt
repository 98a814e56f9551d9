// The distance to go (docs/RULES.md, section 21): the table of a plan, and what is left from the index of a state on. Both add up in one pass from
// the last leg to the first, in which each leg and each corner is worked out once. The plan's numbers are lent.
#![tactic(auto)]

ghost use Rattle.std.specs.Prelude.{◌≡◌, true, ℕ, ◌+◌, ◌-◌, ◌≤◌, ◌<◌, length};
ghost use Rattle.refusals.specs.Sweep.{passed_of};
ghost use Rattle.plan.specs.declared.Mode.TheVariants.{Fillets};
ghost use Rattle.plan.specs.Limits.{most_radius};
ghost use Rattle.plan.specs.Places.{plan_point};
ghost use Rattle.plan.specs.Stands.{IsLevelLeg};
ghost use Rattle.plan.specs.Lent.{lent_plan, PointPlaced};
ghost use Rattle.manager.specs.State.{with_progress};
ghost use Rattle.distance.specs.Lengths.{level_length, plan_length};
ghost use Rattle.distance.specs.Table.{distances_of, table_of, distance_of, distance_by, Summary, OneTable, AtIndex};
ghost use Rattle.distance.specs.Pass.{Sound, CornerThere, Rounded, AddedUp, told_from};
ghost use Rattle.distance.specs.Kept.{TableKept, ToldAtTheLoad};
ghost use Rattle.distance.specs.Holds.{DistancesHold};

use manager::{Progress, State};
use plan::{Lent, LevelLeg, Mode};
use refusals::Refusal;

// A corner of a fillet plan: the length of its arc and its tangent length, and the leg to it.
#[derive(Clone, Copy)]
struct Rounding {
    arc: u64,
    tangent: u64,
    leg: LevelLeg,
}

// What the pass carries to the leg that ends at a place: all that lies behind it, and in fillets the corner there, which is not in that yet.
// No Option for the corner: a step over a leg of fillets would get an arm for none, which never runs.
#[derive(Clone, Copy)]
struct Carry {
    left: u64,
    corner: Rounding,
}

// The length in north and east of the leg that ends at place i.
fn level_length(plan: &Lent, i: usize) -> u64
    requires { (1 ≤ i) × (PointPlaced (lent_plan plan.now) (i - 1) × PointPlaced (lent_plan plan.now) i) }
    ensures { (result ≡ level_length (plan_point (lent_plan plan.now)) i) × (result ≤ 2828427) }
{
    plane::length(plane::level_leg(plan.point_at(i - 1), plan.point_at(i)))
}

// The corner at the start of the leg that ends at place i, and the leg to it. Nothing is turned at the first point.
fn corner_before(plan: &Lent, leg: LevelLeg, i: usize) -> Rounding
    requires le_i { (1 ≤ i) × ((plan.now.head.radius ≤ most_radius) × IsLevelLeg (plan_point (lent_plan plan.now) (i - 1)) (plan_point (lent_plan plan.now) i) leg) }
    requires corner_there { 2 ≤ i → CornerThere (lent_plan plan.now) i }
    ensures { (n : ℕ) → i < n → Rounded plan.now.head.radius n (plan_point (lent_plan plan.now)) (i - 1) result }
{
    if i < 2 {
        return Rounding {
            arc: 0,
            tangent: 0,
            leg,
        };
    }
    let radius = u64::from(plan.head.radius);
    let before = plan.level_leg_at(i - 2);
    let turn = fillets::lesser_turn(before.bearing, leg.bearing);
    let arc = plane::arc(radius, turn as u64);
    let tangent = fillets::tangent_length(radius, turn);
    Rounding {
        arc,
        tangent,
        leg: before,
    }
}

// The last point, which is no corner, and in fillets the leg to it.
fn last_corner(plan: &Lent) -> Rounding
    requires { (2 ≤ plan.now.head.count) × (PointPlaced (lent_plan plan.now) (plan.now.head.count - 2) × PointPlaced (lent_plan plan.now) (plan.now.head.count - 2 + 1)) }
    ensures { plan.now.head.mode ≡ Fillets → (R : ℕ) → Rounded R plan.now.head.count (plan_point (lent_plan plan.now)) (plan.now.head.count - 1) result }
{
    let leg = match plan.head.mode {
        Mode::Fillets => plan.level_leg_at(plan.head.count - 2),
        Mode::Lines | Mode::Dubins => LevelLeg {
            bearing: 0,
            squared: 0,
        },
    };
    Rounding {
        arc: 0,
        tangent: 0,
        leg,
    }
}

// The pass over the leg that ends at place i.
fn step(plan: &Lent, carry: Carry, i: usize) -> Carry
    requires sound { Sound (lent_plan plan.now) }
    requires le_i { (1 ≤ i) × AddedUp (lent_plan plan.now) i carry }
    ensures { AddedUp (lent_plan plan.now) (i - 1) result }
{
    let end = carry.corner;
    match plan.head.mode {
        Mode::Lines => Carry {
            left: carry.left + level_length(plan, i),
            ..carry
        },
        Mode::Fillets => {
            let length = integers::root(end.leg.squared);
            let start = corner_before(plan, end.leg, i);
            let straight = length - (start.tangent + end.tangent);
            Carry {
                left: carry.left + end.arc + straight,
                corner: start,
            }
        }
        Mode::Dubins => Carry {
            left: carry.left + dubins::shortest_length(plan.leg_ends(i)),
            ..carry
        },
    }
}

// Before the last leg nothing is added up.
fn begin(plan: &Lent) -> Carry
    requires { (2 ≤ plan.now.head.count) × (PointPlaced (lent_plan plan.now) (plan.now.head.count - 2) × PointPlaced (lent_plan plan.now) (plan.now.head.count - 2 + 1)) }
    ensures { AddedUp (lent_plan plan.now) (plan.now.head.count - 1) result }
{
    Carry {
        left: 0,
        corner: last_corner(plan),
    }
}

// What is left from the leg that ends at a place on. The entry of each index from there on is written to the table, which has all of them or is empty.
fn measure(plan: &Lent, place: usize, table: &mut [u32]) -> u32
    requires sound { Sound (lent_plan plan.now) }
    requires le_place { (1 ≤ place) × (place < plan.now.head.count) }
    ensures value { result ≡ plan_length (lent_plan plan.now) place }
    ensures table_after { plan.now.head.count < length table.old → table.new ≡ told_from (lent_plan plan.now) place table.old }
{
    let mut carry = begin(plan);
    for i in (place..plan.head.count).rev() {
        carry = step(plan, carry, i);
        if i + 1 < table.len() {
            table[i + 1] = carry.left as u32;
        }
    }
    carry.left as u32
}

// The table of a plan that is lent and how far it is flown. Refused, nothing is written.
pub fn distances_from(plan: &Lent, progress: Progress, table: &mut [u32]) -> Result<(), Refusal>
    ensures value { result ≡ passed_of (distances_of (with_progress (lent_plan plan.now) progress) (length table.old)) }
    ensures table_after { table.new ≡ table_of (distances_of (with_progress (lent_plan plan.now) progress) (length table.old)) table.old }
{
    if !manager::valid(plan, progress) {
        return Err(refusals::failed(refusals::NO_STATE));
    }
    if table.len() <= plan.head.count {
        return Err(refusals::failed(refusals::NO_ROOM));
    }
    measure(plan, 1, table);
    Ok(())
}

// What is left of a plan that is lent from the index on to which it is flown, in decimetres.
pub fn distance_from(plan: &Lent, progress: Progress) -> Result<u32, Refusal>
    ensures { result ≡ distance_by (distance_of (with_progress (lent_plan plan.now) progress)) }
{
    if !manager::valid(plan, progress) {
        return Err(refusals::failed(refusals::NO_STATE));
    }
    Ok(measure(plan, progress.index - 1, &mut []))
}

// The distance to go from each index of a state's plan on, as entries 2 to the number of points of a table. Refused, nothing is written.
pub fn distances(state: State, table: &mut [u32]) -> Result<(), Refusal>
    ensures value { result ≡ passed_of (distances_of state (length table.old)) }
    ensures table_after { table.new ≡ table_of (distances_of state (length table.old)) table.old }
    ensures summary { Summary state table.old table.new × OneTable }
    ensures table_kept { TableKept × DistancesHold }
{
    distances_from(&state.plan.lent(), state.progress, table)
}

// The distance to go from a state's index on, in decimetres.
pub fn distance(state: State) -> Result<u32, Refusal>
    ensures { (result ≡ distance_by (distance_of state)) × (AtIndex × ToldAtTheLoad) }
{
    distance_from(&state.plan.lent(), state.progress)
}
