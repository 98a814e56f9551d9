// Refusals: their numbers, and the order in which they are found, a chain of checks and sweeps over places (docs/RULES.md, sections 6 and 7).
// The definitions have each number by the same name (specs/Numbers).
#![tactic(auto)]

ghost use Rattle.std.specs.Prelude.{◌≡◌, false, Option, ℕ, ◌-◌, ◌≤◌, ◌<◌};
ghost use Rattle.refusals.specs.Outcome.{good, check, refusal_of};
ghost use Rattle.refusals.specs.Sweep.{done, sweep, noted, passed_of};
ghost use Rattle.refusals.specs.Order.{Order};

use std::ops::Range;

// Fewer bytes than a header has.
pub const FILE_TOO_SHORT: u8 = 1;

// No mark.
pub const NO_MARK: u8 = 2;

// File version 0, or a reader or writer of a version that there is not.
pub const NO_VERSION: u8 = 3;

// Serial 0.
pub const NO_SERIAL: u8 = 4;

// An area length that is not that of the area, or too long.
pub const WRONG_AREA: u8 = 5;

// A record that is cut short, or wrong in its length, value, position or version.
pub const WRONG_RECORD: u8 = 6;

// A record too new for the reader; a plan too new for the version that is written.
pub const TOO_NEW: u8 = 7;

// Too few points, or too many.
pub const POINT_COUNT: u8 = 8;

// Courses and no radius, or not at every point.
pub const COURSE_COUNT: u8 = 9;

// Two points in a row at one level place.
pub const EQUAL_NEIGHBOURS: u8 = 10;

// A leg right back along the one before it; fillets: too sharp a turn.
pub const SHARP_CORNER: u8 = 11;

// A leg too short for its arcs.
pub const SHORT_LEG: u8 = 12;

// A fix that is no number, or too far away.
pub const NO_POSITION: u8 = 13;

// A state that breaks a limit or a rule.
pub const NO_STATE: u8 = 14;

// A fix for another plan.
pub const OTHER_SERIAL: u8 = 15;

// A buffer shorter than the file.
pub const NO_ROOM: u8 = 16;

// A leg without any Dubins case.
pub const NO_CASE: u8 = 17;

// No strip plan.
pub const NOT_STRIPS: u8 = 18;

// A slice that is lent too short, or lists that differ in length: 17.5. It is no number of section 7.
pub const MISFIT: u8 = 100;

// A refusal: its number, 0 for none, and its place.
#[derive(Clone, Copy)]
pub struct Refusal {
    pub number: u8,
    pub place: usize,
}

// What a check that fails answers: its number, at place 0.
pub fn failed(number: u8) -> Refusal
    ensures value { result ≡ refusal_of (check false number (good done)) }
    ensures order { Order }
{
    Refusal { number, place: 0 }
}

// The first of the places that is refused, with the number that its check gives. Places are counted from 0 here and from 1 in a refusal.
pub fn sweep<F: Fn(usize) -> Option<u8>>(places: Range<usize>, number_at: F) -> Result<(), Refusal>
    requires { (i : ℕ) → places.start ≤ i → i < places.end → F.pre number_at i }
    ensures { (f : ℕ → ℕ) → ((i : ℕ) (r : Option ℕ) → places.start ≤ i → i < places.end → F.post number_at i r → r ≡ noted (f i)) → result ≡ passed_of (sweep f (places.end - places.start) places.start) }
{
    for place in places {
        if let Some(number) = number_at(place) {
            return Err(Refusal {
                number,
                place: place + 1,
            });
        }
    }
    Ok(())
}
