// The records of a plan file: kinds, their rules, and what a walk over them gathers (docs/RULES.md, sections 3 and 4).
#![tactic(auto)]

ghost use Rattle.std.specs.Prelude.{◌≡◌, ℕ, ◌+◌, ◌*◌, ◌<◌, length, get_or, set, map};
ghost use Rattle.std.specs.List.{range_with_len};
ghost use Rattle.refusals.specs.Outcome.{good};
ghost use Rattle.plan.specs.Limits.{most_points};
ghost use Rattle.plan.specs.Places.{plan_numbers};
ghost use Rattle.records.specs.Numbers.{u16_at, u32_at, i32_at};
ghost use Rattle.records.specs.Gather.{header_length, gather_from, whole_end, verdict_at};
ghost use Rattle.records.specs.Held.{counted, tally_of, with_effect, verdict_of, fault_at, numbers_in, gathered_of};
ghost use Rattle.records.specs.Facts.{RecordFacts};
ghost use Rattle.records.specs.Kinds.{row_of, row_found, Parts, no_parts, with_point, with_radius, with_course, point_in, point_rule, radius_rule, course_rule, optional_rule, value_rule, known_rule, unknown_rule, judge};

use plan::{FULL_CIRCLE, LEAST_RADIUS, MOST_POINTS, MOST_RADIUS};
use plane::Point;
use refusals::Refusal;
use std::array;

// The newest version of the format (specs/Versions).
pub const NEWEST: u32 = 3;

// The first three bytes of a file, "WPL".
pub const MARK: [u8; 3] = [0x57, 0x50, 0x4C];

// Where the numbers of the header stand.
pub const VERSION_OFFSET: usize = 3;

pub const SERIAL_OFFSET: usize = 5;

pub const AREA_OFFSET: usize = 9;

// The bytes before the first record.
pub const HEADER_LENGTH: usize = 11;

// Where a record's body stands in it, behind its kind and its length.
pub const BODY_OFFSET: usize = 2;

// Where the numbers of a point stand in its body.
pub const NORTH_OFFSET: usize = 0;

pub const EAST_OFFSET: usize = 4;

pub const DOWN_OFFSET: usize = 8;

// The least kind that is optional to a reader that lacks it.
const OPTIONAL: u8 = 128;

// The values of a speed.
const LEAST_SPEED: usize = 1;

const MOST_SPEED: usize = 1000;

// A row of the table: a kind, the first version that has it, the least and the greatest length of its body.
#[derive(Clone, Copy)]
pub struct Kind {
    pub kind: u8,
    pub since: u16,
    pub low: usize,
    pub high: usize,
}

// The rows. Whoever asks for a kind's number, first version or length asks its row.
pub const POINT_ROW: Kind = Kind {
    kind: 1,
    since: 1,
    low: 12,
    high: 12,
};

pub const RADIUS_ROW: Kind = Kind {
    kind: 2,
    since: 2,
    low: 2,
    high: 2,
};

pub const COURSE_ROW: Kind = Kind {
    kind: 3,
    since: 3,
    low: 2,
    high: 2,
};

pub const NOTE_ROW: Kind = Kind {
    kind: 128,
    since: 2,
    low: 1,
    high: 32,
};

pub const SPEED_ROW: Kind = Kind {
    kind: 129,
    since: 3,
    low: 2,
    high: 2,
};

// Their numbers, for patterns.
const POINT: u8 = POINT_ROW.kind;

const RADIUS: u8 = RADIUS_ROW.kind;

const SPEED: u8 = SPEED_ROW.kind;

// The table of docs/RULES.md, section 4. Reader versions consult it, and nothing else says which kinds there are.
const TABLE: [Kind; 5] = [POINT_ROW, RADIUS_ROW, COURSE_ROW, NOTE_ROW, SPEED_ROW];

// What a record that is taken does to what was gathered before it.
#[derive(Clone, Copy)]
enum Effect {
    Nothing,
    AddPoint(Point),
    SetRadius(u16),
    AddCourse(u16),
}

// What is wrong with one that is not: refusals 6 and 7.
#[derive(Clone, Copy)]
enum Fault {
    Wrong,
    TooNew,
}

// What the records so far give, without the points and courses themselves: the radius, 0 for none; the points and the courses, each counted up
// to one more than a plan holds; whether the last record, optional ones left out, is a point. The radius is no Option, as that of a plan's head,
// which C gets, is none.
#[derive(Clone, Copy, Default)]
struct Tally {
    radius: u16,
    count: usize,
    given: usize,
    follows: bool,
}

// What a file's records give beside the points and courses themselves.
#[derive(Clone, Copy)]
pub struct Gathered {
    pub radius: u16,
    pub count: usize,
    pub given: usize,
}

// The row of a kind.
fn row_of(kind: u8) -> Option<Kind>
    ensures { result ≡ row_found kind }
{
    TABLE.iter().find(|row| row.kind == kind).copied()
}

// The byte at i + k, 0 past the end.
fn byte_at(s: &[u8], i: usize, k: usize) -> u8
    ensures { result ≡ get_or s.now (i + k) 0 }
{
    s.get(i.saturating_add(k)).copied().unwrap_or(0)
}

// The bytes from i on, 0 past the end.
fn bytes_at<const N: usize>(s: &[u8], i: usize) -> [u8; N]
    ensures { result ≡ map (λ k. get_or s.now (i + k) 0) (range_with_len 0 N) }
{
    array::from_fn(|k| byte_at(s, i, k))
}

// Two bytes from i on as a number, big-endian.
pub fn u16_at(s: &[u8], i: usize) -> u16
    ensures { result ≡ u16_at s.now i }
{
    u16::from_be_bytes(bytes_at(s, i))
}

// Four bytes from i on as a number, big-endian.
pub fn u32_at(s: &[u8], i: usize) -> u32
    ensures { result ≡ u32_at s.now i }
{
    u32::from_be_bytes(bytes_at(s, i))
}

// Four bytes from i on as a signed number.
fn i32_at(s: &[u8], i: usize) -> i32
    ensures { result ≡ i32_at s.now i }
{
    integers::signed(u32_at(s, i))
}

// The point of a body.
fn point_in(body: &[u8]) -> Point
    ensures { result ≡ point_in body.now }
{
    let north = i32_at(body, NORTH_OFFSET);
    let east = i32_at(body, EAST_OFFSET);
    let down = i32_at(body, DOWN_OFFSET);
    Point { north, east, down }
}

// A radius, of which there is one and no point before it (4.8).
fn radius_rule(body: &[u8], before: Tally) -> Result<Effect, Fault>
    ensures { (a : Parts) → before ≡ tally_of a → verdict_of a result ≡ radius_rule body.now a }
{
    let radius = u16_at(body, 0);
    let size = usize::from(radius);
    let in_range = conditions::between(LEAST_RADIUS as usize, MOST_RADIUS as usize, size);
    if in_range && before.radius == 0 && before.count == 0 {
        return Ok(Effect::SetRadius(radius));
    }
    Err(Fault::Wrong)
}

// A course: after a point.
fn course_rule(body: &[u8], before: Tally) -> Result<Effect, Fault>
    ensures { (a : Parts) → before ≡ tally_of a → verdict_of a result ≡ course_rule body.now a }
{
    let course = u16_at(body, 0);
    if course < FULL_CIRCLE && before.follows {
        return Ok(Effect::AddCourse(course));
    }
    Err(Fault::Wrong)
}

// Notes and speeds leave the plan as it is (4.11).
fn optional_rule(kind: u8, body: &[u8]) -> Result<Effect, Fault>
    ensures { (a : Parts) → verdict_of a result ≡ optional_rule kind body.now a }
{
    if kind == SPEED
        && !conditions::between(LEAST_SPEED, MOST_SPEED, usize::from(u16_at(body, 0)))
    {
        return Err(Fault::Wrong);
    }
    Ok(Effect::Nothing)
}

// A point, in the area.
fn point_rule(body: &[u8]) -> Result<Effect, Fault>
    ensures { (a : Parts) → verdict_of a result ≡ point_rule body.now a }
{
    let point = point_in(body);
    if plan::in_area(point) {
        return Ok(Effect::AddPoint(point));
    }
    Err(Fault::Wrong)
}

// The rule of a kind on value and position.
fn value_rule(kind: u8, body: &[u8], before: Tally) -> Result<Effect, Fault>
    ensures { (a : Parts) → before ≡ tally_of a → verdict_of a result ≡ value_rule kind body.now a }
{
    match kind {
        OPTIONAL.. => optional_rule(kind, body),
        POINT => point_rule(body),
        RADIUS => radius_rule(body, before),
        _ => course_rule(body, before),
    }
}

// A kind that the reader knows, with its row. The reader's version does not enter.
fn known_rule(
    row: Kind,
    version: u16,
    kind: u8,
    body: &[u8],
    before: Tally,
) -> Result<Effect, Fault>
    requires { row ≡ row_of kind }
    ensures { (a : Parts) → before ≡ tally_of a → verdict_of a result ≡ known_rule version kind body.now a }
{
    if row.since <= version && conditions::between(row.low, row.high, body.len()) {
        return value_rule(kind, body, before);
    }
    Err(Fault::Wrong)
}

// A kind that the reader lacks: wrong in a file that is no newer than the reader.
fn unknown_rule(reader: u32, version: u16, kind: u8) -> Result<Effect, Fault>
    ensures { (a : Parts) → verdict_of a result ≡ unknown_rule reader version kind a }
{
    if u32::from(version) <= reader {
        Err(Fault::Wrong)
    } else if OPTIONAL <= kind {
        Ok(Effect::Nothing)
    } else {
        Err(Fault::TooNew)
    }
}

// What a whole record does.
fn effect_of(
    reader: u32,
    version: u16,
    kind: u8,
    body: &[u8],
    before: Tally,
) -> Result<Effect, Fault>
    ensures { (a : Parts) → before ≡ tally_of a → verdict_of a result ≡ judge reader version kind body.now a }
{
    match row_of(kind) {
        Some(row) if u32::from(row.since) <= reader => known_rule(row, version, kind, body, before),
        _ => unknown_rule(reader, version, kind),
    }
}

// A count and one more, up to one more than a plan holds.
fn one_more(n: usize) -> usize
    ensures { result ≡ counted (n + 1) }
{
    n.min(MOST_POINTS) + 1
}

// Where the record at an offset ends, if it is not cut short.
pub fn end_at(file: &[u8], at: usize) -> Option<usize>
    ensures { result ≡ whole_end file.now at }
{
    let size = *file.get(at.checked_add(1)?)?;
    let end = at + BODY_OFFSET + usize::from(size);
    if end <= file.len() { Some(end) } else { None }
}

// A number at a place of one of the blocks.
fn put_number(number: i32, block: usize, i: usize, numbers: &mut [i32])
    requires { (block < 4) × ((i < most_points) × (length numbers.old ≡ plan_numbers)) }
    ensures { numbers.new ≡ set numbers.old (block * most_points + i) number }
{
    numbers[block * MOST_POINTS + i] = number;
}

// A point behind those that were counted. One past a plan's places is not stored.
fn put_point(point: Point, count: usize, numbers: &mut [i32])
    requires { length numbers.old ≡ plan_numbers }
    ensures { (a : Parts) → numbers.old ≡ numbers_in a → count ≡ counted (length a.points) → numbers.new ≡ numbers_in (with_point a point) }
{
    if count < MOST_POINTS {
        put_number(point.north, plan::NORTH_BLOCK, count, numbers);
        put_number(point.east, plan::EAST_BLOCK, count, numbers);
        put_number(point.down, plan::DOWN_BLOCK, count, numbers);
    }
}

// A course likewise.
fn put_course(course: u16, given: usize, numbers: &mut [i32])
    requires { length numbers.old ≡ plan_numbers }
    ensures { (a : Parts) → numbers.old ≡ numbers_in a → given ≡ counted (length a.courses) → numbers.new ≡ numbers_in (with_course a course) }
{
    if given < MOST_POINTS {
        put_number(course as i32, plan::COURSE_BLOCK, given, numbers);
    }
}

impl Fault {
    // The refusal of the record at an offset.
    fn at(self, place: usize) -> Refusal
        ensures { result ≡ fault_at self place }
    {
        let number = match self {
            Fault::Wrong => refusals::WRONG_RECORD,
            Fault::TooNew => refusals::TOO_NEW,
        };
        Refusal { number, place }
    }
}

impl Tally {
    // The same after a record that is taken, and the numbers.
    fn with(self, effect: Effect, numbers: &mut [i32]) -> Tally
        requires { length numbers.old ≡ plan_numbers }
        ensures tally_after { (a : Parts) → self ≡ tally_of a → result ≡ tally_of (with_effect a effect) }
        ensures numbers_after { (a : Parts) → self ≡ tally_of a → numbers.old ≡ numbers_in a → numbers.new ≡ numbers_in (with_effect a effect) }
    {
        match effect {
            // Field by field: a copy of the whole takes what lies between the fields along, in loads that wait for the stores of the record before.
            Effect::Nothing => Tally { ..self },
            Effect::AddPoint(point) => {
                put_point(point, self.count, numbers);
                let count = one_more(self.count);
                Tally {
                    count,
                    follows: true,
                    ..self
                }
            }
            Effect::SetRadius(radius) => Tally {
                radius,
                follows: false,
                ..self
            },
            Effect::AddCourse(course) => {
                put_course(course, self.given, numbers);
                let given = one_more(self.given);
                Tally {
                    given,
                    follows: false,
                    ..self
                }
            }
        }
    }
}

// What a file's records give to a reader, or the first refusal of one. The points and courses of a plan's places go into the caller's numbers,
// which are 0 before; those past them are counted, up to one, and not stored. After a refusal the numbers have no meaning.
pub fn gather(
    file: &[u8],
    reader: u32,
    version: u16,
    numbers: &mut [i32],
) -> Result<Gathered, Refusal>
    requires { numbers.old ≡ numbers_in no_parts }
    ensures value { result ≡ gathered_of (gather_from reader version file.now header_length no_parts) }
    ensures numbers_after { (a : Parts) → gather_from reader version file.now header_length no_parts ≡ good a → numbers.new ≡ numbers_in a }
    ensures record_facts { RecordFacts }
{
    let mut at: usize = HEADER_LENGTH;
    let mut tally = Tally::default();
    // No `for`: a record says itself where the next one is.
    while at < file.len() {
        let Some(to) = end_at(file, at) else {
            return Err(Fault::Wrong.at(at));
        };
        let body = &file[at + BODY_OFFSET..to];
        match effect_of(reader, version, file[at], body, tally) {
            Ok(effect) => tally = tally.with(effect, numbers),
            Err(fault) => return Err(fault.at(at)),
        }
        at = to;
    }
    Ok(Gathered {
        radius: tally.radius,
        count: tally.count,
        given: tally.given,
    })
}
