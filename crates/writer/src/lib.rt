// The bytes of a plan file (docs/RULES.md, 5.1): the header, the radius, then the points, each with its course.
#![tactic(auto)]

ghost use Rattle.std.specs.Prelude.{◌≡◌, List, [], ◌∷◌, ℕ, ◌+◌, ◌≤◌, ◌<◌, ℤ, length};
ghost use Rattle.std.specs.Bool.{then_some};
ghost use Rattle.plan.specs.Limits.{most_points};
ghost use Rattle.plan.specs.Places.{plan_point, plan_course, seen};
ghost use Rattle.plan.specs.Lent.{lent_plan, PointThere, CourseThere};
ghost use Rattle.records.specs.Numbers.{u16_bytes, u32_bytes};
ghost use Rattle.records.specs.Gather.{header_length};
ghost use Rattle.records.specs.Walk.{flat};
ghost use Rattle.records.specs.Kinds.{point_bytes};
ghost use Rattle.buffers.specs.Splice.{over, splice};
ghost use Rattle.writer.specs.Facts.{FileFacts};
ghost use Rattle.writer.specs.File.{plan_records, file_of, Writable};
ghost use Rattle.writer.specs.Pieces.{mark, header_bytes, record_bytes, radius_bytes, place_bytes, places_bytes};

use plan::{Head, Lent};
use plane::Point;
use records::{
    AREA_OFFSET, BODY_OFFSET, COURSE_ROW, DOWN_OFFSET, EAST_OFFSET, HEADER_LENGTH, MARK, POINT_ROW,
    RADIUS_ROW, SERIAL_OFFSET, VERSION_OFFSET,
};

// The lengths of the bodies, and of the records with them. A radius and a course are each a value of two bytes.
const POINT_BODY: u8 = POINT_ROW.high as u8;

const VALUE_BODY: u8 = COURSE_ROW.high as u8;

const POINT_RECORD: usize = BODY_OFFSET + POINT_ROW.high;

const RADIUS_RECORD: usize = BODY_OFFSET + RADIUS_ROW.high;

const COURSE_RECORD: usize = BODY_OFFSET + COURSE_ROW.high;

// A number as two bytes, big-endian, at the front of a part.
fn put_u16(value: u16, part: &mut [u8])
    requires { 2 ≤ length part.old }
    ensures { part.new ≡ over (u16_bytes value) part.old }
{
    buffers::put(&value.to_be_bytes(), part);
}

// A number as four bytes.
fn put_u32(value: u32, part: &mut [u8])
    requires { 4 ≤ length part.old }
    ensures { part.new ≡ over (u32_bytes value) part.old }
{
    buffers::put(&value.to_be_bytes(), part);
}

// The body of a point.
fn put_point(point: Point, part: &mut [u8])
    requires { 12 ≤ length part.old }
    ensures { part.new ≡ over (point_bytes point) part.old }
{
    put_u32(integers::unsigned(point.north), part);
    put_u32(integers::unsigned(point.east), &mut part[EAST_OFFSET..]);
    put_u32(integers::unsigned(point.down), &mut part[DOWN_OFFSET..]);
}

// The mark, at the front of a file.
fn put_mark(file: &mut [u8])
    requires { 3 ≤ length file.old }
    ensures { file.new ≡ over mark file.old }
{
    buffers::put(&MARK, file);
}

// The header before an area of so many bytes.
fn put_header(version: u16, serial: u32, size: u16, file: &mut [u8])
    requires { header_length ≤ length file.old }
    ensures { file.new ≡ over (header_bytes version serial size) file.old }
{
    put_mark(file);
    put_u16(version, &mut file[VERSION_OFFSET..]);
    put_u32(serial, &mut file[SERIAL_OFFSET..]);
    put_u16(size, &mut file[AREA_OFFSET..]);
}

// What stands before a record's body.
fn put_head(kind: u8, size: u8, at: usize, file: &mut [u8])
    requires { at + 2 ≤ length file.old }
    ensures { file.new ≡ splice at (kind ∷ size ∷ []) file.old }
{
    file[at] = kind;
    file[at + 1] = size;
}

// The record of a point.
fn put_point_record(point: Point, at: usize, file: &mut [u8])
    requires { at + 14 ≤ length file.old }
    ensures { file.new ≡ splice at (record_bytes 1 (point_bytes point)) file.old }
{
    put_head(POINT_ROW.kind, POINT_BODY, at, file);
    let body = at + BODY_OFFSET;
    put_point(point, &mut file[body..]);
}

// The record of a kind that has a value of two bytes. It is no one function with that of a point: what writes the body would be a closure, with a
// contract of its own to give at each call, which is no plainer.
fn put_value_record(kind: u8, value: u16, at: usize, file: &mut [u8])
    requires { at + 4 ≤ length file.old }
    ensures { file.new ≡ splice at (record_bytes kind (u16_bytes value)) file.old }
{
    put_head(kind, VALUE_BODY, at, file);
    let body = at + BODY_OFFSET;
    put_u16(value, &mut file[body..]);
}

// The radius, if any, behind the header. The answer is the offset behind it.
fn put_radius(radius: u16, file: &mut [u8]) -> usize
    requires { header_length + length (radius_bytes radius) ≤ length file.old }
    ensures file_after { file.new ≡ splice header_length (radius_bytes radius) file.old }
    ensures value { result ≡ header_length + length (radius_bytes radius) }
{
    if radius == 0 {
        return HEADER_LENGTH;
    }
    put_value_record(RADIUS_ROW.kind, radius, HEADER_LENGTH, file);
    HEADER_LENGTH + RADIUS_RECORD
}

// A point, and its course if it has one. The answer is the offset behind them.
fn put_place(point: Point, course: Option<u16>, at: usize, file: &mut [u8]) -> usize
    requires { at + length (place_bytes point course) ≤ length file.old }
    ensures file_after { file.new ≡ splice at (place_bytes point course) file.old }
    ensures value { result ≡ at + length (place_bytes point course) }
{
    put_point_record(point, at, file);
    let next = at + POINT_RECORD;
    match course {
        None => next,
        Some(course) => {
            put_value_record(COURSE_ROW.kind, course, next, file);
            next + COURSE_RECORD
        }
    }
}

// The point at place i, and its course if it has one. The answer is the offset behind them.
fn put_place_at(plan: &Lent, i: usize, aimed: bool, at: usize, file: &mut [u8]) -> usize
    requires { (PointThere (lent_plan plan.now) i × CourseThere (lent_plan plan.now) i) × (at + length (place_bytes (plan_point (lent_plan plan.now) i) (then_some aimed (plan_course (lent_plan plan.now) i))) ≤ length file.old) }
    ensures file_after { file.new ≡ splice at (place_bytes (plan_point (lent_plan plan.now) i) (then_some aimed (plan_course (lent_plan plan.now) i))) file.old }
    ensures value { result ≡ at + length (place_bytes (plan_point (lent_plan plan.now) i) (then_some aimed (plan_course (lent_plan plan.now) i))) }
{
    let point = plan.point_at(i);
    let course = plan.course_at(i);
    put_place(point, aimed.then_some(course as u16), at, file)
}

// All points of a plan, each with its course behind it where there is one.
fn put_places(plan: &Lent, from: usize, file: &mut [u8])
    requires { Writable (lent_plan plan.now) × (from + length (places_bytes (lent_plan plan.now)) ≤ length file.old) }
    ensures { file.new ≡ splice from (places_bytes (lent_plan plan.now)) file.old }
{
    let given = plan::given_of(plan.head.mode, plan.head.count);
    let mut at = from;
    for i in 0..plan.head.count {
        at = put_place_at(plan, i, i < given, at, file);
    }
}

// How many bytes the radius takes.
fn radius_length(radius: u16) -> usize
    ensures { (result ≡ length (radius_bytes radius)) × (result ≤ 4) }
{
    if radius == 0 {
        return 0;
    }
    RADIUS_RECORD
}

// How many bytes the records of a plan take. They fit the header's two bytes.
fn area_length(head: Head) -> usize
    requires { head.count ≤ most_points }
    ensures { ((ns es ds cs : List ℤ) → result ≡ length (flat (plan_records (seen head ns es ds cs)))) × (result < 65536) }
{
    let given = plan::given_of(head.mode, head.count);
    radius_length(head.radius) + POINT_RECORD * head.count + COURSE_RECORD * given
}

// How many bytes the file of a plan has, at any version and wherever its points lie.
pub fn file_length(head: Head) -> usize
    requires { head.count ≤ most_points }
    ensures { (version : ℕ) (ns es ds cs : List ℤ) → result ≡ length (file_of version (seen head ns es ds cs)) }
{
    HEADER_LENGTH + area_length(head)
}

// The file of a plan at a version, into the first bytes of a buffer. Nothing else of it changes.
pub fn put_plan(plan: &Lent, version: u16, file: &mut [u8])
    requires { Writable (lent_plan plan.now) × (length (file_of version (lent_plan plan.now)) ≤ length file.old) }
    ensures file_after { file.new ≡ over (file_of version (lent_plan plan.now)) file.old }
    ensures file_facts { FileFacts }
{
    let size = area_length(plan.head) as u16;
    put_header(version, plan.head.serial, size, file);
    let at = put_radius(plan.head.radius, file);
    put_places(plan, at, file);
}
