// The two heading laws (docs/RULES.md, section 14).
#![tactic(auto)]

ghost use Rattle.std.specs.Prelude.{◌≡◌, ◌≤◌, ◌<◌};
ghost use Rattle.integers.specs.Bounds.{Within};
ghost use Rattle.course.specs.Vectors.{Near};
ghost use Rattle.heading.specs.Heading.{line_angle, line_heading, circle_angle, round_heading, circle_heading};
ghost use Rattle.heading.specs.CheckedExamples.{LineExamples, CircleExamples};

use course::Vector;

// How far the line law leans toward the line: b of a line with direction q, d from its start.
fn line_angle(q: Vector, d: Vector) -> i64
    requires { Near 1000000 q × Near 2000000 d }
    ensures { (result ≡ line_angle q d) × Within 2048 result }
{
    let north = (500 * plane::length(q)) as i64;
    let east = plane::across(q, d);
    course::signed_bearing(Vector { north, east })
}

// The heading on a line with level direction q, d from its start.
pub fn line_heading(q: Vector, d: Vector) -> usize
    requires { Near 1000000 q × Near 2000000 d }
    ensures { (result ≡ line_heading q d) × ((result < 4096) × LineExamples) }
{
    let b = line_angle(q, d);
    let k = course::bearing(q);
    integers::wrap((k as i64) - 768 * b / 1024)
}

// How far the circle law leans toward the circle: b at a distance from the centre.
fn circle_angle(radius: u64, distance: u64) -> i64
    requires { (radius ≤ 10000) × (distance ≤ 2828427) }
    ensures { (result ≡ circle_angle radius distance) × Within 2048 result }
{
    let north = radius as i64;
    let east = 4 * ((distance as i64) - (radius as i64));
    course::signed_bearing(Vector { north, east })
}

// φ + sense (1024 + b)
fn round_heading(k: usize, right: bool, b: i64) -> usize
    requires { (k < 4096) × Within 2048 b }
    ensures { (result ≡ round_heading k right b) × (result < 4096) }
{
    if right {
        integers::wrap((k as i64) + (1024 + b))
    } else {
        integers::wrap((k as i64) - (1024 + b))
    }
}

// The heading on a circle, d from its centre; right where its sense is +1.
pub fn circle_heading(d: Vector, radius: u64, right: bool) -> usize
    requires { Near 2000000 d × (radius ≤ 10000) }
    ensures { (result ≡ circle_heading d radius right) × ((result < 4096) × CircleExamples) }
{
    let b = circle_angle(radius, plane::length(d));
    let k = course::bearing(d);
    round_heading(k, right, b)
}
