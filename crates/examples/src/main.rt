// Runs the checked examples (docs/RULES.md, section 19) through the compiled code, a line for each, and then flies what stands on standard
// input: blocks of states and of fixes, and a line for each fix. Numbers are big-endian.
//   S  a state: serial u32, mode u8 (0 lines, 1 fillets, 2 Dubins), radius u16, count u16, k u8 and k points of three i32,
//      m u8 and m courses u16, index u16, phase u8, finished u8. Places that aren't listed are zero.
//   F  a fix for the state before it: the named serial u32, then north, east and down as the bits of an f32.
#![tactic(auto)]

mod plans;

ghost use Rattle.std.specs.Prelude.{ℕ, ◌+◌, ◌≤◌, ◌<◌, length, IfSome};
ghost use Rattle.course.specs.Vectors.{Near};
ghost use Rattle.plane.specs.Area.{InArea};

use course::Vector;
use dubins::{Case, Ends};
use fillets::Corner;
use integers::signed;
use manager::{Answer, Progress, State};
use plan::{Head, Mode, Plan};
use plane::Point;
use records::{u16_at, u32_at};
use text::{Text, float};
use units::Fix;

// The first byte of a block.
const STATE_LETTER: u8 = b'S';

const FIX_LETTER: u8 = b'F';

// Where the parts of a state's block stand, and where its list of points begins.
const SERIAL: usize = 1;

const MODE: usize = 5;

const RADIUS: usize = 6;

const COUNT: usize = 8;

const POINTS: usize = 10;

// The bytes of a point in that list, and of a course in the one behind it.
const POINT_SIZE: usize = 12;

const COURSE_SIZE: usize = 2;

// Where the numbers of a fix's block stand, and how many bytes it has.
const FIX_POSITION: usize = 5;

const FIX_SIZE: usize = 17;

// Room for the input, and for a byte more than it may have.
const INPUT_ROOM: usize = 65536;

// Room for a number, and for a refusal.
const DIGITS: usize = 21;

const REFUSAL_ROOM: usize = 52;

fn write(rt: HostRuntime, text: &[u8]) {
    let _ = console::write(rt, text);
}

fn write_decimal(rt: HostRuntime, n: u64) {
    let mut digits = [0u8; DIGITS];
    let mut out = Text::new(0, &mut digits);
    out.decimal(n);
    write(rt, out.written());
}

fn write_number(rt: HostRuntime, x: i64) {
    let mut digits = [0u8; DIGITS];
    let mut out = Text::new(0, &mut digits);
    out.signed(x);
    write(rt, out.written());
}

fn write_refusal(rt: HostRuntime, number: u8, place: usize) {
    let mut line = [0u8; REFUSAL_ROOM];
    let mut out = Text::new(0, &mut line);
    out.refusal(u64::from(number), place as u64);
    write(rt, out.written());
}

fn write_vector(rt: HostRuntime, v: Vector) {
    write(rt, b"(");
    write_number(rt, v.north);
    write(rt, b",");
    write_number(rt, v.east);
    write(rt, b")");
}

fn vector(north: i16, east: i16) -> Vector
    ensures { Near 1000000 result }
{
    Vector {
        north: i64::from(north),
        east: i64::from(east),
    }
}

fn point(north: i16, east: i16) -> Point
    ensures { InArea result }
{
    Point {
        north: i32::from(north),
        east: i32::from(east),
        down: 0,
    }
}

fn show_bearing(rt: HostRuntime, v: Vector)
    requires { Near 1000000 v }
{
    write(rt, b"bearing ");
    write_vector(rt, v);
    write(rt, b" ");
    write_number(rt, course::bearing(v) as i64);
    write(rt, b"\n");
}

fn show_fix(rt: HostRuntime, name: &[u8], north: f32) {
    write(rt, b"fix ");
    write(rt, name);
    let p = units::locate(Fix {
        north,
        east: 0.0,
        down: 0.0,
    });
    match p {
        Some(p) => {
            write(rt, b" is ");
            write_number(rt, i64::from(p.north));
            write(rt, b"\n");
        }
        None => write(rt, b" refused 13\n"),
    }
}

// An offset from a corner between the legs (1000,0,0) and (0,2000,0).
fn show_half_plane(rt: HostRuntime, north: i16, east: i16) {
    let corner = point(0, 0);
    let d = plane::leg_between(corner, point(north, east));
    let a = plane::leg_between(corner, point(1000, 0));
    let b = plane::leg_between(corner, point(0, 2000));
    write(rt, b"half-plane ");
    write_vector(rt, vector(north, east));
    let answer: &[u8] = if plane::met(d, a, b) {
        b" met\n"
    } else {
        b" not met\n"
    };
    write(rt, answer);
}

fn write_corner(rt: HostRuntime, c: Corner) {
    let centre = c.centre;
    let z2 = c.z2;
    write(rt, b" centre ");
    write_vector(rt, centre);
    write(rt, b" z2 ");
    write_vector(rt, z2);
    write(rt, b"\n");
}

fn show_fillet(rt: HostRuntime) {
    let a = point(0, 0);
    let b = point(1000, 0);
    let c = point(1000, 1000);
    write(rt, b"fillet R 200");
    if fillets::turn_at(a, b, c) <= 1792 {
        write_corner(rt, fillets::round_corner(a, b, c, 200));
    } else {
        write(rt, b" refused 11\n");
    }
}

fn write_case(rt: HostRuntime, case: Case) {
    if case.starts_right() {
        write(rt, b" RS");
    } else {
        write(rt, b" LS");
    }
    if case.ends_right() {
        write(rt, b"R");
    } else {
        write(rt, b"L");
    }
}

// R 100, from (0,0) course 0.
fn show_leg(rt: HostRuntime, end: Point, arrive: usize)
    requires { InArea end × (arrive < 4096) }
{
    let start = point(0, 0);
    write(rt, b"dubins to ");
    write_vector(rt, plane::level(end));
    write(rt, b" course ");
    write_number(rt, arrive as i64);
    let found = dubins::shortest_path(Ends {
        start,
        leave: 0,
        end,
        arrive,
        radius: 100,
    });
    match found {
        Some(p) => {
            let z1 = p.z1;
            let z2 = p.z2;
            write_case(rt, p.case);
            write(rt, b" length ");
            write_decimal(rt, p.length);
            write(rt, b" z1 ");
            write_vector(rt, z1);
            write(rt, b" z2 ");
            write_vector(rt, z2);
            write(rt, b"\n");
        }
        None => write(rt, b" refused 17\n"),
    }
}

// The leg (1000,0) from (0,0).
fn show_line_heading(rt: HostRuntime, d: Vector)
    requires { Near 1000000 d }
{
    write(rt, b"heading on a line ");
    write_vector(rt, d);
    write(rt, b" ");
    write_number(rt, heading::line_heading(vector(1000, 0), d) as i64);
    write(rt, b"\n");
}

// R 1000, sense +1.
fn show_circle_heading(rt: HostRuntime, d: Vector)
    requires { Near 1000000 d }
{
    write(rt, b"heading on a circle ");
    write_vector(rt, d);
    write(rt, b" ");
    write_number(rt, heading::circle_heading(d, 1000, true) as i64);
    write(rt, b"\n");
}

fn show_bearings(rt: HostRuntime) {
    show_bearing(rt, vector(1, 0));
    show_bearing(rt, vector(0, 1));
    show_bearing(rt, vector(1, 1));
    show_bearing(rt, vector(1000, 2));
    show_bearing(rt, vector(1000, -1));
}

fn show_fixes(rt: HostRuntime) {
    show_fix(rt, b"0.25", 0.25);
    show_fix(rt, b"-0.25", -0.25);
    show_fix(rt, b"0.04", 0.04);
    show_fix(rt, b"50000.0", 50000.0);
    show_fix(rt, b"50000.00390625", 50000.00390625);
}

// ---- plans: which of them load, and what the others are refused with.

// A number of two bytes, big-endian, in a file.
fn put_u16(value: u16, at: usize, file: &mut [u8])
    requires { at + 2 ≤ length file.old }
{
    file[at..at + 2].copy_from_slice(&value.to_be_bytes());
}

// Whether the newest reader loads a file.
fn write_verdict(rt: HostRuntime, file: &[u8]) {
    let loaded = wpl::load(file, records::NEWEST);
    if loaded.refusal == 0 {
        write(rt, b" loads\n");
    } else {
        write(rt, b" ");
        write_refusal(rt, loaded.refusal, loaded.place);
        write(rt, b"\n");
    }
}

fn show_fillet_plan(rt: HostRuntime, radius: u16) {
    let mut file = plans::FILLETS_FILE;
    put_u16(radius, plans::RADIUS_BYTE, &mut file);
    write(rt, b"fillet R ");
    write_decimal(rt, u64::from(radius));
    write_verdict(rt, &file);
}

fn show_dubins_plan(rt: HostRuntime, east: u16) {
    let mut file = plans::DUBINS_FILE;
    put_u16(east, plans::EAST_BYTE, &mut file);
    write(rt, b"dubins to (0,");
    write_decimal(rt, u64::from(east));
    write(rt, b")");
    write_verdict(rt, &file);
}

fn show_plans(rt: HostRuntime) {
    show_fillet_plan(rt, 1000);
    show_fillet_plan(rt, 1001);
    show_dubins_plan(rt, 300);
    show_dubins_plan(rt, 299);
}

// ---- flights

// The functions of a block take what is left of the input, from the block on.

// The byte at i, 0 past the end.
fn byte_at(block: &[u8], i: usize) -> u8 {
    block.get(i).copied().unwrap_or(0)
}

fn fix_of(block: &[u8]) -> Fix {
    Fix {
        north: float(u32_at(block, FIX_POSITION)),
        east: float(u32_at(block, FIX_POSITION + 4)),
        down: float(u32_at(block, FIX_POSITION + 8)),
    }
}

// How many points or courses a list at i has, as far as a plan has places.
fn listed(block: &[u8], i: usize) -> usize
    ensures { result ≤ 64 }
{
    usize::from(byte_at(block, i)).min(plan::MOST_POINTS)
}

// A number of a point in the list of points: the one so many bytes into it.
fn point_number(block: &[u8], into: usize, k: usize) -> i32
    requires { (into ≤ 8) × (k < 64) }
{
    signed(u32_at(block, POINTS + 1 + into + POINT_SIZE * k))
}

// A course in a list at i.
fn course_at(block: &[u8], i: usize, k: usize) -> i32
    requires { (i ≤ 1000) × (k < 64) }
{
    i32::from(u16_at(block, i + 1 + COURSE_SIZE * k))
}

// A number for each place of a plan: those of a list at i as they are read, and then 0.
fn numbers_of<F: Fn(usize) -> i32>(block: &[u8], i: usize, read: F) -> [i32; plan::MOST_POINTS]
    requires { (k : ℕ) → k < 64 → F.pre read k }
{
    let mut numbers = [0; plan::MOST_POINTS];
    for (k, number) in numbers.iter_mut().enumerate().take(listed(block, i)) {
        *number = read(k);
    }
    numbers
}

fn mode_of(number: u8) -> Mode {
    match number {
        0 => Mode::Lines,
        1 => Mode::Fillets,
        _ => Mode::Dubins,
    }
}

// Where the courses of a state are listed.
fn to_courses(block: &[u8]) -> usize
    ensures { result ≤ 779 }
{
    POINTS + 1 + POINT_SIZE * listed(block, POINTS)
}

// Where they end.
fn past_courses(block: &[u8]) -> usize
    ensures { result ≤ 908 }
{
    let at = to_courses(block);
    at + 1 + COURSE_SIZE * listed(block, at)
}

fn state_of(block: &[u8]) -> State {
    let head = Head {
        serial: u32_at(block, SERIAL),
        mode: mode_of(byte_at(block, MODE)),
        radius: u16_at(block, RADIUS),
        count: usize::from(u16_at(block, COUNT)),
    };
    let courses = to_courses(block);
    let plan = Plan {
        head,
        norths: numbers_of(block, POINTS, |k| point_number(block, 0, k)),
        easts: numbers_of(block, POINTS, |k| point_number(block, 4, k)),
        downs: numbers_of(block, POINTS, |k| point_number(block, 8, k)),
        courses: numbers_of(block, courses, |k| course_at(block, courses, k)),
    };
    let rest = past_courses(block);
    let progress = Progress {
        index: usize::from(u16_at(block, rest)),
        phase: byte_at(block, rest + 2),
        finished: byte_at(block, rest + 3) != 0,
    };
    State { plan, progress }
}

// The size of a state, none where its mode or a list's length is none that a state has.
fn state_size(block: &[u8]) -> Option<usize>
    ensures { IfSome result (λ n. 0 < n) }
{
    let points = usize::from(byte_at(block, POINTS));
    let courses = usize::from(byte_at(block, to_courses(block)));
    let stands = byte_at(block, MODE) <= 2
        && points <= plan::MOST_POINTS
        && courses <= plan::MOST_POINTS;
    stands.then_some(past_courses(block) + 4)
}

// The size of a block, none where there is no block.
fn block_size(block: &[u8]) -> Option<usize>
    ensures { IfSome result (λ n. 0 < n) }
{
    match byte_at(block, 0) {
        FIX_LETTER => Some(FIX_SIZE),
        STATE_LETTER => state_size(block),
        _ => None,
    }
}

// The size of a block at i, none where there is no whole one, which is then said.
fn whole_block(rt: HostRuntime, block: &[u8], i: usize) -> Option<usize>
    ensures { IfSome result (λ n. (0 < n) × (n ≤ length block.now)) }
{
    let trouble: &[u8] = match block_size(block) {
        None => b"no block at byte ",
        Some(size) if block.len() < size => b"block cut at byte ",
        Some(size) => return Some(size),
    };
    write(rt, trouble);
    write_decimal(rt, i as u64);
    write(rt, b"\n");
    None
}

// The line of a fix, by its number since the last state.
fn show(rt: HostRuntime, number: u64, answer: Answer) {
    let mut words = [0u32; c_answer::ANSWER];
    let mut numbers = [0.0f32; c_answer::COMMAND];
    c_answer::put_answer(answer, &mut words);
    c_answer::put_command(answer.command, &mut numbers);
    let mut line = [0u8; report::FIX_ROOM];
    let mut out = Text::new(0, &mut line);
    report::put_fix(number, &words, &numbers, &mut out);
    write(rt, out.written());
}

// The state after a fix, whose line is written.
fn fly_fix(rt: HostRuntime, block: &[u8], number: u64, state: State) -> State {
    let stepped = state.step(u32_at(block, SERIAL), fix_of(block));
    show(rt, number, stepped.answer);
    stepped.state
}

// All blocks, up to one that isn't whole. The sizes of blocks differ, and trouble is told by its byte, so no for goes over them.
fn fly_blocks(rt: HostRuntime, s: &[u8])
    requires { length s.now ≤ 65536 }
{
    let mut state = manager::empty();
    let mut fixes: u64 = 0;
    let mut i: usize = 0;
    while i < s.len() {
        let block = &s[i..];
        let Some(size) = whole_block(rt, block, i) else {
            return;
        };
        if byte_at(block, 0) == FIX_LETTER {
            fixes += 1;
            state = fly_fix(rt, block, fixes, state);
        } else {
            fixes = 0;
            state = state_of(block);
        }
        i += size;
    }
}

// Room that is left in the buffer shows that standard input was read to its end, or as far as it could be read, which is then said.
fn fly(rt: HostRuntime) {
    let mut space = [0u8; INPUT_ROOM];
    let count = console::read(rt, &mut space).unwrap_or_else(|failed| failed.count);
    if count < INPUT_ROOM {
        fly_blocks(rt, &space[..count]);
    } else {
        write(rt, b"input longer than 65535 bytes\n");
    }
}

fn main(rt: HostRuntime) {
    show_bearings(rt);
    show_fixes(rt);
    show_half_plane(rt, 0, 0);
    show_half_plane(rt, -1, 1);
    show_half_plane(rt, -3, 2);
    show_fillet(rt);
    show_leg(rt, point(1000, 0), 0);
    show_leg(rt, point(0, 1000), 2048);
    show_leg(rt, point(0, 300), 0);
    show_line_heading(rt, vector(0, 500));
    show_circle_heading(rt, vector(1000, 0));
    show_circle_heading(rt, vector(0, 0));
    show_plans(rt);
    fly(rt);
}
