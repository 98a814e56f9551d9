// What programs print, as text in a lent buffer: the listing of a plan file (docs/RULES.md, section 16), the line of a fix, and the lines of a
// load, a note and a write.
#![tactic(auto)]

ghost use Rattle.std.specs.Prelude.{◌≡◌, ◌++◌, ◌+◌, ◌*◌, ◌≤◌, ◌<◌, length};
ghost use Rattle.text.specs.Added.{Fits, Added, AtMost};
ghost use Rattle.text.specs.Parts.{count_text, number_text, refusal_text};
ghost use Rattle.plan.specs.Limits.{most_points};
ghost use Rattle.plan.specs.Places.{course_at};
ghost use Rattle.report.specs.Answers.{load_text, note_text, written_text};
ghost use Rattle.report.specs.Fix.{floats_to, sense_text, command_text, guided_text, progress_text, fix_text};
ghost use Rattle.report.specs.Holds.{ListingHolds, FixLineHolds, AnswersHold};
ghost use Rattle.report.specs.Listing.{space, mode_text, title_of, course_text, point_text, line_of, lines_to, plan_text, listing_of, listing_room, listed_in, listed_length};

use c_answer::{CIRCLE_KIND, LINE_KIND};
use plan::{Head, Mode, Plan};
use plane::Point;
use text::Text;
use wpl::Written;

// Room for the bytes of a file: one more than a file can have. A longer one is refused as its first bytes are (the promise of wpl::load).
pub const FILE_ROOM: usize = records::HEADER_LENGTH + wpl::MOST_AREA + 1;

// Room for every listing.
pub const LISTING_ROOM: usize = 7008;

// Room for the line of a fix.
pub const FIX_ROOM: usize = 197;

// The words of an answer, in the order of c_answer::put_answer: by number, and kinds and senses as numbers, since put_fix promises fix_text of these.
const REFUSAL: usize = 0;

const PLACE: usize = 1;

const KIND: usize = 2;

const SENSE: usize = 3;

const HEADING: usize = 4;

const INDEX: usize = 5;

const PHASE: usize = 6;

const FINISHED: usize = 7;

// How many numbers a line and a circle have.
const LINE_NUMBERS: usize = 6;

const CIRCLE_NUMBERS: usize = 4;

fn put_mode(mode: Mode, out: &mut Text)
    requires { Fits 7 out.old }
    ensures { Added (mode_text mode) out.old out.new × AtMost 7 out.old out.new }
{
    match mode {
        Mode::Lines => out.text(b"lines"),
        Mode::Fillets => out.text(b"fillets"),
        Mode::Dubins => out.text(b"dubins"),
    }
}

// The first line of a listing, without its end.
pub fn put_title(version: u16, head: Head, out: &mut Text)
    requires { Fits 95 out.old }
    ensures { Added (title_of version head) out.old out.new × AtMost 95 out.old out.new }
{
    let mode = head.mode;
    out.count(b"plan ", u64::from(head.serial));
    out.count(b" version ", u64::from(version));
    out.text(b" mode ");
    put_mode(mode, out);
    out.count(b" points ", head.count as u64);
}

// A number of a point.
fn put_number(x: i32, out: &mut Text)
    requires { Fits 22 out.old }
    ensures { Added (number_text space x) out.old out.new × AtMost 22 out.old out.new }
{
    out.number(b" ", i64::from(x));
}

fn put_point(point: Point, out: &mut Text)
    requires { Fits 66 out.old }
    ensures { Added (point_text point) out.old out.new × AtMost 66 out.old out.new }
{
    put_number(point.north, out);
    put_number(point.east, out);
    put_number(point.down, out);
}

// The course of a point, or a dash where the plan has no courses.
fn put_course(mode: Mode, course: u64, out: &mut Text)
    requires { Fits 21 out.old }
    ensures { Added (course_text mode course) out.old out.new × AtMost 21 out.old out.new }
{
    match mode {
        Mode::Lines | Mode::Fillets => out.text(b" -"),
        Mode::Dubins => out.count(b" ", course),
    }
}

fn course_at(courses: &[i32], i: usize) -> u64
    requires { i < length courses.now }
    ensures { result ≡ course_at courses.now i }
{
    integers::magnitude(i64::from(courses[i]))
}

fn put_line(mode: Mode, number: usize, point: Point, course: u64, out: &mut Text)
    requires { Fits 108 out.old }
    ensures { Added (line_of mode number point course) out.old out.new × AtMost 108 out.old out.new }
{
    out.decimal(number as u64);
    put_point(point, out);
    put_course(mode, course, out);
    out.byte(b'\n');
}

// A line for each point.
fn put_lines(plan: Plan, out: &mut Text)
    requires { (plan.head.count ≤ most_points) × Fits (108 * plan.head.count) out.old }
    ensures { Added (lines_to plan plan.head.count) out.old out.new }
{
    let lent = plan.lent();
    for i in 0..plan.head.count {
        let course = course_at(&plan.courses, i);
        put_line(plan.head.mode, i + 1, lent.point_at(i), course, out);
    }
}

fn put_plan(version: u16, plan: Plan, out: &mut Text)
    requires { (plan.head.count ≤ most_points) × Fits listing_room out.old }
    ensures { Added (plan_text version plan) out.old out.new }
{
    let head = plan.head;
    put_title(version, head, out);
    out.byte(b'\n');
    put_lines(plan, out);
}

// The listing of a file as the newest reader loads it, and its length. In a buffer of fewer than LISTING_ROOM bytes nothing is written, and the length is 0.
pub fn listing(file: &[u8], buffer: &mut [u8]) -> usize
    ensures value { result ≡ listed_length listing_room (listing_of file.now) buffer.old }
    ensures buffer_after { buffer.new ≡ listed_in listing_room (listing_of file.now) buffer.old }
    ensures upper_bound { result ≤ length buffer.old }
    ensures listing_holds { ListingHolds }
{
    if buffer.len() < LISTING_ROOM {
        return 0;
    }
    let mut out = Text::new(0, buffer);
    let loaded = wpl::load(file, records::NEWEST);
    if loaded.refusal == 0 {
        let state = loaded.state;
        let plan = state.plan;
        put_plan(
            records::u16_at(file, records::VERSION_OFFSET),
            plan,
            &mut out,
        );
        return out.at;
    }
    out.refusal(u64::from(loaded.refusal), loaded.place as u64);
    out.byte(b'\n');
    out.at
}

// Numbers, a space before each.
fn put_floats(numbers: &[f32], out: &mut Text)
    requires { Fits (9 * length numbers.now) out.old }
    ensures { Added (floats_to numbers.now (length numbers.now)) out.old out.new × AtMost (9 * length numbers.now) out.old out.new }
{
    for x in numbers {
        out.byte(b' ');
        out.float(*x);
    }
}

fn put_sense(sense: u32, out: &mut Text)
    requires { Fits 9 out.old }
    ensures { Added (sense_text sense) out.old out.new × AtMost 9 out.old out.new }
{
    if sense == 1 {
        out.text(b" sense 1");
    } else {
        out.text(b" sense -1");
    }
}

// A command of six numbers, or of four and a sense.
fn put_command(kind: u32, sense: u32, numbers: &[f32], out: &mut Text)
    requires { (6 ≤ length numbers.now) × Fits 59 out.old }
    ensures { Added (command_text kind sense numbers.now) out.old out.new × AtMost 59 out.old out.new }
{
    match kind {
        LINE_KIND => {
            out.text(b" line");
            put_floats(&numbers[..LINE_NUMBERS], out);
        }
        CIRCLE_KIND => {
            out.text(b" circle");
            put_floats(&numbers[..CIRCLE_NUMBERS], out);
            put_sense(sense, out);
        }
        _ => out.text(b" nothing"),
    }
}

// A word of an answer behind a name.
fn put_word(name: &[u8], value: u32, out: &mut Text)
    requires { Fits (length name.now + 20) out.old }
    ensures { Added (count_text name.now value) out.old out.new × AtMost (length name.now + 20) out.old out.new }
{
    out.count(name, u64::from(value));
}

fn put_refused(number: u32, place: u32, out: &mut Text)
    requires { Fits 53 out.old }
    ensures { Added (space ++ refusal_text number place) out.old out.new × AtMost 53 out.old out.new }
{
    out.byte(b' ');
    out.refusal(u64::from(number), u64::from(place));
}

// The command and the heading, or the refusal.
fn put_guided(answer: &[u32], numbers: &[f32], out: &mut Text)
    requires { (8 ≤ length answer.now) × ((6 ≤ length numbers.now) × Fits 88 out.old) }
    ensures { Added (guided_text answer.now numbers.now) out.old out.new × AtMost 88 out.old out.new }
{
    if answer[REFUSAL] == 0 {
        put_command(answer[KIND], answer[SENSE], numbers, out);
        put_word(b" heading ", answer[HEADING], out);
        return;
    }
    put_refused(answer[REFUSAL], answer[PLACE], out);
}

fn put_progress(answer: &[u32], out: &mut Text)
    requires { (8 ≤ length answer.now) × Fits 85 out.old }
    ensures { Added (progress_text answer.now) out.old out.new × AtMost 85 out.old out.new }
{
    put_word(b" index ", answer[INDEX], out);
    put_word(b" phase ", answer[PHASE], out);
    put_word(b" finished ", answer[FINISHED], out);
    out.byte(b'\n');
}

// The line of a fix, by its number, the words of its answer and the numbers of its command. It takes FIX_ROOM bytes at most.
pub fn put_fix(number: u64, answer: &[u32], numbers: &[f32], out: &mut Text)
    requires { (8 ≤ length answer.now) × ((6 ≤ length numbers.now) × Fits 197 out.old) }
    ensures wrote { Added (fix_text number answer.now numbers.now) out.old out.new × AtMost 197 out.old out.new }
    ensures fix_line_holds { FixLineHolds }
{
    out.count(b"fix ", number);
    put_guided(answer, numbers, out);
    put_progress(answer, out);
}

// What a file's load answers.
pub fn put_load(number: u8, place: usize, out: &mut Text)
    requires { Fits 58 out.old }
    ensures { Added (load_text number place) out.old out.new }
{
    out.text(b"load ");
    out.refusal(u64::from(number), place as u64);
    out.byte(b'\n');
}

// The bytes of a note.
pub fn put_note(note: &[u8], out: &mut Text)
    requires { Fits (6 + 2 * length note.now) out.old }
    ensures { Added (note_text note.now) out.old out.new }
{
    out.text(b"note ");
    out.bytes(note);
    out.byte(b'\n');
}

// What a write answers, and the bytes of its room afterwards.
pub fn put_written(written: Written, room: &[u8], out: &mut Text)
    requires { Fits (88 + 2 * length room.now) out.old }
    ensures wrote { Added (written_text written room.now) out.old out.new }
    ensures answers_hold { AnswersHold }
{
    out.text(b"write ");
    out.refusal(u64::from(written.refusal), written.place as u64);
    out.count(b" length ", written.length as u64);
    out.byte(b' ');
    out.bytes(room);
    out.byte(b'\n');
}
