// Plan files: load, write, and the notes of a file (docs/RULES.md, sections 5 and 6).
#![tactic(auto)]

ghost use Rattle.std.specs.Prelude.{◌≡◌, ◌+◌, ◌≤◌, [], length, take, drop, unwrap_or};
ghost use Rattle.std.specs.Option.{option_copied};
ghost use Rattle.std.specs.Iterator.{YieldsFirstBy, item_count};
ghost use Rattle.records.specs.Walk.{walk};
ghost use Rattle.conditions.specs.All.{All};
ghost use Rattle.refusals.specs.Outcome.{good};
ghost use Rattle.refusals.specs.Sweep.{passed_of};
ghost use Rattle.plan.specs.Limits.{most_points};
ghost use Rattle.plan.specs.Places.{plan_numbers, numbers_of, Filled};
ghost use Rattle.plan.specs.Lent.{lent_plan};
ghost use Rattle.manager.specs.declared.State.{State};
ghost use Rattle.manager.specs.State.{with_progress};
ghost use Rattle.records.specs.Kinds.{Parts, no_parts};
ghost use Rattle.records.specs.Gather.{header_length, InRange};
ghost use Rattle.records.specs.Held.{answer_of, numbers_in};
ghost use Rattle.wpl.specs.Header.{marked_of, area_fits, header_of};
ghost use Rattle.wpl.specs.Load.{records_of, finish_of, load_of, loaded_of, refused_of, head_from, head_in, entered_of};
ghost use Rattle.wpl.specs.Write.{carried_since, write_of, written_of, buffer_of};
ghost use Rattle.wpl.specs.RoundTrip.{RoundTrip, EveryReader};
ghost use Rattle.wpl.specs.Starts.{Starts};
ghost use Rattle.wpl.specs.Order.{Refused, load_order, write_order};
ghost use Rattle.wpl.specs.Note.{note_in, note_of, notes_in, notes_of, record_seen, records_seen, Numbered};

use manager::{Progress, State};
use plan::{Head, Lent, Mode, Plan};
use records::{AREA_OFFSET, Gathered, MARK, NEWEST, SERIAL_OFFSET, VERSION_OFFSET};
use refusals::Refusal;

// The most bytes after the header.
pub const MOST_AREA: usize = 8192;

// Where the blocks of a plan's numbers start.
const NORTHS_START: usize = plan::NORTH_BLOCK * plan::MOST_POINTS;

const EASTS_START: usize = plan::EAST_BLOCK * plan::MOST_POINTS;

const DOWNS_START: usize = plan::DOWN_BLOCK * plan::MOST_POINTS;

const COURSES_START: usize = plan::COURSE_BLOCK * plan::MOST_POINTS;

// A state, or a refusal with its place and the empty state: no Result, as `Starts` and rule 15.2 speak of the state of a refused load.
#[derive(Clone, Copy)]
pub struct Loaded {
    pub refusal: u8,
    pub place: usize,
    pub state: State,
}

// A load without the numbers, which are lent: the head and the progress of the state. It is no Result, as Loaded is none.
#[derive(Clone, Copy)]
pub struct Entered {
    pub refusal: u8,
    pub place: usize,
    pub head: Head,
    pub progress: Progress,
}

// The length of the file that was written, or a refusal with its place and length 0: no Result, as C gets these three (17.7) and `written_of` has them.
#[derive(Clone, Copy)]
pub struct Written {
    pub refusal: u8,
    pub place: usize,
    pub length: usize,
}

// A record of a file.
#[derive(Clone, Copy)]
struct Record<'a> {
    kind: u8,
    body: &'a [u8],
}

// The records that some bytes begin with, up to one that is cut short.
#[derive(Clone, Copy)]
struct Records<'a>(&'a [u8]);

impl<'a> Iterator for Records<'a> {
    type Item = Record<'a>;

    ghost next_gives = { YieldsFirstBy record_seen (λ s. records_seen (walk s.0.now)) };

    ghost remaining = { item_count (λ s. records_seen (walk s.0.now)) };

    fn next(&mut self) -> Option<Record<'a>> {
        let [kind, size, rest @ ..] = self.0 else {
            return None;
        };
        let (body, rest) = rest.split_at_checked(usize::from(*size))?;
        self.0 = rest;
        Some(Record { kind: *kind, body })
    }
}

// The kind of notes.
const NOTE: u8 = records::NOTE_ROW.kind;

// Whether a file starts with the mark.
fn marked(file: &[u8]) -> bool
    requires { header_length ≤ length file.now }
    ensures { result ≡ marked_of file.now }
{
    file.starts_with(&MARK)
}

// Whether the area length is that of the bytes after the header, and not too long.
fn area_fits(file: &[u8]) -> bool
    requires { header_length ≤ length file.now }
    ensures { result ≡ area_fits file.now }
{
    let area = usize::from(records::u16_at(file, AREA_OFFSET));
    area == file.len() - records::HEADER_LENGTH && area <= MOST_AREA
}

// Refusals 1 to 5.
fn header(file: &[u8]) -> Result<(), Refusal>
    ensures { result ≡ passed_of (header_of file.now) }
{
    if file.len() < records::HEADER_LENGTH {
        return Err(refusals::failed(refusals::FILE_TOO_SHORT));
    }
    if !marked(file) {
        return Err(refusals::failed(refusals::NO_MARK));
    }
    if records::u16_at(file, VERSION_OFFSET) == 0 {
        return Err(refusals::failed(refusals::NO_VERSION));
    }
    if records::u32_at(file, SERIAL_OFFSET) == 0 {
        return Err(refusals::failed(refusals::NO_SERIAL));
    }
    if !area_fits(file) {
        return Err(refusals::failed(refusals::WRONG_AREA));
    }
    Ok(())
}

// A refused load: the head and the progress of the empty state.
fn refuse(found: Refusal) -> Entered
    ensures { result ≡ entered_of (refused_of found) }
{
    let head = Head {
        serial: 0,
        mode: Mode::Lines,
        radius: 0,
        count: 0,
    };
    let progress = Progress {
        index: 0,
        phase: 0,
        finished: false,
    };
    Entered {
        refusal: found.number,
        place: found.place,
        head,
        progress,
    }
}

// What the records give beside the numbers.
fn head_of(serial: u32, gathered: Gathered) -> Head
    ensures { result ≡ head_from serial gathered }
{
    Head {
        serial,
        mode: plan::mode_of(gathered.radius, gathered.given),
        radius: gathered.radius,
        count: gathered.count,
    }
}

// The head of the plan that the records give, by its rules.
fn finish(serial: u32, gathered: Gathered, numbers: &[i32]) -> Result<Head, Refusal>
    requires { (a : Parts) × (InRange a × ((gathered ≡ answer_of a) × (numbers.now ≡ numbers_in a))) }
    ensures { (a : Parts) → gathered ≡ answer_of a → numbers.now ≡ numbers_in a → result ≡ head_in (finish_of serial a) }
{
    let head = head_of(serial, gathered);
    let plan = Lent {
        head,
        norths: &numbers[NORTHS_START..EASTS_START],
        easts: &numbers[EASTS_START..DOWNS_START],
        downs: &numbers[DOWNS_START..COURSES_START],
        courses: &numbers[COURSES_START..plan::NUMBERS],
    };
    plan.rules(gathered.given)?;
    Ok(head)
}

// A load into numbers that are zero, which a refused one may leave in any state: the head of the plan.
fn read_into(file: &[u8], reader: u32, numbers: &mut [i32]) -> Result<Head, Refusal>
    requires { numbers.old ≡ numbers_in no_parts }
    ensures value { result ≡ head_in (load_of reader file.now) }
    ensures numbers_after { (s : State) → load_of reader file.now ≡ good s → numbers.new ≡ numbers_of s.plan }
{
    if !(1..=NEWEST).contains(&reader) {
        return Err(refusals::failed(refusals::NO_VERSION));
    }
    header(file)?;
    let version = records::u16_at(file, VERSION_OFFSET);
    let gathered = records::gather(file, reader, version, numbers)?;
    finish(records::u32_at(file, SERIAL_OFFSET), gathered, numbers)
}

// The plan that a file gives to a reader of a version, into numbers that are lent: norths, easts, downs and courses, as many of each as a plan
// has places. Refused, they are zero.
pub fn load_into(file: &[u8], reader: u32, numbers: &mut [i32]) -> Entered
    requires { length numbers.old ≡ plan_numbers }
    ensures value { result ≡ entered_of (loaded_of (load_of reader file.now)) }
    ensures numbers_after { numbers.new ≡ numbers_of (loaded_of (load_of reader file.now)).state.plan }
    ensures starts { Starts reader file.now }
{
    buffers::clear(numbers);
    match read_into(file, reader, numbers) {
        Ok(head) => Entered {
            refusal: 0,
            place: 0,
            head,
            progress: manager::first(),
        },
        Err(found) => {
            buffers::clear(numbers);
            refuse(found)
        }
    }
}

// As many numbers from a place on as a plan has of one kind.
fn block_of(numbers: &[i32], from: usize) -> [i32; plan::MOST_POINTS]
    requires { from + most_points ≤ length numbers.now }
    ensures { result ≡ take most_points (drop from numbers.now) }
{
    let mut block = [0i32; plan::MOST_POINTS];
    let to = from + plan::MOST_POINTS;
    buffers::put(&numbers[from..to], &mut block);
    block
}

// The state at the start of the plan that a file gives to a reader of a version, or the first refusal.
pub fn load(file: &[u8], reader: u32) -> Loaded
    ensures value { result ≡ loaded_of (load_of reader file.now) }
    ensures starts { Starts reader file.now }
    ensures all { All Refused load_order }
{
    let mut numbers = [0i32; plan::NUMBERS];
    let entered = load_into(file, reader, &mut numbers);
    Loaded {
        refusal: entered.refusal,
        place: entered.place,
        state: State {
            plan: Plan {
                head: entered.head,
                norths: block_of(&numbers, NORTHS_START),
                easts: block_of(&numbers, EASTS_START),
                downs: block_of(&numbers, DOWNS_START),
                courses: block_of(&numbers, COURSES_START),
            },
            progress: entered.progress,
        },
    }
}

// The first refusal of a file for a reader of a version, with its place; both are 0 for none: no Option, as its clauses and C have two numbers.
pub fn refusal(file: &[u8], reader: u32) -> Refusal
    ensures number_value { result.number ≡ (loaded_of (load_of reader file.now)).refusal }
    ensures place_value { result.place ≡ (loaded_of (load_of reader file.now)).place }
{
    let mut numbers = [0i32; plan::NUMBERS];
    let entered = load_into(file, reader, &mut numbers);
    Refusal {
        number: entered.refusal,
        place: entered.place,
    }
}

// The least version that can carry a plan of a mode: the first that has the newest kind of its records.
fn carried_since(mode: Mode) -> u32
    ensures { result ≡ carried_since mode }
{
    match mode {
        Mode::Lines => records::POINT_ROW.since as u32,
        Mode::Fillets => records::RADIUS_ROW.since as u32,
        Mode::Dubins => records::COURSE_ROW.since as u32,
    }
}

// Whether a write into so much room is refused, and why.
fn write_refusal(plan: &Lent, progress: Progress, version: u32, room: usize) -> Result<(), Refusal>
    ensures { result ≡ passed_of (write_of (with_progress (lent_plan plan.now) progress) version room) }
{
    if !manager::valid(plan, progress) {
        return Err(refusals::failed(refusals::NO_STATE));
    }
    if !(1..=NEWEST).contains(&version) {
        return Err(refusals::failed(refusals::NO_VERSION));
    }
    if version < carried_since(plan.head.mode) {
        return Err(refusals::failed(refusals::TOO_NEW));
    }
    if room < writer::file_length(plan.head) {
        return Err(refusals::failed(refusals::NO_ROOM));
    }
    Ok(())
}

// The file of a lent plan at a version, into the first bytes of a buffer. Refused, nothing is written.
pub fn write_from(plan: &Lent, progress: Progress, version: u32, file: &mut [u8]) -> Written
    requires { Filled (lent_plan plan.now) }
    ensures value { result ≡ written_of (write_of (with_progress (lent_plan plan.now) progress) version (length file.old)) }
    ensures file_after { file.new ≡ buffer_of (write_of (with_progress (lent_plan plan.now) progress) version (length file.old)) file.old }
    ensures round_trip { RoundTrip (with_progress (lent_plan plan.now) progress) }
    ensures every_reader { EveryReader (with_progress (lent_plan plan.now) progress) }
{
    if let Err(found) = write_refusal(plan, progress, version, file.len()) {
        return Written {
            refusal: found.number,
            place: found.place,
            length: 0,
        };
    }
    writer::put_plan(plan, version as u16, file);
    Written {
        refusal: 0,
        place: 0,
        length: writer::file_length(plan.head),
    }
}

// The same of a state by value, which lends its numbers.
pub fn write(state: State, version: u32, file: &mut [u8]) -> Written
    ensures value { result ≡ written_of (write_of state version (length file.old)) }
    ensures file_after { file.new ≡ buffer_of (write_of state version (length file.old)) file.old }
    ensures round_trip { RoundTrip state }
    ensures every_reader { EveryReader state }
    ensures all { All Refused write_order }
{
    write_from(&state.plan.lent(), state.progress, version, file)
}

// The records of a file.
fn records_in(file: &[u8]) -> Records
    ensures { walk result.0.now ≡ records_of file.now }
{
    Records(file.get(records::HEADER_LENGTH..).unwrap_or(&[]))
}

// The bytes of a note, where there is one.
fn find_note(file: &[u8], number: usize) -> Option<&[u8]>
    ensures { unwrap_or (option_copied result) [] ≡ note_in number (records_of file.now) }
{
    let note = records_in(file)
        .filter(|record| record.kind == NOTE)
        .nth(number.checked_sub(1)?)?;
    Some(note.body)
}

// The bytes of a note, by its number from 1, or no bytes where the newest reader refuses the file or there is no such note.
pub fn note(file: &[u8], number: usize) -> &[u8]
    ensures { result.now ≡ note_of file.now number }
{
    let found = refusal(file, NEWEST);
    if found.number != 0 {
        return &file[..0];
    }
    find_note(file, number).unwrap_or(&[])
}

// The notes among a file's records, up to one that is cut short.
fn count_notes(file: &[u8]) -> usize
    ensures { result ≡ notes_in (records_of file.now) }
{
    records_in(file).filter(|each| each.kind == NOTE).count()
}

// How many notes a file has, 0 where the newest reader refuses it.
pub fn notes(file: &[u8]) -> usize
    ensures value { result ≡ notes_of file.now }
    ensures numbered { Numbered file.now }
{
    let found = refusal(file, NEWEST);
    if found.number != 0 {
        return 0;
    }
    count_notes(file)
}
