// Flies a list of fixes from a plan file, a line for each fix: fly READER PLAN FIXES. A fix is 16 bytes, big-endian: the serial that it names,
// then north, east and down as the bits of an f32. FIXES is read in chunks; the first is flown from the plan, each later one from the state
// before it.
#![tactic(auto)]

ghost use Rattle.std.specs.Prelude.{◌≤◌, ◌<◌, length, IfSome};

use console::WriteFailed;
use flight::Flown;
use manager::State;
use records::u32_at;
use std::env::Env;
use std::fs::File;
use std::io;
use std::io::{Error, ErrorKind};
use text::{Text, float};

// Where each argument stands, behind the program's own name, and where another one would.
const READER: usize = 1;

const PLAN: usize = 2;

const FIXES: usize = 3;

const PAST: usize = 4;

// Room for an argument: one byte more than the longest name of a file.
const NAME_ROOM: usize = 4096;

// The system's number for a name that is too long.
const NAME_TOO_LONG: i32 = 36;

// The bytes of a fix, and of its serial and of each of its numbers.
const FIX_BYTES: usize = 16;

const WORD_BYTES: usize = 4;

// How many fixes a chunk has.
const CHUNK: usize = 256;

const CHUNK_BYTES: usize = FIX_BYTES * CHUNK;

// The lengths of the lists that a chunk is flown with.
const POSITIONS: usize = flight::FIX_NUMBERS * CHUNK;

const ANSWERS: usize = c_answer::ANSWER * CHUNK;

const COMMANDS: usize = c_answer::COMMAND * CHUNK;

// More chunks than any file has: a proved loop has to end.
const MOST_CHUNKS: u64 = 4503599627370496;

// Room for a line that is no fix's.
const LINE_ROOM: usize = 64;

// What stands before a chunk: the reader, how many fixes were flown, and the state after them.
#[derive(Clone, Copy)]
struct Before {
    reader: u32,
    flown: u64,
    state: State,
}

// The lists that a chunk is flown with: its fixes, and room for what is answered to each. They are four, as flight::fly and C take them.
#[derive(Drop)]
struct Lists {
    serials: [u32; CHUNK],
    positions: [f32; POSITIONS],
    answers: [u32; ANSWERS],
    commands: [f32; COMMANDS],
}

// The decimal number that a text is, where a reader's can be it. A digit has to come first, since parse takes a plus sign too.
fn number_of(text: &[u8]) -> Option<u32> {
    if text.first()?.is_ascii_digit() {
        str::from_utf8(text).ok()?.parse().ok()
    } else {
        None
    }
}

// Opens the file of this name. Names are UTF-8; any other can't be opened.
fn open_named(rt: HostRuntime, name: &[u8]) -> io::Result<File> {
    match str::from_utf8(name) {
        Ok(path) => File::open(&rt, path),
        Err(_) => Err(Error::new(ErrorKind::InvalidFilename, "not UTF-8")),
    }
}

// What a file goes by in a line of trouble: its name, or the word where that is empty.
fn called<'a>(word: &'a [u8], name: &'a [u8]) -> &'a [u8] {
    if name.is_empty() { word } else { name }
}

// Opens the file that an argument names, and gives its name too, or says why it can't; the word stands for a name that is too long or empty.
fn open<'a>(
    rt: HostRuntime,
    place: usize,
    word: &[u8],
    room: &'a mut [u8],
) -> Option<(File, &'a [u8])>
    ensures { IfSome result (λ r. length r.1.now ≤ length room.old) }
{
    let Ok(length) = rt.arg(place, room) else {
        console::fail(rt, word, &Error::from_raw_os_error(NAME_TOO_LONG));
        return None;
    };
    let name = &room[..length];
    match open_named(rt, name) {
        Ok(file) => Some((file, name)),
        Err(error) => {
            console::fail(rt, called(word, name), &error);
            None
        }
    }
}

// The numbers of a fix, which stand behind its serial.
fn unpack(fix: &[u8], position: &mut [f32]) {
    for (number, word) in position
        .iter_mut()
        .zip(fix.chunks_exact(WORD_BYTES).skip(1))
    {
        *number = float(u32_at(word, 0));
    }
}

// The line of a fix.
fn show(rt: HostRuntime, number: u64, answer: &[u32], numbers: &[f32]) -> Result<(), WriteFailed>
    requires { (8 ≤ length answer.now) × (6 ≤ length numbers.now) }
{
    let mut line = [0u8; report::FIX_ROOM];
    let mut out = Text::new(0, &mut line);
    report::put_fix(number, answer, numbers, &mut out);
    console::write(rt, out.written())
}

// The line of a plan that is refused.
fn show_refusal(rt: HostRuntime, refusal: u8, place: usize) {
    let mut line = [0u8; LINE_ROOM];
    let mut out = Text::new(0, &mut line);
    out.refusal(u64::from(refusal), place as u64);
    out.byte(b'\n');
    let _ = console::write(rt, out.written());
}

impl Lists {
    fn new() -> Lists {
        Lists {
            serials: [0; CHUNK],
            positions: [0.0; POSITIONS],
            answers: [0; ANSWERS],
            commands: [0.0; COMMANDS],
        }
    }

    // The fixes of a chunk's bytes.
    fn take(&mut self, bytes: &[u8]) {
        let serials = self.serials.iter_mut();
        let positions = self.positions.chunks_mut(flight::FIX_NUMBERS);
        for ((fix, serial), position) in bytes.chunks_exact(FIX_BYTES).zip(serials).zip(positions) {
            *serial = u32_at(fix, 0);
            unpack(fix, position);
        }
    }

    // So many fixes: those of the first chunk from the plan, of a later one from the state before it.
    fn fly(&mut self, before: Before, plan: &[u8], count: usize) -> Flown
        requires { count ≤ 256 }
    {
        let serials = &self.serials[..count];
        let positions = &self.positions[..flight::FIX_NUMBERS * count];
        if before.flown == 0 {
            flight::fly(
                plan,
                before.reader,
                serials,
                positions,
                &mut self.answers,
                &mut self.commands,
            )
        } else {
            flight::run(
                before.state,
                serials,
                positions,
                &mut self.answers,
                &mut self.commands,
            )
        }
    }

    // Their lines, up to one that can't be written.
    fn show(&self, rt: HostRuntime, flown: u64, count: usize) -> Result<(), WriteFailed>
        requires flown_bound { flown < 1152921504606846976 }
        requires count_in_bounds { count ≤ 256 }
    {
        let answers = self.answers.chunks_exact(c_answer::ANSWER);
        let commands = self.commands.chunks_exact(c_answer::COMMAND);
        for (i, (answer, command)) in answers.zip(commands).take(count).enumerate() {
            show(rt, flown + i as u64 + 1, answer, command)?;
        }
        Ok(())
    }
}

// Flies a chunk's bytes, and writes the lines of its fixes, or the refusal of the plan. The state after it, where another chunk may follow: not where
// the plan is refused, nor where a line can't be written.
fn fly_chunk(rt: HostRuntime, before: Before, plan: &[u8], bytes: &[u8]) -> Option<State>
    requires { (before.flown < 1152921504606846976) × (length bytes.now ≤ 4096) }
{
    let count = bytes.len() / FIX_BYTES;
    let mut lists = Lists::new();
    lists.take(bytes);
    let flown = lists.fly(before, plan, count);
    if flown.refusal != 0 {
        show_refusal(rt, flown.refusal, flown.place);
        return None;
    }
    lists.show(rt, before.flown, count).ok()?;
    Some(flown.state)
}

// Says which fix has no more than its first bytes, where the file ends in one.
fn tell_cut(rt: HostRuntime, name: &[u8], count: usize, flown: u64)
    requires { flown < 1152921504606846976 }
{
    if count % FIX_BYTES == 0 {
        return;
    }
    console::complain(rt, name);
    let mut line = [0u8; LINE_ROOM];
    let number = flown + (count / FIX_BYTES) as u64 + 1;
    let mut out = Text::new(0, &mut line);
    out.count(b": fix ", number);
    out.text(b" is cut short\n");
    console::complain(rt, out.written());
}

// Reads a chunk and flies it; one that can't be read whole is not flown. The state after it, where another one may follow.
fn fly_next(
    rt: HostRuntime,
    before: Before,
    plan: &[u8],
    fixes: &mut File,
    name: &[u8],
) -> Option<State>
    requires { before.flown < 1152921504606846976 }
{
    let mut space = [0u8; CHUNK_BYTES];
    let Ok(count) = console::fill(rt, fixes, name, &mut space) else {
        return None;
    };
    let state = fly_chunk(rt, before, plan, &space[..count])?;
    tell_cut(rt, name, count, before.flown);
    (count == CHUNK_BYTES).then_some(state)
}

// Every chunk of the fixes.
fn fly_all(rt: HostRuntime, reader: u32, plan: &[u8], fixes: &mut File, name: &[u8]) {
    let mut state = manager::empty();
    for chunk in 0..MOST_CHUNKS {
        let before = Before {
            reader,
            flown: CHUNK as u64 * chunk,
            state,
        };
        let Some(next) = fly_next(rt, before, plan, fixes, name) else {
            return;
        };
        state = next;
    }
}

// Opens the fixes and flies them.
fn fly_fixes(rt: HostRuntime, reader: u32, plan: &[u8]) {
    let mut room = [0u8; NAME_ROOM];
    if let Some((mut fixes, name)) = open(rt, FIXES, b"FIXES", &mut room) {
        fly_all(rt, reader, plan, &mut fixes, name);
    }
}

// Opens the plan and reads it; the file is closed before the fixes are opened.
fn read_plan(rt: HostRuntime, space: &mut [u8]) -> Option<&[u8]>
    ensures { IfSome result (λ plan. length plan.now ≤ length space.old) }
{
    let mut room = [0u8; NAME_ROOM];
    let (mut plan, name) = open(rt, PLAN, b"PLAN", &mut room)?;
    let Ok(count) = console::fill(rt, &mut plan, name, space) else {
        return None;
    };
    Some(&space[..count])
}

// Reads the plan and goes on with the fixes.
fn fly_plan(rt: HostRuntime, reader: u32) {
    let mut space = [0u8; report::FILE_ROOM];
    if let Some(plan) = read_plan(rt, &mut space) {
        fly_fixes(rt, reader, plan);
    }
}

// The reader's number, which the first argument is.
fn reader(rt: HostRuntime) -> Option<u32> {
    let mut text = [0u8; NAME_ROOM];
    match rt.arg(READER, &mut text) {
        Ok(length) => number_of(&text[..length]),
        Err(_) => None,
    }
}

fn main(rt: HostRuntime) {
    if !console::has_argument(&rt, FIXES) || console::has_argument(&rt, PAST) {
        console::complain(rt, b"usage: fly READER PLAN FIXES\n");
        return;
    }
    match reader(rt) {
        Some(number) => fly_plan(rt, number),
        None => console::complain(rt, b"READER is no decimal number below 4294967296\n"),
    }
}
