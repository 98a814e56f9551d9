// Answers the questions on standard input, a line for each. A question is: its letter, a number u32, a room u16, a size u16, and a plan file of
// that size; numbers are big-endian.
//   L  the file's load by the reader of that number: its refusal and place
//   N  the note of that number: its bytes
//   W  the file, loaded by the newest reader and written at the version of that number into so much room: refusal, place, length, and the
//      room's bytes afterwards, which were AA before
// It takes no arguments; those, and input that can't be read, are trouble: one line on standard error and nothing else. An answer that can't be
// written is the last.
#![tactic(auto)]

ghost use Rattle.std.specs.Prelude.{◌<◌, length, IfSome};

use console::WriteFailed;
use text::Text;
use wpl::Written;

// Where an argument would stand, behind the program's own name.
const ARGUMENT: usize = 1;

// Where a question's numbers stand, and its bytes before the file.
const NUMBER_OFFSET: usize = 1;

const ROOM_OFFSET: usize = 5;

const SIZE_OFFSET: usize = 7;

const HEAD_BYTES: usize = 9;

// The most bytes of questions that are read.
const MOST_QUESTIONS: usize = 65536;

// The most room that is written into.
const MOST_ROOM: usize = 8192;

// What stands in the room before.
const BLANK: u8 = 0xAA;

// Room for a line: that of a write into the most room.
const LINE_ROOM: usize = 88 + 2 * MOST_ROOM;

// A question as it stands.
#[derive(Clone, Copy)]
struct Question<'a> {
    letter: u8,
    number: u32,
    room: usize,
    file: &'a [u8],
}

// The first of some questions, and those behind it; none where it is cut short.
fn first(questions: &[u8]) -> Option<(Question<'_>, &[u8])>
    ensures { IfSome result (λ r. length r.1.now < length questions.now) }
{
    let (head, rest) = questions.split_at_checked(HEAD_BYTES)?;
    let size = usize::from(records::u16_at(head, SIZE_OFFSET));
    let (file, others) = rest.split_at_checked(size)?;
    let question = Question {
        letter: head[0],
        number: records::u32_at(head, NUMBER_OFFSET),
        room: usize::from(records::u16_at(head, ROOM_OFFSET)),
        file,
    };
    Some((question, others))
}

fn show_load(rt: HostRuntime, file: &[u8], reader: u32) -> Result<(), WriteFailed> {
    let loaded = wpl::load(file, reader);
    let mut line = [0u8; LINE_ROOM];
    let mut out = Text::new(0, &mut line);
    report::put_load(loaded.refusal, loaded.place, &mut out);
    console::write(rt, out.written())
}

// No note is as long as the most room; the test is for the prover.
fn show_note(rt: HostRuntime, file: &[u8], number: u32) -> Result<(), WriteFailed> {
    let note = wpl::note(file, number as usize);
    let mut line = [0u8; LINE_ROOM];
    if note.len() <= MOST_ROOM {
        let mut out = Text::new(0, &mut line);
        report::put_note(note, &mut out);
        console::write(rt, out.written())
    } else {
        Ok(())
    }
}

// The room is no longer than the most; the test is for the prover.
fn show_written(rt: HostRuntime, written: Written, room: &[u8]) -> Result<(), WriteFailed> {
    let mut line = [0u8; LINE_ROOM];
    if room.len() <= MOST_ROOM {
        let mut out = Text::new(0, &mut line);
        report::put_written(written, room, &mut out);
        console::write(rt, out.written())
    } else {
        Ok(())
    }
}

fn show_write(rt: HostRuntime, file: &[u8], version: u32, room: usize) -> Result<(), WriteFailed> {
    let loaded = wpl::load(file, records::NEWEST);
    let mut space = [BLANK; MOST_ROOM];
    if room <= MOST_ROOM {
        let buffer = &mut space[..room];
        let written = wpl::write(loaded.state, version, buffer);
        show_written(rt, written, buffer)
    } else {
        console::write(rt, b"room over 8192\n")
    }
}

fn show(rt: HostRuntime, question: Question) -> Result<(), WriteFailed> {
    let file = question.file;
    match question.letter {
        b'L' => show_load(rt, file, question.number),
        b'N' => show_note(rt, file, question.number),
        b'W' => show_write(rt, file, question.number, question.room),
        _ => console::write(rt, b"no such question\n"),
    }
}

// All questions, up to one that is cut short, or whose answer can't be written.
fn show_all(rt: HostRuntime, questions: &[u8]) -> Result<(), WriteFailed> {
    let mut rest = questions;
    while let Some((question, others)) = first(rest) {
        show(rt, question)?;
        rest = others;
    }
    if rest.is_empty() {
        Ok(())
    } else {
        console::write(rt, b"question cut short\n")
    }
}

fn main(rt: HostRuntime) {
    if console::has_argument(&rt, ARGUMENT) {
        console::complain(rt, b"usage: answers < QUESTIONS\n");
        return;
    }
    let mut space = [0u8; MOST_QUESTIONS];
    if let Ok(count) = console::read(rt, &mut space) {
        let _ = show_all(rt, &space[..count]);
    }
}
