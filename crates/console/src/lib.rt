// What programs read and print with, over the system's streams and files. No contract can say what a write does there, nor which bytes a read
// brings; each ends without a fault, and what is handed to write is the text of library functions. Trouble is one line on standard error.
#![tactic(auto)]

ghost use Rattle.std.specs.Prelude.{◌≡◌, ◌+◌, ◌≤◌, ◌<◌, length, drop, IfOk, IfErr};
ghost use Rattle.console.specs.Counts.{IsPrefixLen, count_of};

use std::env::{Env, FillError};
use std::io;
use std::io::{Error, ErrorKind, Print, Read, Write};

// A read that failed, which has been said, and how many bytes were read before it.
#[derive(Clone, Copy)]
pub struct ReadFailed {
    pub count: usize,
}

// A write that failed, which has been said.
#[derive(Clone, Copy)]
pub struct WriteFailed;

// The most bytes that one read brings.
const CHUNK: usize = 4096;

// Room for the system's words for an error, and for its number.
const REASON_ROOM: usize = 256;

// What std puts between those words and that number.
const NUMBER: &str = " (os error ";

// Whether the program was started with an argument at this place. Its own name is at 0.
pub fn has_argument<E: Env>(env: &E, place: usize) -> bool {
    !matches!(env.arg(place, &mut []), Err(FillError::NotPresent))
}

// On standard output. A failure is said; of a pipe that nobody reads any more nothing is.
pub fn write(rt: HostRuntime, text: &[u8]) -> Result<(), WriteFailed> {
    Print::write_all(&rt, text).map_err(|error| {
        if !matches!(error.kind(), ErrorKind::BrokenPipe) {
            fail(rt, b"standard output", &error);
        }
        WriteFailed
    })
}

// On standard error. Where that can't be written, nothing is left to say it on.
pub fn complain(rt: HostRuntime, text: &[u8]) {
    let _ = Print::write_all(&rt.stderr(), text);
}

// An error's text, as much as a room has room for.
fn text_of<'a>(error: &Error, room: &'a mut [u8]) -> &'a [u8]
    ensures { length result.now ≤ length room.old }
{
    let most = room.len();
    let mut rest = &mut room[..];
    let _ = write!(rest, "{error}");
    let end = most.saturating_sub(rest.len());
    &room[..end]
}

// The words of an error's text, without its number.
fn words(text: &[u8]) -> &[u8] {
    match str::from_utf8(text) {
        Ok(text) => match text.split_once(NUMBER) {
            Some((words, _)) => words.as_bytes(),
            None => text.as_bytes(),
        },
        Err(_) => text,
    }
}

// A line on standard error: what failed, as the caller names it, and why, in the system's words.
pub fn fail(rt: HostRuntime, name: &[u8], error: &Error) {
    let mut room = [0u8; REASON_ROOM];
    let text = text_of(error, &mut room);
    complain(rt, name);
    complain(rt, b": ");
    complain(rt, words(text));
    complain(rt, b"\n");
}

// One read of so many bytes at most.
fn read_some<R: Read>(reader: &mut R, most: usize, chunk: &mut [u8]) -> io::Result<usize>
    ensures { IfOk result (λ n. IsPrefixLen n chunk.new × (n ≤ most)) }
{
    let size = most.min(chunk.len());
    reader.read(&mut chunk[..size])
}

// One read behind the first bytes. It goes by way of a chunk, since no contract says what a read leaves behind the bytes that it brings.
fn read_behind<R: Read>(reader: &mut R, done: usize, room: &mut [u8]) -> io::Result<usize>
    requires { done ≤ length room.old }
    ensures count_in_bounds { IfOk result (λ n. done + n ≤ length room.old) }
    ensures room_unchanged { IfOk result (λ n. drop (done + n) room.new ≡ drop (done + n) room.old) }
    ensures room_kept { IfErr result (λ _. room.new ≡ room.old) }
{
    let mut chunk = [0u8; CHUNK];
    let count = read_some(reader, room.len() - done, &mut chunk)?;
    buffers::put(&chunk[..count], &mut room[done..]);
    Ok(count)
}

// Reads until the room is full, the input ends or a read fails, which is said under the input's name. Of a room only the bytes that are counted
// change, and no full room is a failure.
pub fn fill<R: Read>(
    rt: HostRuntime,
    reader: &mut R,
    name: &[u8],
    room: &mut [u8],
) -> Result<usize, ReadFailed>
    ensures prefix_len { IsPrefixLen (count_of result) room.new }
    ensures room_unchanged { drop (count_of result) room.new ≡ drop (count_of result) room.old }
    ensures count_in_bounds { IfErr result (λ e. e.count < length room.old) }
{
    let mut done: usize = 0;
    // No `for`: how many bytes a read brings is known behind it.
    while done < room.len() {
        match read_behind(reader, done, room) {
            Ok(0) => break,
            Ok(count) => done += count,
            Err(error) => {
                fail(rt, name, &error);
                return Err(ReadFailed { count: done });
            }
        }
    }
    Ok(done)
}

// The same of standard input.
pub fn read(rt: HostRuntime, room: &mut [u8]) -> Result<usize, ReadFailed>
    ensures prefix_len { IsPrefixLen (count_of result) room.new }
    ensures room_unchanged { drop (count_of result) room.new ≡ drop (count_of result) room.old }
    ensures count_in_bounds { IfErr result (λ e. e.count < length room.old) }
{
    fill(rt, &mut rt.stdin(), b"standard input", room)
}
