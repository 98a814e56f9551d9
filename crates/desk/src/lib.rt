// The desk's check of a plan file, the notes of one, and the strips of a loaded one, for C (docs/RULES.md, 5.3 to 5.6, sections 17 and 20). The
// header is include/farnkuppel.h.
#![tactic(auto)]

ghost use Rattle.std.specs.Prelude.{◌≡◌, [], ◌∷◌, ◌⊎◌, ◌≤◌, length};
ghost use Rattle.refusals.specs.Numbers.{not_strips};
ghost use Rattle.c_answer.specs.Words.{interface};
ghost use Rattle.c_state.specs.Stored.{state_length, taken_of};
ghost use Rattle.strips.specs.Check.{checked_as, numbered};
ghost use Rattle.wpl.specs.Load.{load_of, loaded_of};
ghost use Rattle.wpl.specs.Note.{note_of, notes_of, Numbered};
ghost use Rattle.desk.specs.Calls.{call_result, words_fit, words_answer, most_note, note_fits, note_buffer, note_answer, check_words, check_in, strips_words, strips_fit, strip_row_in, strip_words, strip_fits};
ghost use Rattle.desk.specs.Example.{NoteExample, WordsExample, StripsExample};

use strips::{Fault, Strip, Told};

// The most bytes of a note.
const MOST_NOTE: usize = records::NOTE_ROW.high;

// The words of the answers to a check, to a note, and to a count of notes.
const CHECK_ANSWER: usize = 2;

const NOTE_ANSWER: usize = 1;

const NOTES_ANSWER: usize = 1;

// And to a check for strips, and to one strip.
const STRIPS_ANSWER: usize = 4;

const STRIP_ANSWER: usize = 3;

// The number of this interface, by which a caller knows that the archive and the header belong together.
pub fn farnkuppel_interface() -> u32
    ensures { result ≡ interface }
{
    c_answer::INTERFACE
}

// The number of the first refusal, 0 if the file loads. Whether it is a strip plan is not asked.
pub fn farnkuppel_refusal(file: &[u8], reader: u32) -> u32
    ensures value { result ≡ (loaded_of (load_of reader file.now)).refusal }
    ensures fact { ((result ≤ 12) ⊎ (result ≡ 17)) × (result ≡ not_strips → ⊥) }
{
    let first = wpl::refusal(file, reader);
    first.number as u32
}

// The same, with the place of the refusal in the answer.
pub fn farnkuppel_check(file: &[u8], reader: u32, answer: &mut [u32]) -> u32
    ensures value { result ≡ call_result (words_fit 2 answer.old) (loaded_of (load_of reader file.now)).refusal }
    ensures answer_after { answer.new ≡ words_answer (words_fit 2 answer.old) (check_words (loaded_of (load_of reader file.now))) answer.old }
    ensures words_example { WordsExample }
{
    if answer.len() < CHECK_ANSWER {
        return refusals::MISFIT as u32;
    }
    let found = wpl::refusal(file, reader);
    let number = found.number as u32;
    buffers::put(&[number, c_answer::word(found.place)], answer);
    number
}

// Whether a buffer has room for any note, and an answer its length.
fn fits(buffer: usize, answer: usize) -> bool
    ensures { result ≡ note_fits buffer answer }
{
    if MOST_NOTE <= buffer {
        return NOTE_ANSWER <= answer;
    }
    false
}

// The bytes of a note, by its number from 1, and how many they are: none where the newest reader refuses the file or there is no such note.
pub fn farnkuppel_note(file: &[u8], number: u32, note: &mut [u8], answer: &mut [u32]) -> u32
    ensures value { result ≡ call_result (note_fits (length note.old) (length answer.old)) 0 }
    ensures note_after { note.new ≡ note_buffer (note_fits (length note.old) (length answer.old)) (note_of file.now number) note.old }
    ensures answer_after { answer.new ≡ note_answer (note_fits (length note.old) (length answer.old)) (note_of file.now number) answer.old }
    ensures number_len_bound { (length (note_of file.now number) ≤ most_note) × NoteExample }
{
    if !fits(note.len(), answer.len()) {
        return refusals::MISFIT as u32;
    }
    let bytes = wpl::note(file, number as usize);
    buffers::put(bytes, note);
    answer[0] = bytes.len() as u32;
    0
}

// How many notes a file has: none where the newest reader refuses it.
pub fn farnkuppel_notes(file: &[u8], answer: &mut [u32]) -> u32
    ensures value { result ≡ call_result (words_fit 1 answer.old) 0 }
    ensures answer_after { answer.new ≡ words_answer (words_fit 1 answer.old) (notes_of file.now ∷ []) answer.old }
    ensures numbered { Numbered file.now × WordsExample }
{
    if answer.len() < NOTES_ANSWER {
        return refusals::MISFIT as u32;
    }
    answer[0] = wpl::notes(file) as u32;
    0
}

// What the words of a state say of strips: the check, and the row of a strip by its number from 1. Their blocks are lent as they lie.
// In line: each of the two calls has one frame for all of it.
#[inline(always)]
fn told_at(words: &[i32], number: usize) -> Told
    requires { state_length ≤ length words.now }
    ensures checked_value { result.checked ≡ checked_as (check_in (taken_of words.now)) }
    ensures strip_value { result.strip ≡ strip_row_in (taken_of words.now) number }
{
    if c_state::holds_state(words) {
        return strips::told_from(
            &c_state::plan_at(words),
            c_state::progress_at(words),
            number,
        );
    }
    let fault = Fault {
        refusal: refusals::NO_STATE,
        place: 0,
        rule: 0,
    };
    let strip = Strip {
        number: 0,
        course: 0,
        length: 0,
    };
    Told {
        checked: Err(fault),
        strip,
    }
}

// The words of a check: the refusal, its place and rule, and how many strips there are.
fn words_of(checked: Result<usize, Fault>) -> [u32; 4]
    ensures { result ≡ strips_words (numbered checked) }
{
    match checked {
        Ok(strips) => [0, 0, 0, c_answer::word(strips)],
        Err(fault) => [
            u32::from(fault.refusal),
            c_answer::word(fault.place),
            u32::from(fault.rule),
            0,
        ],
    }
}

// Whether the plan of a state is a strip plan.
pub fn farnkuppel_strips(state: &[i32], answer: &mut [u32]) -> u32
    ensures value { result ≡ call_result (strips_fit state.now answer.old) (check_in (taken_of state.now)).refusal }
    ensures answer_after { answer.new ≡ words_answer (strips_fit state.now answer.old) (strips_words (check_in (taken_of state.now))) answer.old }
    ensures strips_example { StripsExample }
{
    if !c_state::fits(state.len(), answer.len(), STRIPS_ANSWER) {
        return refusals::MISFIT as u32;
    }
    // No strip has the number 0: the check alone is asked.
    let told = told_at(state, 0);
    let words = words_of(told.checked);
    buffers::put(&words, answer);
    words[0]
}

// A strip of the plan of a state, by its number from 1: zeros where the plan is no strip plan or has no such strip.
pub fn farnkuppel_strip(state: &[i32], number: u32, answer: &mut [u32]) -> u32
    ensures value { result ≡ call_result (strip_fits state.now answer.old) 0 }
    ensures answer_after { answer.new ≡ words_answer (strip_fits state.now answer.old) (strip_words (strip_row_in (taken_of state.now) number)) answer.old }
{
    if !c_state::fits(state.len(), answer.len(), STRIP_ANSWER) {
        return refusals::MISFIT as u32;
    }
    let told = told_at(state, number as usize);
    let row = told.strip;
    let values = [
        c_answer::word(row.number),
        c_answer::word(row.course),
        c_answer::word(row.length as usize),
    ];
    buffers::put(&values, answer);
    0
}
