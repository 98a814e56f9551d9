// A state as C sees it: words that a caller keeps. The plan's numbers are lent where they lie, so that no state is made here.
#![tactic(auto)]

ghost use Rattle.std.specs.Prelude.{◌≡◌, true, ◌++◌, ◌≤◌, ◌<◌, length};
ghost use Rattle.std.specs.Int.{w32};
ghost use Rattle.std.proofs.Common.{SFits};
ghost use Rattle.buffers.specs.Splice.{over, splice};
ghost use Rattle.plan.specs.Places.{number_at};
ghost use Rattle.plan.specs.Lent.{lent_plan};
ghost use Rattle.c_state.specs.Layout.{Layout, Edges};
ghost use Rattle.c_state.specs.Stored.{serial_place, index_place, norths_place, state_length, mode_word, mode_at, in_words, head_words, progress_words, word_at, head_at, progress_at, plan_at, holds_state, pair_fits, AreWords};

use manager::Progress;
use plan::{Head, Lent, Mode};

// Where a state's words stand: these seven, then as many norths, easts, downs and courses as a plan has places.
pub const SERIAL_PLACE: usize = 0;

pub const MODE_PLACE: usize = 1;

pub const RADIUS_PLACE: usize = 2;

pub const COUNT_PLACE: usize = 3;

pub const INDEX_PLACE: usize = 4;

pub const PHASE_PLACE: usize = 5;

pub const FINISHED_PLACE: usize = 6;

pub const NORTHS_PLACE: usize = 7;

pub const EASTS_PLACE: usize = NORTHS_PLACE + plan::MOST_POINTS;

pub const DOWNS_PLACE: usize = EASTS_PLACE + plan::MOST_POINTS;

pub const COURSES_PLACE: usize = DOWNS_PLACE + plan::MOST_POINTS;

// How many words a state takes.
pub const STATE_LENGTH: usize = COURSES_PLACE + plan::MOST_POINTS;

// The words of the modes. Numbers and no enum: they are words of the interface for C, and `mode_word` fixes them.
const LINES_WORD: u32 = 0;

const FILLETS_WORD: u32 = 1;

const DUBINS_WORD: u32 = 2;

// The word of a state that is finished.
const FINISHED_WORD: u32 = 1;

// The mode of a word. No `try_from`: `mode_at` has a mode for every word, and `holds_state` refuses the others before.
#[tactic(auto, unfolding(crate::specs::Stored::mode_at, conditions::specs::Choose::choose))]
fn mode_at(word: u32) -> Mode
    ensures { result ≡ mode_at word }
{
    match word {
        LINES_WORD => Mode::Lines,
        FILLETS_WORD => Mode::Fillets,
        _ => Mode::Dubins,
    }
}

// The word of a mode.
#[tactic(auto, unfolding(crate::specs::Stored::mode_word))]
fn mode_word(mode: Mode) -> u32
    ensures { result ≡ mode_word mode }
{
    match mode {
        Mode::Lines => LINES_WORD,
        Mode::Fillets => FILLETS_WORD,
        Mode::Dubins => DUBINS_WORD,
    }
}

// The bits of a word, which is a number of 32 bits.
#[tactic(auto, unfolding(crate::specs::Stored::word_at))]
pub fn word_at(words: &[i32], i: usize) -> u32
    requires { i < length words.now }
    ensures { (result ≡ word_at words.now i) × SFits w32 (number_at words.now i) }
{
    integers::unsigned(words[i])
}

// Whether a state's words and an answer have their lengths.
#[tactic(auto, unfolding(crate::specs::Stored::pair_fits, conditions::specs::Both::both))]
pub fn fits(state: usize, answer: usize, least: usize) -> bool
    ensures { result ≡ pair_fits state answer least }
{
    STATE_LENGTH <= state && least <= answer
}

// Whether words hold a state: a mode that exists, and each small number in its type. What is wrong with the plan, the manager refuses.
#[tactic(auto, using(crate::proofs::Anchors::edges), unfolding(crate::specs::Stored::holds_state, conditions::specs::Both::both))]
pub fn holds_state(words: &[i32]) -> bool
    requires { state_length ≤ length words.now }
    ensures value { result ≡ holds_state words.now }
    ensures edges { Edges }
{
    word_at(words, MODE_PLACE) <= DUBINS_WORD
        && u16::try_from(word_at(words, RADIUS_PLACE)).is_ok()
        && u8::try_from(word_at(words, PHASE_PLACE)).is_ok()
        && word_at(words, FINISHED_PLACE) <= FINISHED_WORD
}

// What words that hold a state say of its plan beside the numbers. All words of it are read.
pub fn head_at(words: &[i32]) -> Head
    requires { (state_length ≤ length words.now) × (holds_state words.now ≡ true) }
    ensures { (result ≡ head_at words.now) × AreWords serial_place index_place words.now }
{
    Head {
        serial: word_at(words, SERIAL_PLACE),
        mode: mode_at(word_at(words, MODE_PLACE)),
        radius: word_at(words, RADIUS_PLACE) as u16,
        count: word_at(words, COUNT_PLACE) as usize,
    }
}

// The plan of words that hold a state, lent as its blocks lie. All words of its head are read.
pub fn plan_at(words: &[i32]) -> Lent<'_>
    requires { (state_length ≤ length words.now) × (holds_state words.now ≡ true) }
    ensures { (lent_plan result ≡ plan_at words.now) × AreWords serial_place index_place words.now }
{
    Lent {
        head: head_at(words),
        norths: &words[NORTHS_PLACE..EASTS_PLACE],
        easts: &words[EASTS_PLACE..DOWNS_PLACE],
        downs: &words[DOWNS_PLACE..COURSES_PLACE],
        courses: &words[COURSES_PLACE..STATE_LENGTH],
    }
}

// How far they say that it is flown. All words of it are read.
pub fn progress_at(words: &[i32]) -> Progress
    requires { (state_length ≤ length words.now) × (holds_state words.now ≡ true) }
    ensures { (result ≡ progress_at words.now) × AreWords index_place norths_place words.now }
{
    Progress {
        index: word_at(words, INDEX_PLACE) as usize,
        phase: word_at(words, PHASE_PLACE) as u8,
        finished: word_at(words, FINISHED_PLACE) == FINISHED_WORD,
    }
}

// The words before the blocks.
#[tactic(auto, using(crate::proofs::Anchors::layout, buffers::proofs::SpliceLaws::behind))]
pub fn put_head(head: Head, progress: Progress, words: &mut [i32])
    requires { norths_place ≤ length words.old }
    ensures words_after { words.new ≡ over (head_words head ++ progress_words progress) words.old }
    ensures layout { Layout }
{
    let bits = [
        head.serial,
        mode_word(head.mode),
        head.radius as u32,
        c_answer::word(head.count),
    ];
    buffers::put(&bits.map(integers::signed), words);
    put_progress(progress, words);
}

// Index, phase and finished alone.
#[tactic(auto, using(buffers::proofs::SpliceLaws::lent))]
pub fn put_progress(progress: Progress, words: &mut [i32])
    requires { norths_place ≤ length words.old }
    ensures { words.new ≡ splice index_place (progress_words progress) words.old }
{
    let bits = [
        c_answer::word(progress.index),
        progress.phase as u32,
        c_answer::flag(progress.finished),
    ];
    buffers::put(&bits.map(integers::signed), &mut words[INDEX_PLACE..]);
}
