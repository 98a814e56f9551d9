// An answer and a command as C sees them: eight words and six numbers, in slices that a caller lends.
#![tactic(auto)]

ghost use Rattle.std.specs.Prelude.{◌≡◌, ◌+◌, ◌≤◌, length};
ghost use Rattle.buffers.specs.Splice.{over, splice};
ghost use Rattle.c_answer.specs.Words.{word_of, flag_of, kind_of, sense_word, command_sense, answer_words, command_numbers};
ghost use Rattle.c_answer.specs.Example.{AnswerExample, CommandExample};

use guidance::Command;
use manager::Answer;

// The number of the interface for C. It grows whenever a word moves or a function changes.
pub const INTERFACE: u32 = 2;

// The words of an answer, and the numbers of a command.
pub const ANSWER: usize = 8;

pub const COMMAND: usize = 6;

// The kinds of command. Numbers and no enum: they are words of the interface for C, and `kind_of` fixes them.
const NO_COMMAND: u32 = 0;

pub const LINE_KIND: u32 = 1;

pub const CIRCLE_KIND: u32 = 2;

// How many values a word has.
const WORD_VALUES: usize = 4294967296;

// What a word holds of a number. No `try_from`: `word_of` keeps the low bits of a number that no word holds.
#[tactic(auto, unfolding(crate::specs::Words::word_of))]
pub fn word(n: usize) -> u32
    ensures { result ≡ word_of n }
{
    (n % WORD_VALUES) as u32
}

#[tactic(auto, unfolding(crate::specs::Words::flag_of))]
pub fn flag(b: bool) -> u32
    ensures { result ≡ flag_of b }
{
    u32::from(b)
}

#[tactic(auto, unfolding(crate::specs::Words::kind_of))]
fn kind(command: Command) -> u32
    ensures { result ≡ kind_of command }
{
    match command {
        Command::Line { .. } => LINE_KIND,
        Command::Circle { .. } => CIRCLE_KIND,
        Command::Nothing => NO_COMMAND,
    }
}

// +1 for clockwise, -1 for the other way. No `from`: `sense_word` knows a sense by its sign alone.
#[tactic(auto, unfolding(crate::specs::Words::sense_word, conditions::specs::Choose::choose))]
fn sense_word(sense: i8) -> u32
    ensures { result ≡ sense_word sense }
{
    if sense < 0 {
        return integers::MINUS_ONE;
    }
    1
}

#[tactic(auto, unfolding(crate::specs::Words::command_sense))]
fn command_sense(command: Command) -> u32
    ensures { result ≡ command_sense command }
{
    match command {
        Command::Circle { sense, .. } => sense_word(sense),
        Command::Line { .. } | Command::Nothing => 0,
    }
}

// An answer into the first words of a part.
#[tactic(auto, using(crate::proofs::Anchors::answers), unfolding(crate::specs::Words::answer_words))]
pub fn put_answer(answer: Answer, part: &mut [u32])
    requires { 8 ≤ length part.old }
    ensures part_after { part.new ≡ over (answer_words answer) part.old }
    ensures answer_example { AnswerExample }
{
    let command = answer.command;
    let values = [
        answer.refusal as u32,
        word(answer.place),
        kind(command),
        command_sense(command),
        answer.heading as u32,
        word(answer.index),
        answer.phase as u32,
        flag(answer.finished),
    ];
    buffers::put(&values, part);
}

// An answer at its place among others. It and `put_command_at` are one call each, and a trait over both would be longer than the two.
#[tactic(auto, using(buffers::proofs::SpliceLaws::lent))]
pub fn put_answer_at(answer: Answer, at: usize, words: &mut [u32])
    requires { at + 8 ≤ length words.old }
    ensures { words.new ≡ splice at (answer_words answer) words.old }
{
    put_answer(answer, &mut words[at..]);
}

// A command into the first numbers of a part.
#[tactic(auto, using(crate::proofs::Anchors::commands), unfolding(crate::specs::Words::command_numbers))]
pub fn put_command(command: Command, part: &mut [f32])
    requires { 6 ≤ length part.old }
    ensures part_after { part.new ≡ over (command_numbers command) part.old }
    ensures command_example { CommandExample }
{
    let numbers = match command {
        Command::Line { start, direction } => [
            start.north,
            start.east,
            start.down,
            direction.north,
            direction.east,
            direction.down,
        ],
        Command::Circle { centre, radius, .. } => [
            centre.north,
            centre.east,
            centre.down,
            radius,
            0.0,
            0.0,
        ],
        Command::Nothing => [0.0; COMMAND],
    };
    buffers::put(&numbers, part);
}

// A command at its place among others.
#[tactic(auto, using(buffers::proofs::SpliceLaws::lent))]
pub fn put_command_at(command: Command, at: usize, numbers: &mut [f32])
    requires { at + 6 ≤ length numbers.old }
    ensures { numbers.new ≡ splice at (command_numbers command) numbers.old }
{
    put_command(command, &mut numbers[at..]);
}
