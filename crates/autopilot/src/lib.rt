// The path manager for C: a state in words that the caller keeps; loads, fixes, writes and the distance to go over lent memory. The header is
// include/farnkuppel.h.
#![tactic(auto)]

ghost use Rattle.std.specs.Prelude.{◌≡◌, true, ◌≤◌, length};
ghost use Rattle.refusals.specs.Numbers.{no_state};
ghost use Rattle.refusals.specs.Sweep.{passed_of};
ghost use Rattle.buffers.specs.Splice.{over};
ghost use Rattle.guidance.specs.declared.Command.TheVariants.{Nothing};
ghost use Rattle.manager.specs.Step.{stepped_by, step_of};
ghost use Rattle.c_answer.specs.Words.{interface, command_numbers};
ghost use Rattle.c_state.specs.Stored.{serial_place, index_place, norths_place, state_length, plan_at, state_at, holds_state, taken_of, AreWords};
ghost use Rattle.distance.specs.Table.{table_of, distance_by};
ghost use Rattle.wpl.specs.Load.{load_of, loaded_of};
ghost use Rattle.wpl.specs.Write.{write_of, written_of, buffer_of};
ghost use Rattle.autopilot.specs.Held.{Untouched, LoadHolds, FixHolds};
ghost use Rattle.autopilot.specs.CallList.{CallsRun};
ghost use Rattle.autopilot.specs.TwoBuffers.{AlikeBuffers, BuffersFly};
ghost use Rattle.autopilot.specs.Example.{CallExample, Separates, Lengths, DistanceExample};
ghost use Rattle.autopilot.specs.Calls.{load_fits, load_result, load_state, load_answer, fix_fits, refused_words, fix_result, fix_state, fix_answer, fix_command, write_fits, write_from, write_result, write_file, write_answer};
ghost use Rattle.autopilot.specs.Distances.{distances_in, distance_in, distances_fit, distances_result, distances_table, distances_answer, distance_fits, distance_result, distance_answer, TablesStay};

use guidance::Command;
use manager::Decided;
use refusals::Refusal;
use units::Fix;
use wpl::Written;

// The words of the answers to a load, a write and the questions for distances.
pub const LOAD_ANSWER: usize = 2;

pub const WRITE_ANSWER: usize = 3;

pub const DISTANCES_ANSWER: usize = 2;

pub const DISTANCE_ANSWER: usize = 3;

// The number of this interface, by which a caller knows that the archive and the header belong together.
pub fn farnkuppel_interface() -> u32
    ensures { result ≡ interface }
{
    c_answer::INTERFACE
}

// Loads a plan file by a reader of a version, into the state's words as they lie. Refused, they are those of the empty state.
pub fn farnkuppel_load(file: &[u8], reader: u32, state: &mut [i32], answer: &mut [u32]) -> u32
    ensures value { result ≡ load_result (load_fits state.old answer.old) (loaded_of (load_of reader file.now)) }
    ensures state_after { state.new ≡ load_state (load_fits state.old answer.old) (loaded_of (load_of reader file.now)) state.old }
    ensures answer_after { answer.new ≡ load_answer (load_fits state.old answer.old) (loaded_of (load_of reader file.now)) answer.old }
    ensures load_holds { LoadHolds (load_fits state.old answer.old) reader file.now state.old state.new }
    ensures alike_buffers { AlikeBuffers × BuffersFly }
{
    if !c_state::fits(state.len(), answer.len(), LOAD_ANSWER) {
        return refusals::MISFIT as u32;
    }
    let entered = wpl::load_into(
        file,
        reader,
        &mut state[c_state::NORTHS_PLACE..c_state::STATE_LENGTH],
    );
    let head = entered.head;
    let progress = entered.progress;
    c_state::put_head(head, progress, state);
    let number = entered.refusal as u32;
    buffers::put(&[number, c_answer::word(entered.place)], answer);
    number
}

// One fix of the state that words hold. Their blocks are lent as they lie.
fn decide_at(words: &[i32], serial: u32, fix: Fix) -> Decided
    requires { (state_length ≤ length words.now) × (holds_state words.now ≡ true) }
    ensures result_value { stepped_by (plan_at words.now) result ≡ step_of (state_at words.now) serial fix }
    ensures are_words { AreWords serial_place index_place words.now × AreWords index_place norths_place words.now }
{
    manager::decide(
        &c_state::plan_at(words),
        c_state::progress_at(words),
        serial,
        fix,
    )
}

// The answer of words that hold no state, with their index, phase and finished as they stand.
fn refuse(words: &[i32], answer: &mut [u32], command: &mut [f32])
    requires { (state_length ≤ length words.now) × ((8 ≤ length answer.old) × (6 ≤ length command.old)) }
    ensures answer_after { answer.new ≡ over (refused_words no_state 0 words.now) answer.old }
    ensures command_after { command.new ≡ over (command_numbers Nothing) command.old }
{
    let values = [
        refusals::NO_STATE as u32,
        0,
        0,
        0,
        0,
        c_state::word_at(words, c_state::INDEX_PLACE),
        c_state::word_at(words, c_state::PHASE_PLACE),
        c_state::word_at(words, c_state::FINISHED_PLACE),
    ];
    buffers::put(&values, answer);
    c_answer::put_command(Command::Nothing, command);
}

// One fix for the plan with a serial. On a refusal the state's words are what they were.
pub fn farnkuppel_fix(
    state: &mut [i32],
    serial: u32,
    north: f32,
    east: f32,
    down: f32,
    answer: &mut [u32],
    command: &mut [f32],
) -> u32
    ensures value { result ≡ fix_result (fix_fits state.old answer.old command.old) state.old serial (record { north = north; east = east; down = down }) }
    ensures state_after { state.new ≡ fix_state (fix_fits state.old answer.old command.old) state.old serial (record { north = north; east = east; down = down }) }
    ensures answer_after { answer.new ≡ fix_answer (fix_fits state.old answer.old command.old) state.old serial (record { north = north; east = east; down = down }) answer.old }
    ensures command_after { command.new ≡ fix_command (fix_fits state.old answer.old command.old) state.old serial (record { north = north; east = east; down = down }) command.old }
    ensures fix_holds { FixHolds (fix_fits state.old answer.old command.old) serial (record { north = north; east = east; down = down }) state.old state.new result }
    ensures calls_run { CallsRun × ((CallExample × Separates) × Lengths) }
{
    if !c_state::fits(state.len(), answer.len(), c_answer::ANSWER) {
        return refusals::MISFIT as u32;
    }
    if command.len() < c_answer::COMMAND {
        return refusals::MISFIT as u32;
    }
    if !c_state::holds_state(state) {
        refuse(state, answer, command);
        return refusals::NO_STATE as u32;
    }
    let decided = decide_at(state, serial, Fix { north, east, down });
    let given = decided.answer;
    let asked = given.command;
    let next = decided.progress;
    c_answer::put_answer(given, answer);
    c_answer::put_command(asked, command);
    c_state::put_progress(next, state);
    given.refusal as u32
}

// The file of the plan that words hold. Their blocks are lent as they lie.
fn write_at(words: &[i32], version: u32, file: &mut [u8]) -> Written
    requires { (state_length ≤ length words.now) × (holds_state words.now ≡ true) }
    ensures value { result ≡ written_of (write_of (state_at words.now) version (length file.old)) }
    ensures file_after { file.new ≡ buffer_of (write_of (state_at words.now) version (length file.old)) file.old }
{
    wpl::write_from(
        &c_state::plan_at(words),
        c_state::progress_at(words),
        version,
        file,
    )
}

// Writes the plan of a state as a file of a version. Refused, nothing of the file is written.
pub fn farnkuppel_write(state: &[i32], version: u32, file: &mut [u8], answer: &mut [u32]) -> u32
    ensures value { result ≡ write_result (write_fits state.now answer.old) (write_from state.now version (length file.old)) }
    ensures file_after { file.new ≡ write_file (write_fits state.now answer.old) (write_from state.now version (length file.old)) file.old }
    ensures answer_after { answer.new ≡ write_answer (write_fits state.now answer.old) (write_from state.now version (length file.old)) answer.old }
    ensures untouched { Untouched result file.old file.new }
{
    if !c_state::fits(state.len(), answer.len(), WRITE_ANSWER) {
        return refusals::MISFIT as u32;
    }
    if !c_state::holds_state(state) {
        buffers::put(&[refusals::NO_STATE as u32, 0, 0], answer);
        return refusals::NO_STATE as u32;
    }
    let written = write_at(state, version, file);
    let number = written.refusal as u32;
    let values = [
        number,
        c_answer::word(written.place),
        c_answer::word(written.length),
    ];
    buffers::put(&values, answer);
    number
}

// The table of distances of the state that words hold. Their blocks are lent as they lie.
fn distances_at(words: &[i32], table: &mut [u32]) -> Result<(), Refusal>
    requires { state_length ≤ length words.now }
    ensures value { result ≡ passed_of (distances_in (taken_of words.now) (length table.old)) }
    ensures table_after { table.new ≡ table_of (distances_in (taken_of words.now) (length table.old)) table.old }
{
    if !c_state::holds_state(words) {
        return Err(refusals::failed(refusals::NO_STATE));
    }
    distance::distances_from(&c_state::plan_at(words), c_state::progress_at(words), table)
}

// The distance to go from each index of a state's plan on. Refused, nothing of the table is written.
pub fn farnkuppel_distances(state: &[i32], table: &mut [u32], answer: &mut [u32]) -> u32
    ensures value { result ≡ distances_result (distances_fit state.now answer.old) (distances_in (taken_of state.now) (length table.old)) }
    ensures table_after { table.new ≡ distances_table (distances_fit state.now answer.old) (distances_in (taken_of state.now) (length table.old)) table.old }
    ensures answer_after { answer.new ≡ distances_answer (distances_fit state.now answer.old) (distances_in (taken_of state.now) (length table.old)) answer.old }
    ensures untouched { Untouched result table.old table.new }
    ensures tables_stay { TablesStay × DistanceExample }
{
    if !c_state::fits(state.len(), answer.len(), DISTANCES_ANSWER) {
        return refusals::MISFIT as u32;
    }
    match distances_at(state, table) {
        Ok(()) => {
            buffers::put(&[0, 0], answer);
            0
        }
        Err(found) => {
            let number = u32::from(found.number);
            buffers::put(&[number, c_answer::word(found.place)], answer);
            number
        }
    }
}

// The distance to go of the state that words hold. Their blocks are lent as they lie.
fn distance_at(words: &[i32]) -> Result<u32, Refusal>
    requires { state_length ≤ length words.now }
    ensures { result ≡ distance_by (distance_in (taken_of words.now)) }
{
    if c_state::holds_state(words) {
        return distance::distance_from(&c_state::plan_at(words), c_state::progress_at(words));
    }
    Err(refusals::failed(refusals::NO_STATE))
}

// The distance to go from a state's index on.
pub fn farnkuppel_distance(state: &[i32], answer: &mut [u32]) -> u32
    ensures value { result ≡ distance_result (distance_fits state.now answer.old) (distance_in (taken_of state.now)) }
    ensures answer_after { answer.new ≡ distance_answer (distance_fits state.now answer.old) (distance_in (taken_of state.now)) answer.old }
{
    if !c_state::fits(state.len(), answer.len(), DISTANCE_ANSWER) {
        return refusals::MISFIT as u32;
    }
    match distance_at(state) {
        Ok(left) => {
            buffers::put(&[0, 0, left], answer);
            0
        }
        Err(found) => {
            let number = u32::from(found.number);
            buffers::put(&[number, c_answer::word(found.place), 0], answer);
            number
        }
    }
}
