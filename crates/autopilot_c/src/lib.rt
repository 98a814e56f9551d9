// The functions of `autopilot` under the names that C calls them by: the archive libautopilot.a.
#![tactic(auto)]

ghost use Rattle.std.specs.Prelude.{◌≡◌, true, ◌≤◌, length};
ghost use Rattle.refusals.specs.Numbers.{no_state};
ghost use Rattle.refusals.specs.Outcome.{refusal_of};
ghost use Rattle.buffers.specs.Splice.{over};
ghost use Rattle.guidance.specs.declared.Command.TheVariants.{Nothing};
ghost use Rattle.manager.specs.Step.{stepped_by, step_of};
ghost use Rattle.c_answer.specs.Words.{interface, command_numbers};
ghost use Rattle.c_state.specs.Stored.{serial_place, index_place, norths_place, state_length, plan_at, state_at, holds_state, taken_of, AreWords};
ghost use Rattle.distance.specs.Table.{table_of, distance_by};
ghost use Rattle.wpl.specs.Load.{load_of, loaded_of};
ghost use Rattle.wpl.specs.Write.{write_of, written_of, buffer_of};
ghost use Rattle.autopilot.specs.Held.{Untouched, LoadHolds, FixHolds};
ghost use Rattle.autopilot.specs.CallList.{CallsRun};
ghost use Rattle.autopilot.specs.TwoBuffers.{AlikeBuffers, BuffersFly};
ghost use Rattle.autopilot.specs.Example.{CallExample, Separates, Lengths, DistanceExample};
ghost use Rattle.autopilot.specs.Calls.{load_fits, load_result, load_state, load_answer, fix_fits, refused_words, fix_result, fix_state, fix_answer, fix_command, write_fits, write_from, write_result, write_file, write_answer};
ghost use Rattle.autopilot.specs.Distances.{distances_in, distance_in, distances_fit, distances_result, distances_table, distances_answer, distance_fits, distance_result, distance_answer, TablesStay};

// The number of this interface, by which a caller knows that the archive and the header belong together.
#[unsafe(no_mangle)]
pub extern "C" fn farnkuppel_interface() -> u32
    ensures { result ≡ interface }
{
    autopilot::farnkuppel_interface()
}

// Loads a plan file by a reader of a version, into the state's words as they lie. Refused, they are those of the empty state.
#[unsafe(no_mangle)]
pub extern "C" fn farnkuppel_load(
    file: &[u8],
    reader: u32,
    state: &mut [i32],
    answer: &mut [u32],
) -> u32
    ensures value { result ≡ load_result (load_fits state.old answer.old) (loaded_of (load_of reader file.now)) }
    ensures state_after { state.new ≡ load_state (load_fits state.old answer.old) (loaded_of (load_of reader file.now)) state.old }
    ensures answer_after { answer.new ≡ load_answer (load_fits state.old answer.old) (loaded_of (load_of reader file.now)) answer.old }
    ensures load_holds { LoadHolds (load_fits state.old answer.old) reader file.now state.old state.new }
    ensures alike_buffers { AlikeBuffers × BuffersFly }
{
    autopilot::farnkuppel_load(file, reader, state, answer)
}

// One fix for the plan with a serial. On a refusal the state's words are what they were.
#[unsafe(no_mangle)]
pub extern "C" fn farnkuppel_fix(
    state: &mut [i32],
    serial: u32,
    north: f32,
    east: f32,
    down: f32,
    answer: &mut [u32],
    command: &mut [f32],
) -> u32
    ensures value { result ≡ fix_result (fix_fits state.old answer.old command.old) state.old serial (record { north = north; east = east; down = down }) }
    ensures state_after { state.new ≡ fix_state (fix_fits state.old answer.old command.old) state.old serial (record { north = north; east = east; down = down }) }
    ensures answer_after { answer.new ≡ fix_answer (fix_fits state.old answer.old command.old) state.old serial (record { north = north; east = east; down = down }) answer.old }
    ensures command_after { command.new ≡ fix_command (fix_fits state.old answer.old command.old) state.old serial (record { north = north; east = east; down = down }) command.old }
    ensures fix_holds { FixHolds (fix_fits state.old answer.old command.old) serial (record { north = north; east = east; down = down }) state.old state.new result }
    ensures calls_run { CallsRun × ((CallExample × Separates) × Lengths) }
{
    autopilot::farnkuppel_fix(state, serial, north, east, down, answer, command)
}

// Writes the plan of a state as a file of a version. Refused, nothing of the file is written.
#[unsafe(no_mangle)]
pub extern "C" fn farnkuppel_write(
    state: &[i32],
    version: u32,
    file: &mut [u8],
    answer: &mut [u32],
) -> u32
    ensures value { result ≡ write_result (write_fits state.now answer.old) (write_from state.now version (length file.old)) }
    ensures file_after { file.new ≡ write_file (write_fits state.now answer.old) (write_from state.now version (length file.old)) file.old }
    ensures answer_after { answer.new ≡ write_answer (write_fits state.now answer.old) (write_from state.now version (length file.old)) answer.old }
    ensures untouched { Untouched result file.old file.new }
{
    autopilot::farnkuppel_write(state, version, file, answer)
}

// The distance to go from each index of a state's plan on. Refused, nothing of the table is written.
#[unsafe(no_mangle)]
pub extern "C" fn farnkuppel_distances(state: &[i32], table: &mut [u32], answer: &mut [u32]) -> u32
    ensures value { result ≡ distances_result (distances_fit state.now answer.old) (distances_in (taken_of state.now) (length table.old)) }
    ensures table_after { table.new ≡ distances_table (distances_fit state.now answer.old) (distances_in (taken_of state.now) (length table.old)) table.old }
    ensures answer_after { answer.new ≡ distances_answer (distances_fit state.now answer.old) (distances_in (taken_of state.now) (length table.old)) answer.old }
    ensures untouched { Untouched result table.old table.new }
    ensures tables_stay { TablesStay × DistanceExample }
{
    autopilot::farnkuppel_distances(state, table, answer)
}

// The distance to go from a state's index on.
#[unsafe(no_mangle)]
pub extern "C" fn farnkuppel_distance(state: &[i32], answer: &mut [u32]) -> u32
    ensures value { result ≡ distance_result (distance_fits state.now answer.old) (distance_in (taken_of state.now)) }
    ensures answer_after { answer.new ≡ distance_answer (distance_fits state.now answer.old) (distance_in (taken_of state.now)) answer.old }
{
    autopilot::farnkuppel_distance(state, answer)
}
