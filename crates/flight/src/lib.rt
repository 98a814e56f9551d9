// A flight: a plan file loaded by a reader, and a list of fixes flown from it.
#![tactic(auto)]

ghost use Rattle.std.specs.Prelude.{◌≡◌, true, ◌+◌, ◌*◌, ◌<◌, length};
ghost use Rattle.refusals.specs.Outcome.{good};
ghost use Rattle.buffers.specs.Splice.{over};
ghost use Rattle.manager.specs.State.{empty_state};
ghost use Rattle.wpl.specs.Load.{load_of};
ghost use Rattle.flight.specs.Run.{run};
ghost use Rattle.flight.specs.Demand.{Demand};
ghost use Rattle.flight.specs.TwoFlights.{OlderFlights};
ghost use Rattle.flight.specs.Anchors.{Anchored};
ghost use Rattle.flight.specs.Flight.{fix_at, named_of, answers_of, commands_of, last_of, fits_of, flown_of, answers_after, commands_after};

use manager::State;
use units::Fix;

// How many numbers a fix has.
pub const FIX_NUMBERS: usize = 3;

// The state after the last fix, or a refusal with its place.
// No Result: refused too it has a state, which `run` and `fly` promise in their clause `value` (`flown_of`), so that an Err would carry one as well.
#[derive(Clone, Copy)]
pub struct Flown {
    pub refusal: u8,
    pub place: usize,
    pub state: State,
}

// Whether each fix has its serial, its numbers and room for its answer. It divides, so that no length is multiplied past its type.
#[tactic(auto, using(crate::proofs::ListLaws::divided))]
fn fits(count: usize, fixes: usize, answers: usize, commands: usize) -> bool
    ensures { result ≡ fits_of count fixes answers commands }
{
    fixes % FIX_NUMBERS == 0
        && fixes / FIX_NUMBERS == count
        && count <= answers / c_answer::ANSWER
        && count <= commands / c_answer::COMMAND
}

// A fix of the list, counted from 0.
// No slice of fixes: `fits_of` and `OlderFlights` speak of numbers that are no whole fixes too, or of another number of fixes than serials.
fn fix_at(fixes: &[f32], i: usize) -> Fix
    requires { 3 * i + 2 < length fixes.now }
    ensures { result ≡ fix_at fixes.now i }
{
    let at = FIX_NUMBERS * i;
    Fix {
        north: fixes[at],
        east: fixes[at + 1],
        down: fixes[at + 2],
    }
}

// Every fix of the lists in turn, from a state on. The answer is the state after the last one.
// No struct of the four: two are lent to write in, and each caller would build it for one call and take those out again.
fn fly_all(
    start: State,
    serials: &[u32],
    fixes: &[f32],
    answers: &mut [u32],
    commands: &mut [f32],
) -> State
    requires { fits_of (length serials.now) (length fixes.now) (length answers.old) (length commands.old) ≡ true }
    ensures value { result ≡ last_of start (run start (named_of serials.now fixes.now)) }
    ensures answers_after { answers.new ≡ over (answers_of (run start (named_of serials.now fixes.now))) answers.old }
    ensures commands_after { commands.new ≡ over (commands_of (run start (named_of serials.now fixes.now))) commands.old }
{
    let mut state = start;
    for (i, serial) in serials.iter().enumerate() {
        let stepped = state.step(*serial, fix_at(fixes, i));
        c_answer::put_answer_at(stepped.answer, c_answer::ANSWER * i, answers);
        c_answer::put_command_at(stepped.answer.command, c_answer::COMMAND * i, commands);
        state = stepped.state;
    }
    state
}

// The fixes of the lists from a state on. Refused, the state is given back and nothing is written.
pub fn run(
    start: State,
    serials: &[u32],
    fixes: &[f32],
    answers: &mut [u32],
    commands: &mut [f32],
) -> Flown
    ensures value { result ≡ flown_of start (good start) serials.now fixes.now answers.old commands.old }
    ensures answers_after { answers.new ≡ answers_after (good start) serials.now fixes.now answers.old commands.old }
    ensures commands_after { commands.new ≡ commands_after (good start) serials.now fixes.now answers.old commands.old }
{
    if !fits(serials.len(), fixes.len(), answers.len(), commands.len()) {
        return Flown {
            refusal: refusals::MISFIT,
            place: 0,
            state: start,
        };
    }
    Flown {
        refusal: 0,
        place: 0,
        state: fly_all(start, serials, fixes, answers, commands),
    }
}

// The fixes of the lists from the state that a reader loads from a file. Refused, the state is the empty one and nothing is written.
// It keeps 15.8 to 15.16 (docs/RULES.md), whatever the file.
pub fn fly(
    file: &[u8],
    reader: u32,
    serials: &[u32],
    fixes: &[f32],
    answers: &mut [u32],
    commands: &mut [f32],
) -> Flown
    ensures value { result ≡ flown_of empty_state (load_of reader file.now) serials.now fixes.now answers.old commands.old }
    ensures answers_after { answers.new ≡ answers_after (load_of reader file.now) serials.now fixes.now answers.old commands.old }
    ensures commands_after { commands.new ≡ commands_after (load_of reader file.now) serials.now fixes.now answers.old commands.old }
    ensures older_flights { OlderFlights file.now serials.now fixes.now answers.old commands.old }
    ensures demand { Demand }
    ensures anchored { Anchored }
{
    if !fits(serials.len(), fixes.len(), answers.len(), commands.len()) {
        return Flown {
            refusal: refusals::MISFIT,
            place: 0,
            state: manager::empty(),
        };
    }
    let loaded = wpl::load(file, reader);
    let state = loaded.state;
    if loaded.refusal != 0 {
        return Flown {
            refusal: loaded.refusal,
            place: loaded.place,
            state,
        };
    }
    Flown {
        refusal: 0,
        place: 0,
        state: fly_all(state, serials, fixes, answers, commands),
    }
}
