// The functions of `desk` under the names that C calls them by: the archive libdesk.a.
#![tactic(auto)]

ghost use Rattle.std.specs.Prelude.{◌≡◌, [], ◌∷◌, ◌⊎◌, ◌≤◌, length};
ghost use Rattle.refusals.specs.Numbers.{not_strips};
ghost use Rattle.c_answer.specs.Words.{interface};
ghost use Rattle.c_state.specs.Stored.{state_length, taken_of};
ghost use Rattle.wpl.specs.Load.{load_of, loaded_of};
ghost use Rattle.wpl.specs.Note.{note_of, notes_of, Numbered};
ghost use Rattle.desk.specs.Calls.{call_result, words_fit, words_answer, most_note, note_fits, note_buffer, note_answer, check_words, check_in, strips_words, strips_fit, strip_row_in, strip_words, strip_fits};
ghost use Rattle.desk.specs.Example.{NoteExample, WordsExample, StripsExample};

// The number of this interface, by which a caller knows that the archive and the header belong together.
#[unsafe(no_mangle)]
pub extern "C" fn farnkuppel_interface() -> u32
    ensures { result ≡ interface }
{
    desk::farnkuppel_interface()
}

// The number of the first refusal, 0 if the file loads. Whether it is a strip plan is not asked.
#[unsafe(no_mangle)]
pub extern "C" fn farnkuppel_refusal(file: &[u8], reader: u32) -> u32
    ensures value { result ≡ (loaded_of (load_of reader file.now)).refusal }
    ensures fact { ((result ≤ 12) ⊎ (result ≡ 17)) × (result ≡ not_strips → ⊥) }
{
    desk::farnkuppel_refusal(file, reader)
}

// The same, with the place of the refusal in the answer.
#[unsafe(no_mangle)]
pub extern "C" fn farnkuppel_check(file: &[u8], reader: u32, answer: &mut [u32]) -> u32
    ensures value { result ≡ call_result (words_fit 2 answer.old) (loaded_of (load_of reader file.now)).refusal }
    ensures answer_after { answer.new ≡ words_answer (words_fit 2 answer.old) (check_words (loaded_of (load_of reader file.now))) answer.old }
    ensures words_example { WordsExample }
{
    desk::farnkuppel_check(file, reader, answer)
}

// The bytes of a note, by its number from 1, and how many they are: none where the newest reader refuses the file or there is no such note.
#[unsafe(no_mangle)]
pub extern "C" fn farnkuppel_note(
    file: &[u8],
    number: u32,
    note: &mut [u8],
    answer: &mut [u32],
) -> u32
    ensures value { result ≡ call_result (note_fits (length note.old) (length answer.old)) 0 }
    ensures note_after { note.new ≡ note_buffer (note_fits (length note.old) (length answer.old)) (note_of file.now number) note.old }
    ensures answer_after { answer.new ≡ note_answer (note_fits (length note.old) (length answer.old)) (note_of file.now number) answer.old }
    ensures number_len_bound { (length (note_of file.now number) ≤ most_note) × NoteExample }
{
    desk::farnkuppel_note(file, number, note, answer)
}

// How many notes a file has: none where the newest reader refuses it.
#[unsafe(no_mangle)]
pub extern "C" fn farnkuppel_notes(file: &[u8], answer: &mut [u32]) -> u32
    ensures value { result ≡ call_result (words_fit 1 answer.old) 0 }
    ensures answer_after { answer.new ≡ words_answer (words_fit 1 answer.old) (notes_of file.now ∷ []) answer.old }
    ensures numbered { Numbered file.now × WordsExample }
{
    desk::farnkuppel_notes(file, answer)
}

// Whether the plan of a state is a strip plan.
#[unsafe(no_mangle)]
pub extern "C" fn farnkuppel_strips(state: &[i32], answer: &mut [u32]) -> u32
    ensures value { result ≡ call_result (strips_fit state.now answer.old) (check_in (taken_of state.now)).refusal }
    ensures answer_after { answer.new ≡ words_answer (strips_fit state.now answer.old) (strips_words (check_in (taken_of state.now))) answer.old }
    ensures strips_example { StripsExample }
{
    desk::farnkuppel_strips(state, answer)
}

// A strip of the plan of a state, by its number from 1: zeros where the plan is no strip plan or has no such strip.
#[unsafe(no_mangle)]
pub extern "C" fn farnkuppel_strip(state: &[i32], number: u32, answer: &mut [u32]) -> u32
    ensures value { result ≡ call_result (strip_fits state.now answer.old) 0 }
    ensures answer_after { answer.new ≡ words_answer (strip_fits state.now answer.old) (strip_words (strip_row_in (taken_of state.now) number)) answer.old }
{
    desk::farnkuppel_strip(state, number, answer)
}
