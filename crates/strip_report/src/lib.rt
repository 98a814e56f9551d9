// What the program strip_listing prints, as text in a lent buffer: the strip listing of a plan file (docs/RULES.md, section 16).
#![tactic(auto)]

ghost use Rattle.std.specs.Prelude.{◌≡◌, ◌*◌, ◌≤◌, length};
ghost use Rattle.text.specs.Added.{Fits, Added, AtMost};
ghost use Rattle.strips.specs.Check.{refused_check, check_of};
ghost use Rattle.report.specs.Listing.{listed_in, listed_length};
ghost use Rattle.strip_report.specs.StripListing.{strip_title, strip_line, strip_lines_to, strips_text, fault_text, checked_text, strip_listing_of, strip_listing_room, StripsListed, OneListing};
ghost use Rattle.strip_report.specs.Holds.{StripListingHolds};

use manager::State;
use plan::Head;
use strips::{Fault, Strip};
use text::Text;

// Room for every strip listing.
pub const STRIP_LISTING_ROOM: usize = 2140;

fn put_first_line(version: u16, head: Head, strips: usize, out: &mut Text)
    requires { Fits 124 out.old }
    ensures { Added (strip_title version head strips) out.old out.new × AtMost 124 out.old out.new }
{
    report::put_title(version, head, out);
    out.count(b" strips ", strips as u64);
    out.byte(b'\n');
}

fn put_strip(strip: Strip, out: &mut Text)
    requires { Fits 63 out.old }
    ensures { Added (strip_line strip) out.old out.new × AtMost 63 out.old out.new }
{
    out.decimal(strip.number as u64);
    out.count(b" ", strip.course as u64);
    out.count(b" ", strip.length);
    out.byte(b'\n');
}

// A line for each strip.
fn put_strips(state: State, strips: usize, out: &mut Text)
    requires { (strips ≡ (check_of state).strips) × Fits (63 * strips) out.old }
    ensures { Added (strip_lines_to state strips) out.old out.new }
{
    let plan = state.plan.lent();
    for i in 0..strips {
        let row = strips::row_at(plan.norths, plan.easts, plan.downs, plan.courses, i + 1);
        put_strip(row, out);
    }
}

fn put_fault(fault: Fault, out: &mut Text)
    requires { Fits 79 out.old }
    ensures { Added (fault_text (refused_check fault.refusal fault.place fault.rule)) out.old out.new }
{
    out.refusal(u64::from(fault.refusal), fault.place as u64);
    out.count(b" rule ", u64::from(fault.rule));
    out.byte(b'\n');
}

// What the check of a state says: its strips, or the fault.
fn put_checked(version: u16, state: State, out: &mut Text)
    requires { Fits strip_listing_room out.old }
    ensures { Added (checked_text version state (check_of state)) out.old out.new }
{
    match strips::check(state) {
        Ok(strips) => {
            put_first_line(version, state.plan.head, strips, out);
            put_strips(state, strips, out);
        }
        Err(fault) => put_fault(fault, out),
    }
}

// The strip listing of a file as the newest reader loads it, and its length. In a buffer of fewer than STRIP_LISTING_ROOM bytes nothing is written,
// and the length is 0. One generic function with report::listing would be no plainer: each puts its own text by its own lemmas, and few lines are shared.
pub fn strip_listing(file: &[u8], buffer: &mut [u8]) -> usize
    ensures value { result ≡ listed_length strip_listing_room (strip_listing_of file.now) buffer.old }
    ensures buffer_after { buffer.new ≡ listed_in strip_listing_room (strip_listing_of file.now) buffer.old }
    ensures upper_bound { result ≤ length buffer.old }
    ensures strips_listed { StripsListed file.now (strip_listing_of file.now) × (OneListing × StripListingHolds) }
{
    if buffer.len() < STRIP_LISTING_ROOM {
        return 0;
    }
    let mut out = Text::new(0, buffer);
    let loaded = wpl::load(file, records::NEWEST);
    if loaded.refusal == 0 {
        let state = loaded.state;
        let version = records::u16_at(file, records::VERSION_OFFSET);
        put_checked(version, state, &mut out);
        return out.at;
    }
    out.refusal(u64::from(loaded.refusal), loaded.place as u64);
    out.byte(b'\n');
    out.at
}
