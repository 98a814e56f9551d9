// Lists the plan on standard input as the newest reader loads it, or says why it is refused (docs/RULES.md, section 16). It takes no
// arguments; those, and input that can't be read, are trouble: one line on standard error and nothing else.
#![tactic(auto)]

// Where an argument would stand, behind the program's own name.
const ARGUMENT: usize = 1;

// The same lines as in strip_listing: one function for both would take two sizes and a closure that is lent a buffer, and be no plainer.
fn main(rt: HostRuntime) {
    if console::has_argument(&rt, ARGUMENT) {
        console::complain(rt, b"usage: listing < PLAN\n");
        return;
    }
    let mut file = [0u8; report::FILE_ROOM];
    let Ok(count) = console::read(rt, &mut file) else {
        return;
    };
    let mut text = [0u8; report::LISTING_ROOM];
    let length = report::listing(&file[..count], &mut text);
    let _ = console::write(rt, &text[..length]);
}
