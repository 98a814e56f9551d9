// Compares the course table with sines worked out another way: not by a series, but by turning a vector by one unit 1,024 times.
#![tactic(auto)]

use text::Text;

// How many entries the table has: a quarter of a circle, both ends included.
const ENTRIES: usize = 1025;

// Room for the one line.
const LINE_ROOM: usize = 64;

// The cosine and the sine of a course, of a circle of radius 1.
#[derive(Clone, Copy)]
struct Turn {
    cosine: f64,
    sine: f64,
}

impl Turn {
    // One unit, 1/4096 of a circle, further.
    fn one_further(self) -> Turn {
        let c = 0.9999988234517019;
        let s = 0.0015339801862847655;
        Turn {
            cosine: self.cosine * c - self.sine * s,
            sine: self.sine * c + self.cosine * s,
        }
    }
}

// Whether an entry is the whole number nearest to 16,384 times the sine.
fn agrees(entry: u16, sine: f64) -> bool {
    let d = 16384.0 * sine - f64::from(entry);
    d < 0.5 && -0.5 < d
}

// How many of the entries agree.
fn agreeing() -> u64 {
    let mut count: u64 = 0;
    let mut t = Turn {
        cosine: 1.0,
        sine: 0.0,
    };
    for k in 0..ENTRIES {
        if agrees(course::sine(k), t.sine) {
            count += 1;
        }
        t = t.one_further();
    }
    count
}

fn main(rt: HostRuntime) {
    let mut line = [0u8; LINE_ROOM];
    let mut out = Text::new(0, &mut line);
    out.decimal(agreeing());
    out.text(b" of 1025 entries agree\n");
    let _ = console::write(rt, out.written());
}
