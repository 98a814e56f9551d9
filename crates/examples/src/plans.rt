// Plan files of the checked examples, each with one number left to be filled in.

// Fillets from (0,0) over (1000,0) to (1000,1000), and where the radius stands.
pub const FILLETS_FILE: [u8; 57] = [
    0x57, 0x50, 0x4C, 0, 2, 0, 0, 0, 1, 0, 0x2E, 2, 2, 0, 0, 1, 0x0C, 0, 0, 0, 0, 0, 0, 0, 0, 0, 0,
    0, 0, 1, 0x0C, 0, 0, 3, 0xE8, 0, 0, 0, 0, 0, 0, 0, 0, 1, 0x0C, 0, 0, 3, 0xE8, 0, 0, 3, 0xE8, 0,
    0, 0, 0,
];

pub const RADIUS_BYTE: usize = 13;

// Dubins with R 100, from (0,0) to (0,east) and (0,5000), course 0 at each, and where the lower half of that east stands. The third point is
// far from the second, so that only the first leg can be at fault.
pub const DUBINS_FILE: [u8; 69] = [
    0x57, 0x50, 0x4C, 0, 3, 0, 0, 0, 1, 0, 0x3A, 2, 2, 0, 0x64, 1, 0x0C, 0, 0, 0, 0, 0, 0, 0, 0, 0,
    0, 0, 0, 3, 2, 0, 0, 1, 0x0C, 0, 0, 0, 0, 0, 0, 0, 0, 0, 0, 0, 0, 3, 2, 0, 0, 1, 0x0C, 0, 0, 0,
    0, 0, 0, 0x13, 0x88, 0, 0, 0, 0, 3, 2, 0, 0,
];

pub const EAST_BYTE: usize = 41;
