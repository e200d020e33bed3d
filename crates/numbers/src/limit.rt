// The limits: how much there can be of each.

// N: nodes (ground included) and sources.
pub const UNKNOWNS: usize = 48;

// Records of a sheet.
pub const RECORDS: usize = 256;

// Points.
pub const POINTS: usize = 1024;

// ITL1, ITL3 and ITL4.
pub const PASSES: u64 = 10000;

// The budget of passes.
pub const BUDGET: u64 = 1000000;

// Jobs of a call of spreads.
pub const JOBS: usize = 256;

// Words in each of the two rows of an exact sum.
pub const SUM_LIMBS: usize = 66;

// The numbers that a job can have, refusals and verdicts, are 0 to 26.
pub const JOB_NUMBERS: usize = 27;

// With the causes beyond them they are 0 to 28.
pub const JOB_CAUSES: usize = 29;
