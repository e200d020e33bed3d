// Why a settled job is not sound, where its run's own number does not say it: these go on after the verdicts. A judge's refusal has its own number.

// A diode is behind.
pub const BEHIND: u8 = 27;

// The judge rejects its vector.
pub const REJECTED: u8 = 28;
