// 01's limits, each in one place.
#![tactic(auto)]

// How many sections a cascade has room for.
pub const MAX_SECTIONS: usize = 4;

// The most taps that a tap record holds.
pub const MAX_TAPS: usize = 64;

// The largest order of a design, and of a band pass.
pub const MAX_ORDER: usize = 8;

pub const MAX_BAND_ORDER: usize = 4;
