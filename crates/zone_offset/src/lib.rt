// The offsets of zones: seconds east of Greenwich, kept with 26 hours added so that none is negative. They go from 1 to GREATEST.
#![tactic(auto)]

// What is added to every offset.
pub const BIAS: u32 = 93600;

// The greatest offset, 25:59:59 east of Greenwich.
pub const GREATEST: u32 = 187199;

// The same for sums with seconds.
pub const BIAS_64: u64 = BIAS as u64;

pub const GREATEST_64: u64 = GREATEST as u64;
