// The places of document 01's table, by name: the same names and numbers as in specs/Places.antt.
// No other file has a place's number.

// 1,331 numbers
pub const SIZE: usize = 1331;

// A state of that length. Whether it keeps the lines of the table is for `inspect` to say, and stays
// a clause, `good`, of what needs it: the parts of a call leave buffers between that are not good.
pub type Buffer = [u32; SIZE];

// four bytes for each
pub const BYTES: usize = 5324;

// The version of this table.
pub const CURRENT: u32 = 2;
// The places of the first version stand in front in every version.
pub const BASE: usize = 1330;
// 0: letters WRP
pub const LETTERS: usize = 0;
// 1: version
pub const VERSION: usize = 1;
// 2, 3: opening time; last time
pub const OPENED: usize = 2;

pub const LAST: usize = 3;
// 4, 5: IMSI, quotient and remainder by 2^32
pub const QUOTIENT: usize = 4;

pub const REMAINDER: usize = 5;
// 6, 7, 8: NFM, Start Timer, RPM
pub const NFM: usize = 6;

pub const START: usize = 7;

pub const RPM: usize = 8;
// 9, 10-19: number of base intervals; intervals
pub const COUNT: usize = 9;

pub const INTERVALS: usize = 10;
// 20-25: N1, T1, F1, F2, F3, F4
pub const PARAMETERS: usize = 20;
// 26, 27: A1, S1
pub const HOUSE: usize = 26;
// 28-30: LR-1, LR-2, LR-3
pub const RATES: usize = 28;
// 31-34: failures in a row
pub const FAILURES: usize = 31;
// 35-38: back-off ends
pub const ENDS: usize = 35;
// 39-42: standing
pub const STANDING: usize = 39;
// 43: PDP mood
pub const MOOD: usize = 43;
// 44-49: counters
pub const COUNTERS: usize = 44;
// 50-54, 55-1329: lengths of five lists; the lists, of 255 places each
pub const LENGTHS: usize = 50;

pub const LISTS: usize = 55;

pub const ROOM: usize = 255;
// 1330: due time of the timed reset; 0 is none
pub const DUE: usize = 1330;
