// The buffer: document 01's table, of 1,331 places now, and everything that knows a place's number.
// `places` names the places, by which each is read and written, `fields` has what stands in two of
// them, and `lists` adds to and asks of the five lists of permit times.
//
// What the table says is in specs/: `lay`, `view`, `good`. No function here assumes more than it
// requires.
#![tactic(auto)]

pub mod fields;
pub mod lists;
pub mod places;
