// What to do on a cause that the network gives, the CME or CMS number beside it, and what it means
// for the mood of service 2. No buffer is known here. A column is 0 MM, 1 GMM, 2 SM, 3 RP, 4 CP.
#![tactic(auto)]

ghost use Rattle.std.specs.Prelude.{◌≡◌, true};
ghost use Rattle.rules.specs.Tables.{mood_on};
ghost use Rattle.rules.specs.Causes.{printed, action, both};
ghost use Rattle.causes.specs.Tables.{entry_at, spelled, means, error_for};

use refusals::Refusal;
use rules::Answer;

// The entry of a cause in a table; of one beyond it, that of a cause without a row.
#[tactic(auto, unfolding(crate::specs::Tables::entry_at))]
fn at(table: &[u8], cause: u32) -> u8
    ensures { result ≡ entry_at table.now cause }
{
    table.get(cause as usize).copied().unwrap_or(b'.')
}

// ---- The actions: a table for each column with an entry for each cause. `.` is as 3GPP says, `b`
// back off, `d` both registrations back off, and a digit the last of the action's number. Each
// stands in a function of its own, so that on the stack one takes the place of the other.

// MM.
fn mm(cause: u32) -> u8
    ensures { result ≡ spelled (printed 0 cause).action }
{
    at(
        b"..bb.bb.dd.455.6.b....b...........b.............................",
        cause,
    )
}

// GMM.
fn gmm(cause: u32) -> u8
    ensures { result ≡ spelled (printed 1 cause).action }
{
    at(
        b"..dd..dbdd.45546bb....b.........................................",
        cause,
    )
}

// SM.
fn sm(cause: u32) -> u8
    ensures { result ≡ spelled (printed 2 cause).action }
{
    at(
        b"........b.................bb1bbbbb2b7.b8........................",
        cause,
    )
}

// RP.
fn rp(cause: u32) -> u8
    ensures { result ≡ spelled (printed 3 cause).action }
{
    at(
        b"........b.b..........bb.....bbb.......b..bb....b..b..................b...........b..............................................",
        cause,
    )
}

// CP.
fn cp(cause: u32) -> u8
    ensures { result ≡ spelled (printed 4 cause).action }
{
    at(
        b".................b...b..........................................",
        cause,
    )
}

// The entry of a cause of any column; an unknown one has no rows.
#[tactic(auto, using(crate::proofs::Table::no_rows))]
fn entry(column: u32, cause: u32) -> u8
    ensures { result ≡ spelled (printed column cause).action }
{
    match column {
        0 => mm(cause),
        1 => gmm(cause),
        2 => sm(cause),
        3 => rp(cause),
        4 => cp(cause),
        _ => b'.',
    }
}

// What to do on a cause; second is 1 where a second network is there.
#[tactic(auto, using(crate::proofs::Causes::action_told, crate::proofs::Causes::entry_low))]
pub fn action(column: u32, cause: u32, second: u32) -> u32
    ensures { result ≡ action column cause second }
{
    match entry(column, cause) {
        b'.' => 23,
        b'2' if second == 1 => 22,
        b'2' => 20,
        e if e <= b'9' => u32::from(e) - 28,
        _ => 20,
    }
}

// Whether both registrations back off on a cause.
#[tactic(auto, using(crate::proofs::Causes::tells_both), unfolding(rules::specs::Causes::both))]
pub fn both(column: u32, cause: u32) -> bool
    ensures { result ≡ both column cause }
{
    entry(column, cause) == b'd'
}

// ---- The error numbers: a table for each column with a letter for each cause, `.` where it has
// none.

// The numbers of the letters, `a` to `l` CME and `m` to `y` CMS; 42 is both.
const NUMBERS: [u32; 25] = [
    42, 103, 106, 107, 111, 112, 113, 132, 133, 134, 149, 615, 8, 10, 21, 27, 28, 29, 30, 38, 41,
    47, 50, 69, 81,
];

// MM.
fn mm_error(cause: u32) -> u8
    ensures { means result (printed 0 cause).error ≡ true }
{
    at(
        b"...b..c....efg...l....a.........hij.............................",
        cause,
    )
}

// GMM.
fn gmm_error(cause: u32) -> u8
    ensures { means result (printed 1 cause).error ≡ true }
{
    at(
        b"...c..cd...efg...l....a.........................................",
        cause,
    )
}

// SM.
fn sm_error(cause: u32) -> u8
    ensures { means result (printed 2 cause).error ≡ true }
{
    at(
        b"...........................j.k..hij...l.........................",
        cause,
    )
}

// RP.
fn rp_error(cause: u32) -> u8
    ensures { means result (printed 3 cause).error ≡ true }
{
    at(
        b"........m.n..........op.....qrs.......t..ua....v..w..................x...........y..............................................",
        cause,
    )
}

// The letter of a cause of any column; in CP, and in an unknown one, none has a number.
#[tactic(auto, using(crate::proofs::Table::no_number))]
fn letter(column: u32, cause: u32) -> u8
    ensures { means result (printed column cause).error ≡ true }
{
    match column {
        0 => mm_error(cause),
        1 => gmm_error(cause),
        2 => sm_error(cause),
        3 => rp_error(cause),
        _ => b'.',
    }
}

// The error number that stands beside a cause, 0 where none does: the AT side is given this number.
#[tactic(auto, using(crate::proofs::Causes::means_none, crate::proofs::Causes::means_one))]
fn number(column: u32, cause: u32) -> u32
    ensures { result ≡ (printed column cause).error }
{
    match letter(column, cause) {
        b'.' => 0,
        e => NUMBERS[usize::from(e - b'a')],
    }
}

// The CME number of a cause in columns 0 to 2, the CMS number in columns 3 and 4, for the AT side: 0
// with the number, or with 0 where none is printed; 2 for a column above 4 or a cause above 255.
#[tactic(auto, unfolding(crate::specs::Tables::error_for))]
pub fn error(column: u32, cause: u32) -> Answer
    ensures { result ≡ error_for column cause }
{
    if column <= 4 && cause <= 255 {
        return Answer {
            number: 0,
            second: number(column, cause),
        };
    }
    Refusal::Range.into()
}

// The mood of service 2 after a rejection: 2 permanent, 3 temporary.
#[tactic(auto, unfolding(rules::specs::Tables::mood_on))]
pub fn mood(cause: u32) -> u32
    ensures { result ≡ mood_on cause }
{
    match cause {
        8 | 27 | 28 | 29 | 32 | 33 => 2,
        _ => 3,
    }
}
