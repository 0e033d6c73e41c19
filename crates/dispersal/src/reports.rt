// Rounds 2 and 3: the first report from the agreements, the second from the first reports that came, the grade from the second ones.
// Sets of columns are a flag for each; what was received lies by column number, the own among it. Each call answers every input.
ghost use Rattle.std.specs.Prelude.{◌≡◌, false, ◌≤◌, ◌<◌, get_or};
ghost use Rattle.lists.specs.Lists.{count};
ghost use Rattle.messages.specs.Messages.{from};
ghost use Rattle.dispersal.specs.Dispersal.{agrees, first_report, reports as reports_of, reported, both as both_of, second_quorum, second_report, grade as grade_of};

use field::Field;

// The flag at place i; false past the end.
fn flag(flags: &[bool], i: usize) -> bool
    ensures { result ≡ get_or flags.now i false }
{
    flags.get(i).copied().unwrap_or(false)
}

// How many of n columns are in both sets. By index: where it was tried, counting by `filter` took twice as long.
fn in_both(n: u8, some: &[bool], others: &[bool]) -> usize
    ensures { result ≡ count (both_of (agrees some.now) (reported others.now)) n }
{
    let mut sum = 0usize;
    for i in 0..n {
        let at = i as usize;
        sum += messages::flag(flag(some, at) & flag(others, at)) as usize;
    }
    sum
}

// The first report: 1 if the column agrees with at least n - t columns, itself counted; else blank.
pub fn first(n: u8, agreements: [bool; 31]) -> u16
    ensures { result ≡ first_report n (agrees agreements) }
{
    if n as usize - sizes::faults(n) <= in_both(n, &agreements, &agreements) {
        1
    } else {
        Field::BLANK
    }
}

// A flag for each column whose first report came, agreed with or not. By index: a fixed array made at once would read all 31 places.
pub fn received(n: u8, values: [u16; 31]) -> [bool; 31]
    ensures { result ≡ reports_of n (from values) }
{
    let mut flags = [false; 31];
    for i in 0..n.min(31) as usize {
        flags[i] = messages::read_report(messages::value(&values, i)) == 1;
    }
    flags
}

// Column j's flag; column 0 has that of column 1.
#[tactic(auto, unfolding(crate::specs::Dispersal::reported))]
fn flag_of(flags: &[bool], j: u8) -> bool
    ensures { result ≡ reported flags.now j }
{
    flag(flags, j.saturating_sub(1) as usize)
}

// Whether the column sends a second report: at least n - t columns that it agrees with sent a first one, and it sent one too.
#[tactic(auto, unfolding(crate::specs::Dispersal::second_quorum))]
fn sends_second(n: u8, own: u8, agreements: &[bool], reports: &[bool]) -> bool
    ensures { result ≡ second_quorum n own (agrees agreements.now) (reported reports.now) }
{
    n as usize - sizes::faults(n) <= in_both(n, agreements, reports) && flag_of(reports, own)
}

// The second report: 1 or blank.
#[tactic(auto, unfolding(crate::specs::Dispersal::second_report))]
pub fn second(n: u8, own: u8, agreements: [bool; 31], reports: [bool; 31]) -> u16
    ensures { result ≡ second_report n own (agrees agreements) (reported reports) }
{
    if sends_second(n, own, &agreements, &reports) {
        1
    } else {
        Field::BLANK
    }
}

// The grade: 2 if the column sent a second report and received at least 2t + 1 from any columns, 1 if it sent one, else 0.
pub fn grade(n: u8, own: u8, agreements: [bool; 31], reports: [bool; 31], values: [u16; 31]) -> u8
    ensures { result ≡ grade_of n own (agrees agreements) (reported reports) (from values) }
{
    if !sends_second(n, own, &agreements, &reports) {
        return 0;
    }
    if 2 * sizes::faults(n) < messages::times(n, &values, 1) {
        2
    } else {
        1
    }
}
