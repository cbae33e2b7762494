// The parts of a report, written one behind another into a list that has room for them. Each asks for its own room, and the whole
// report counts it once.
ghost use Rattle.std.specs.Prelude.{◌≡◌, ◌+◌, ◌≤◌, ◌++◌, length, decimal};
ghost use Rattle.reporting.specs.Listing.{field, line};

use bounded::Bounded;

// The most bytes that a report has: the number of 512 events, and for each a line of at most 22 bytes.
pub(crate) const MOST_BYTES: usize = 11_275;

// A report in the making.
pub(crate) type Page = Bounded<u8, MOST_BYTES>;

const SPACE: u8 = 32;

pub(crate) const NEWLINE: u8 = 10;

// A number, its first digit first; by hand, since no clause says that std's `write!` answers `Ok` where there is room.
#[tactic(auto, using(std::proofs::lemmas::Fmt::decimal_step, std::proofs::lemmas::Fmt::decimal_digit, std::proofs::lemmas::Grind::common_steps))]
fn write_number(bytes: &mut Page, n: u64)
    requires { length bytes.old + length (decimal n) ≤ 11275 }
    ensures { bytes.new ≡ bytes.old ++ decimal n }
{
    if n >= 10 {
        write_number(bytes, n / 10);
    }
    let _ = bytes.extend_from_slice(&[48 + (n % 10) as u8]);
}

// A number and the byte that ends it.
#[tactic(auto, using(std::proofs::lemmas::Grind::common_steps), unfolding(crate::specs::Listing::field))]
pub(crate) fn write_field(bytes: &mut Page, n: u64, end: u8)
    requires { length bytes.old + length (field n end) ≤ 11275 }
    ensures { bytes.new ≡ bytes.old ++ field n end }
{
    write_number(bytes, n);
    let _ = bytes.push(end);
}

// The line of an event: its number, its time and the shown number of its grade.
#[tactic(auto, using(std::proofs::lemmas::Grind::common_steps), unfolding(crate::specs::Listing::line))]
pub(crate) fn write_line(bytes: &mut Page, event: usize, time: u64, shown: u8)
    requires { length bytes.old + length (line event time shown) ≤ 11275 }
    ensures { bytes.new ≡ bytes.old ++ line event time shown }
{
    write_field(bytes, event as u64, SPACE);
    write_field(bytes, time, SPACE);
    write_field(bytes, shown as u64, NEWLINE);
}
