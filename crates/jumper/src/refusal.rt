// The refusals of the product (01, "What comes back"), each with the places it carries, and the numbers that are shown for it.
ghost use Rattle.std.specs.Prelude.{◌≡◌};
ghost use Rattle.jumper.specs.Refusals.{refusal_numbers, refused_with, side_number, nothing, AnswerNumbers};

use std::error::Error;
use std::fmt;

// Which way top pads lie too far off: RIGHT, top pad i is too far right of bottom pad i + r; LEFT, top pad i + r is too far left of bottom pad i. r is the
// number at which the rule is read for the separation.
#[derive(Clone, Copy, Debug, PartialEq, Eq, Hash)]
pub enum Side {
    Right,
    Left,
}

#[derive(Clone, Copy, Debug, PartialEq, Eq, Hash)]
pub enum Refusal {
    Unequal,
    Empty,
    Long,
    // The place: the index in the bottom row, or the number of pairs plus the index in the top row.
    Column(usize),
    Order(usize),
    Tracks,
    Offset,
    Wire,
    Buffer,
    // The least pair that prevents a wiring, and on which side.
    NoFit(usize, Side),
    // The first pair that sets the lowest offset, and the first that sets the highest.
    NoOffset(usize, usize),
    Line,
    Frame,
    Sequence,
    Twice,
    // The wire and the track.
    BadWire(usize, usize),
}

// All the result numbers of an answer. What an answer doesn't speak of is 0.
#[repr(C)]
#[derive(Clone, Copy, Debug, PartialEq, Eq, Hash)]
pub struct Numbers {
    pub refusal: u8,
    pub place: usize,
    pub second: usize,
    pub separation: usize,
    pub lowest: i32,
    pub highest: i32,
    pub pair: usize,
    pub side: u8,
    pub count: usize,
}

impl From<Side> for u8 {
    ghost from_gives = { λ side n. n ≡ side_number side };

    fn from(side: Side) -> u8 {
        match side {
            Side::Right => 1,
            Side::Left => 2,
        }
    }
}

impl Numbers {
    // Of an answer that refuses nothing and tells nothing.
    pub const NOTHING: Self = Numbers {
        refusal: 0,
        place: 0,
        second: 0,
        separation: 0,
        lowest: 0,
        highest: 0,
        pair: 0,
        side: 0,
        count: 0,
    };
}

// The numbers of a refusal: its own, and those that it carries.
pub fn carrying(refusal: u8, place: usize, second: usize, pair: usize, side: u8) -> Numbers
    ensures { result ≡ refused_with refusal place second pair side }
{
    Numbers {
        refusal,
        place,
        second,
        pair,
        side,
        ..Numbers::NOTHING
    }
}

impl From<Refusal> for Numbers {
    ghost from_gives = { λ r n. n ≡ refusal_numbers r };

    fn from(r: Refusal) -> Numbers {
        match r {
            Refusal::Unequal => carrying(1, 0, 0, 0, 0),
            Refusal::Empty => carrying(2, 0, 0, 0, 0),
            Refusal::Long => carrying(3, 0, 0, 0, 0),
            Refusal::Column(place) => carrying(4, place, 0, 0, 0),
            Refusal::Order(place) => carrying(5, place, 0, 0, 0),
            Refusal::Tracks => carrying(6, 0, 0, 0, 0),
            Refusal::Offset => carrying(7, 0, 0, 0, 0),
            Refusal::Wire => carrying(8, 0, 0, 0, 0),
            Refusal::Buffer => carrying(9, 0, 0, 0, 0),
            Refusal::NoFit(pair, side) => carrying(10, 0, 0, pair, u8::from(side)),
            Refusal::NoOffset(low, high) => carrying(11, low, high, 0, 0),
            Refusal::Line => carrying(12, 0, 0, 0, 0),
            Refusal::Frame => carrying(13, 0, 0, 0, 0),
            Refusal::Sequence => carrying(14, 0, 0, 0, 0),
            Refusal::Twice => carrying(15, 0, 0, 0, 0),
            Refusal::BadWire(wire, track) => carrying(16, wire, track, 0, 0),
        }
    }
}

// Of an answer that tells nothing but that nothing is refused.
impl From<()> for Numbers {
    ghost from_gives = { λ _ n. n ≡ nothing };

    fn from(_: ()) -> Numbers {
        Numbers::NOTHING
    }
}

// An answer in numbers: those of what it tells, or of its refusal.
impl<T: Into<Numbers>> From<Result<T, Refusal>> for Numbers {
    ghost from_gives = { λ r n. AnswerNumbers T.converts r n };

    fn from(answer: Result<T, Refusal>) -> Numbers {
        match answer {
            Ok(told) => told.into(),
            Err(r) => Numbers::from(r),
        }
    }
}

impl fmt::Display for Refusal {
    fn fmt<W: fmt::Write>(&self, f: &mut fmt::Formatter<W>) -> fmt::Result {
        match self {
            Refusal::Unequal => f.write_str("the rows have different numbers of pads"),
            Refusal::Empty => f.write_str("no pairs"),
            Refusal::Long => f.write_str("too many pairs"),
            Refusal::Column(place) => write!(f, "a column out of range, at place {place}"),
            Refusal::Order(place) => write!(
                f,
                "a column not right of the one before, at place {place}"
            ),
            Refusal::Tracks => f.write_str("the separation is out of range"),
            Refusal::Offset => f.write_str("the offset is out of range"),
            Refusal::Wire => f.write_str("no such wire"),
            Refusal::Buffer => f.write_str("what is lent is too small"),
            Refusal::NoFit(pair, side) => write!(f, "no wiring: pair {pair} is too far {side}"),
            Refusal::NoOffset(low, high) => write!(f, "no offset fits: pairs {low} and {high}"),
            Refusal::Line => f.write_str("no such line"),
            Refusal::Frame => f.write_str("a bad frame"),
            Refusal::Sequence => f.write_str("a frame in the wrong place"),
            Refusal::Twice => f.write_str("a line number used twice"),
            Refusal::BadWire(wire, track) => write!(f, "wire {wire} is not legal on track {track}"),
        }
    }
}

impl fmt::Display for Side {
    fn fmt<W: fmt::Write>(&self, f: &mut fmt::Formatter<W>) -> fmt::Result {
        f.write_str(match self {
            Side::Right => "right",
            Side::Left => "left",
        })
    }
}

impl Error for Refusal {}

#[cfg(test)]
mod tests {
    use super::*;
    use std::test::Fail;

    #[test]
    fn refusals_in_words(rt: HostRuntime) -> Result<(), Fail> {
        let alloc = rt.alloc();
        let cases = [
            (Refusal::Empty, "no pairs"),
            (
                Refusal::Order(7),
                "a column not right of the one before, at place 7",
            ),
            (
                Refusal::NoFit(3, Side::Left),
                "no wiring: pair 3 is too far left",
            ),
            (Refusal::NoOffset(1, 2), "no offset fits: pairs 1 and 2"),
            (Refusal::BadWire(4, 5), "wire 4 is not legal on track 5"),
        ];
        for (refusal, words) in cases {
            let told = format!(in alloc; "{refusal}")?;
            assert_eq!(rt; told.as_str(), words);
        }
        Ok(())
    }
}
