// What a line wishes: a separation or "least", an offset or "best".
ghost use Rattle.std.specs.Prelude.{◌≡◌};
ghost use Rattle.plan.specs.Wish.{wish_of};

#[derive(Clone, Copy, Debug, PartialEq, Eq, Hash)]
pub enum Wish {
    // Does this separation fit at this offset?
    Fit(usize, i32),
    // The least separation at this offset.
    Least(i32),
    // The offsets that do at this separation.
    Range(usize),
    // The best separation, and the offsets that do there.
    Best,
}

// The marks for "least" and "best" are those of a sheet; they are no separation and no offset that is accepted.
pub const LEAST: u32 = 0xffff;

pub const BEST: i32 = i32::MIN;

// The wish that two numbers of a record mean, whatever they are.
pub fn wish_of(separation: u32, offset: i32) -> Wish
    ensures { result ≡ wish_of separation offset }
{
    match (separation, offset) {
        (LEAST, BEST) => Wish::Best,
        (LEAST, d) => Wish::Least(d),
        (s, BEST) => Wish::Range(s as usize),
        (s, d) => Wish::Fit(s as usize, d),
    }
}
