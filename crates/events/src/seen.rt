// The line numbers that good headers had, as bits of one number.
ghost use Rattle.std.specs.Prelude.{◌≡◌, ◌<◌};
ghost use Rattle.jumper.specs.Limits.{max_lines};
ghost use Rattle.events.specs.Steps.{has_line, with_line};

use jumper::limits::MAX_LINES;

#[tactic(auto, unfolding(crate::specs::Steps::has_line))]
pub(crate) fn has_line(seen: u64, line: u8) -> bool
    requires { line < max_lines }
    ensures { result ≡ has_line seen line }
{
    (seen >> line) % 2 == 1
}

#[tactic(auto, using(crate::proofs::Noted::one_bit), unfolding(crate::specs::Steps::with_line))]
pub(crate) fn with_line(seen: u64, line: u8) -> u64
    ensures { result ≡ with_line seen line }
{
    if MAX_LINES <= usize::from(line) {
        return seen;
    }
    seen | (1u64 << line)
}
