// Which separation the rule of fit serves. The calls that take or give a separation ask here, and read the rule at the number they are told.
ghost use Rattle.std.specs.Prelude.{◌≡◌, min};
ghost use Rattle.wiring.specs.Tracks.{rule_at, tracks_for};
ghost use Rattle.jumper.specs.Limits.{max_tracks};

use crate::limits::MAX_TRACKS;

// The number at which the rule is read for a separation.
#[tactic(auto, unfolding(wiring::specs::Tracks::rule_at))]
pub fn rule_at(separation: usize) -> usize
    ensures { result ≡ rule_at separation }
{
    separation.saturating_sub(1)
}

// The least separation at which the rule is read at this number, as far as separations are accepted: no number of pairs needs more.
#[tactic(auto, using(wiring::proofs::Serves::tracks_zero, wiring::proofs::Serves::tracks_above))]
pub fn tracks_for(number: usize) -> usize
    ensures { result ≡ min (tracks_for number) max_tracks }
{
    match number {
        0 => 0,
        r => r.saturating_add(1).min(MAX_TRACKS),
    }
}
