// Floor 2: what a legal wiring is, the rule of fit, and the theorem that joins them. There is no code here: read specs/Wiring.antt, then specs/Fit.antt and specs/Tracks.antt.
#![tactic(auto)]
