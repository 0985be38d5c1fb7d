#![tactic(auto)]
// How near the printed figures are to the exact ones: stated in specs/, proved in proofs/. The crate has no code of
// its own.
