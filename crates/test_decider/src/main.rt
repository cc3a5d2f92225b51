// A decider of fairness beside the engine, on a family of exchanges; the file stdout beside src/ is what it must print.

#![tactic(auto)]

mod fairness;
mod family;

use family::Counts;

// One line with the counts; a disagreement between the two is a mistake in one of them.
fn main(rt: HostRuntime) {
    let Counts {
        exchanges,
        fair,
        disagreements,
    } = family::total();
    // What cannot be written ends nothing.
    let _ = println!(rt;
        "family: {exchanges} exchanges, {fair} fair, {disagreements} disagreements"
    );
}
