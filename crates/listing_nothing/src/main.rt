// The listing of no input at all.
#![tactic(auto)]

fn main() {
    listing_run::run();
}
