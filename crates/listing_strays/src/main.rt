// The listing of a page with an entry that is no sector.
#![tactic(auto)]

fn main() {
    listing_run::run();
}
