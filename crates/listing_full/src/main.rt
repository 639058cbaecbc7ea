// The listing of a page with as many entries as a list may have.
#![tactic(auto)]

fn main() {
    listing_run::run();
}
