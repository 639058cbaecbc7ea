// The listing of a page of 14 bytes, which has no entries.
#![tactic(auto)]

fn main() {
    listing_run::run();
}
