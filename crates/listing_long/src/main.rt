// The listing of one byte more than the longest page that is listed.
#![tactic(auto)]

fn main() {
    listing_run::run();
}
