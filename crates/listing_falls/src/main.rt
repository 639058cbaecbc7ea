// The listing of a page whose entries do not rise.
#![tactic(auto)]

fn main() {
    listing_run::run();
}
