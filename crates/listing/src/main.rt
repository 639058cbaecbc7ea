// The listing program: standard input is a page, standard output its listing.
#![tactic(auto)]

fn main() {
    listing_run::run();
}
