// The listing of a good page of 4,097 entries, which the library reads and the program does not list.
#![tactic(auto)]

fn main() {
    listing_run::run();
}
