// Searches, bounded "for all" and counts over numbers: definitions and laws alone.
#![tactic(auto)]
