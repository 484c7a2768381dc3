//! What the words of a lock-free table say: its shape, the rule that they keep, the ways where a keyed hash lets a key be
//! linked, and what the writer notes of each reader. And laws of any such table, whatever the hashes: which history of steps
//! on its words is lawful, and what follows for lookups.
//!
//! A key is linked in one way of two buckets, and a way names the element that has the key's words and its value. Each law is
//! a function with an empty body, whose contract is the law. Nothing here touches a table: `map_table` does.
#![tactic(auto)]

mod excluded;
mod hash;
mod laws;
mod limits;
mod lists;
mod moves;
mod notes;
mod rule;
mod sections;
mod sip;
mod view;
mod ways;

pub use excluded::{
    a_number_from_before_is_excluded, doubling_an_empty_way_is_excluded,
    filling_a_held_element_is_excluded, linking_a_held_element_is_excluded,
    moving_past_a_reader_is_excluded, null_after_one_bucket_is_excluded,
    skipping_a_reader_is_excluded, small_history_is_lawful, small_history_moved_too_early_is_not,
    small_history_moves_a_key, small_history_of_one_section_is_not,
    small_history_of_two_sections_is_lawful, small_history_without_its_scan_is_not,
    storing_at_anothers_place_is_excluded, unlinking_first_is_excluded,
};
pub use hash::{Candidates, candidates_of, named};
pub use laws::{
    added_amounts_stay, elements_stand_in_one_way, held_elements_stay, held_values_stay,
    hits_are_held, hits_were_linked, kept_keys_are_found, kept_keys_stay_linked, keys_stay_once,
    keys_that_stay_are_found, loads_find_what_was_stored, moved_elements_keep_a_way,
    moved_elements_stay_linked, moves_link_no_key_twice, moves_link_nothing_new,
    null_refutes_every_element, null_refutes_every_way, one_scan_frees_all, own_words_stay,
    replaced_keys_stay, section_words_tell_sections, spare_elements_are_unheld,
    two_looks_clear_who_moved, uncleared_readers_have_one_number,
    uncleared_readers_stay_in_one_section, walks_of_readers_meet_keys_that_stay,
    walks_of_readers_meet_linked_keys, ways_name_keys_of_their_bucket,
};
pub use limits::{BUCKET_WAYS, MAX_BUCKETS, MAX_ELEMENTS, MAX_READERS, MAX_WORDS};
pub use lists::{move_first, zeros};
pub use moves::Move;
pub use notes::{Sighting, least_of, lower_each, no_sightings};
pub use rule::{Adds, Closes, Deals, Doubles, Law, Learns, Loads, Opens, Puts, Scans, Stores};
pub use sections::{SECTION_STRIDE, even_after};
pub use sip::Secret;
pub use view::{TableShape, Values, View};
pub use ways::{element_in, empty_of_both, way_word};
