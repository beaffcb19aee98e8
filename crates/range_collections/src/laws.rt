//! Laws: functions that do nothing, and whose contracts are theorems on the words of the other
//! contracts.
mod answers;
mod headline;
mod kept;
mod members;
mod operations;
mod parts;
mod ranges;
mod values;

pub use answers::{
    a_change_gives_its_members, a_negation_turns_one_boundary, a_refused_change_changes_nothing,
    a_union_keeps_the_first_of_equal_boundaries, enough_room_is_infallible, only_arrays_are_read,
    the_longest_front_is_pinned, what_is_written_is_pinned,
};
pub use headline::{every_form_gives_one_list, the_headline_is_what_the_clauses_say};
pub use kept::{
    an_empty_range_changes_nothing, items_past_the_result_stay, the_left_boundary_stays,
};
pub use members::{
    aligned_numbers_are_multiples, the_members_are_listed, the_previous_value_is_pinned,
    values_in_a_row_lie_between_the_ends, what_fits_starts_in_a_gap,
};
pub use operations::{
    disjoint_is_an_empty_intersection, operations_associate, operations_commute,
    operations_give_their_members, results_are_pinned, same_members_are_equal_items,
    subset_is_an_empty_difference, subset_is_an_order, unions_are_pinned,
};
pub use parts::{
    a_range_is_contained_where_nothing_is_left, gaps_are_the_ranges_of_the_difference,
    gaps_have_what_is_not_in_the_set, parts_are_the_shortest, the_next_element_is_pinned,
};
pub use range_merge::laws::{
    changes_are_at_most_the_lengths, changes_are_marked_truly, changes_mean_the_connective,
    changes_mean_the_opposite, copies_stand_after_what_was_there, operations_are_connectives,
    owners_are_pinned, the_test_alone_stops, weight_is_at_most_the_lengths,
};
pub use ranges::{
    arrays_read_back, as_many_fit_as_lie_in_a_range_of_no_members, ranges_make_the_set,
    spans_go_from_the_first_boundary_to_the_last, texts_read_back, values_are_counted,
};
pub use values::{
    a_set_and_what_is_not_in_it_are_everything, combined_sets_are_pinned,
    difference_is_an_intersection_with_the_negation, negating_twice_gives_the_same,
    negation_is_the_connective_not_left, off_connectives_speak_of_every_element,
    same_members_among_values_are_equal_items,
};
