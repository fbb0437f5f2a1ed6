//! What is planned again for an image on which a goal was carried out, and that the image differs in nothing from it: laws alone.
#![tactic(auto)]

mod law;

pub use law::{
    a_final_image_is_seen_as_planned, a_finished_image_differs_in_nothing,
    a_finished_pair_has_nothing_bad, a_made_image_differs_in_nothing,
    goals_name_pairs_by_their_roots, new_tables_have_their_pairs,
    the_least_priorities_are_never_dropped,
};
