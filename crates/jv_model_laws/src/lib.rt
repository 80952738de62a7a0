//! What holds of every journal that is legal so far, in terms of its entries' numbers and lines.
#![tactic(auto)]

mod journal;

pub use journal::{
    answers_model, cleans_only_in_clean, cleans_what_is_due, closes_commit_writes,
    drains_settle_all, drops_only_gone, earlier_text_stays, ended_lines_have_entries,
    entries_are_counted, expires_only_gone, follows_clock, fresh_views_are_fresh_looks,
    journals_grow, lines_have_entries, misses_have_causes, moments_are_the_clocks, nothing_pending,
    others_stay, owed_commits, reads_are_of_fresh_looks, reads_cite_looks,
    refused_lines_have_one_entry, settles_owed, uploads_find_all,
};
