//! Calls of the laws that no other caller here calls. They are proved for every type, and called at
//! three: one whose clone is its source, one whose clone is another piece of memory, and one that
//! cannot be cloned.
use crate::put::Put;
use async_cell_model::laws;
use async_cell_model::laws::exact;

/// A value that cannot be cloned.
struct Uncloned;

/// The laws of histories and of wait lists.
pub fn of_histories() {
    laws::only_a_vacant_cell_keeps_waiting::<String, u64>();
    laws::a_pending_waker_stays_covered::<String, u64>();
    laws::a_value_is_taken_once::<String, u64>();
    laws::a_history_can_begin_anew::<String, u64>();
    laws::two_histories_are_one::<String, u64>();
    laws::one_more_waker_is_last_or_skipped::<String, u64>();
    laws::a_history_ends_in_a_sound_state::<String, u64>();
    laws::a_refused_call_changes_nothing::<String, u64>();
    laws::a_fill_or_close_ends_all_waiting::<String, u64>();
    laws::a_step_is_the_machines::<String, u64>();
    laws::the_first_waker_skips_all_that_it_would_wake::<u64>();
    laws::no_waker_waits_twice::<Uncloned, u64>();
    laws::the_room_goes_by_one::<Uncloned, u64>();
}

/// The laws of exact histories.
pub fn of_exact_histories() {
    exact::only_a_vacant_cell_keeps_waiting::<Uncloned, u64>();
    exact::a_pending_waker_stays_covered::<Uncloned, u64>();
    exact::a_value_is_taken_once::<Uncloned, u64>();
    exact::a_history_can_begin_anew::<Uncloned, u64>();
    exact::two_histories_are_one::<Uncloned, u64>();
    exact::one_more_waker_is_last_or_skipped::<Uncloned, u64>();
    exact::a_history_ends_in_a_sound_state::<Uncloned, u64>();
    exact::a_refused_call_changes_nothing::<Uncloned, u64>();
    exact::a_fill_or_close_ends_all_waiting::<Uncloned, u64>();
    exact::a_step_is_the_machines::<Uncloned, u64>();
}

/// The laws of lists of calls, and of the logs of a driver.
pub fn of_lists() {
    async_cell_runs::laws::two_runs_are_one::<String, u64, Put>();
    async_cell_runs::laws::two_exact_runs_are_one::<Uncloned, u64, Put>();
    async_cell_driver::laws::two_logs_are_one::<String>();
    async_cell_driver::laws::two_lists_are_one::<Uncloned, Put>();
    async_cell_driver::laws::a_log_names_those_handed_out::<String>();
    async_cell_driver::laws::a_log_is_exact_where_clones_are::<i64>();
}

/// The laws of latest states.
pub fn of_latest_states() {
    async_cell_latest::laws::a_poll_shows_the_last_state::<Uncloned, u64>();
    async_cell_latest::laws::a_version_names_one_value::<Uncloned, u64>();
    async_cell_latest::laws::a_history_ends_in_a_sound_state::<Uncloned, u64>();
}
