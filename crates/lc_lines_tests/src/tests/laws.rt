//! The laws, each called once.
use lc_lines::laws;

#[test]
fn every_law_holds() {
    laws::calls_proceed_in_order();
    laws::proceeding_keeps_order();
    laws::bounds_keep_their_places();
    laws::no_head_of_line_blocking();
    laws::first_calls_wait_for_bytes();
    laws::runs_are_calls();
    laws::each_sends_once_meanwhile();
    laws::passed_channels_are_spared();
    laws::each_call_is_counted();
}
