//! Tests of the calls of resp_cli_stream and resp_cli_loop over devices in memory that move few bytes or
//! fail, of the screen and the counts of resp_tap, and of the schedule and the visits of resp_server_net,
//! which no case of tests/cases can show.
#![tactic(auto)]

#[cfg(test)]
mod tests;
