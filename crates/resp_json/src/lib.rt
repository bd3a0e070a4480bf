//! Values as JSON: one text for each value, which identifies the value.
//!
//! [`value::write_json`] writes the JSON text of a value, and [`value::write_json_line`] its line, as
//! `resp show --json` prints it. `docs/json.md` describes the mapping.
#![tactic(auto)]

pub mod laws;
mod pairs;
pub mod text;
pub mod value;
