//! Values of RESP2 and RESP3 (Redis serialization protocol specification), limits and error
//! causes.
//!
//! The grammar is defined in `specs/`. The contracts of all crates cite these definitions, and
//! [`laws`] proves facts about them.
#![tactic(auto)]

pub mod cause;
pub mod command;
pub mod content;
mod cut_value;
pub mod digits;
pub mod double;
pub mod double_stage;
pub mod kind;
pub mod laws;
pub mod limits;
pub mod line;
pub mod value;
pub mod version;

pub use cause::{Cause, Limit};
pub use command::{BadCommand, Command};
pub use content::Content;
pub use cut_value::CutValue;
pub use digits::{Digits, DigitsError};
pub use double::{BadDouble, Double};
pub use double_stage::DoubleStage;
pub use kind::OpenKind;
pub use limits::{BadLimits, Limits};
pub use line::{BadLine, Line};
pub use value::{Members, PairList, Value};
pub use version::Version;
