//! What a Pascal program means.
#![tactic(auto)]

mod errors;
mod fields;

pub use errors::{
    AT_END_OF_FILE, CALL_LIMIT, CHR_OUT_OF_RANGE, DIVISION_BY_ZERO, INDEX_OUT_OF_RANGE,
    MOD_BELOW_1, NO_CASE_MATCHES, OUT_OF_RANGE, PAST_MAXINT, STATUS_OUT_OF_RANGE, UNDEFINED_BUFFER,
    UNDEFINED_RESULT, UNDEFINED_VALUE, WIDTH_BELOW_1, WRONG_MODE,
};
pub use fields::{IntText, write_int};
