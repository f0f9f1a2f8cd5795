//! The special variables: the number, the name and the first value of each.
#![tactic(auto)]

pub mod globals;
pub mod special;

pub use globals::{global_name, global_number};
pub use special::{
    CONVFMT, COUNT, FIELD_COUNT, FNR, FS, NR, OFMT, OFS, ORS, RLENGTH, RS, RSTART, SUBSEP,
    first_value, is_field_count, is_special, special_name, special_number,
};
