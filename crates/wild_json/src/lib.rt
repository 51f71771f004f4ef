//! JSON values that borrow their texts, and the data that they are.
#![tactic(auto)]

mod fault;
mod number;
mod range;
mod reading;
mod value;

pub use fault::TextFault;
pub use range::has_data;
pub use reading::{
    MAX_DEPTH, is_end, next_item, next_name, open_array, open_object, read_value, value_of,
};
pub use value::{
    flag, is_among, is_null, is_object, items, member, object_of, signed, text, unknown_name,
    unsigned,
};
