//! Which records match a criterion, and what the functions of records answer.
#![tactic(auto)]

mod criteria;
mod fields;
mod headers;
mod query;
mod record_match;
mod recorded;
mod records;

pub use criteria::{content_holds, fields_of, record_matches};
pub use fields::{field_named, has_fields, is_label_at, is_no_field};
pub use headers::missing;
pub use query::Query;
pub use record_match::{Match, matches};
pub use recorded::Recorded;
