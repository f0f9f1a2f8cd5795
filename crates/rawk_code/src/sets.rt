//! Sets that a debugger makes.

use rawk_store::Target;
use rawk_value::Value;

/// A set that stands: at a point, a place takes a value.
#[derive(Drop)]
pub struct SetAt {
    /// the number of the point
    pub point: u64,
    pub target: Target,
    pub value: Value,
}
