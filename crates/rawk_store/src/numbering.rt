//! The numbers of fields.

ghost use Rattle.std.specs.Prelude.{◌≡◌};
ghost use Rattle.rawk_value.specs.Values.{next_ok, number_of};
ghost use Rattle.rawk_store.specs.State.{field_number};

use rawk_limits::LAST_FIELD;
use rawk_value::{Fault, Value, number_of};

/// The number of a field, or of fields, that a value is: that of its text or number, with the faults of `number_of`. Below 0 and above 1,000,000 it is refused:
/// `FieldNumber`. It takes no memory.
pub fn field_number(value: &Value) -> Result<usize, Fault>
    ensures { result ≡ next_ok (number_of value.now) field_number }
{
    let n = number_of(value)?;
    if 0 <= n && n <= LAST_FIELD as i64 {
        Ok(n as usize)
    } else {
        Err(Fault::FieldNumber)
    }
}
