// The touches of a job.

use mlk_names::{Access, Extent};
use mlk_text::{Name, Subscripts, Value};

/// A reference to a global when a job touches it: its subscripts are values.
#[derive(Clone, Drop)]
pub struct Touch {
    /// The global's name, without its `^`.
    pub root: Name,
    pub subs: Subscripts<Value, 4>,
    pub extent: Extent,
    pub access: Access,
}
