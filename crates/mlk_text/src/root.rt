// The roots of lock names.

use crate::name::Name;

/// What a lock name begins with: a global's name or a local's. The two are different even if they are spelled alike.
#[derive(Clone, Drop, PartialEq, Eq)]
pub enum Root {
    Global(Name),
    Local(Name),
}
