// Families of lock names.

use mlk_names::LockName;

/// A family of lock names: a name and all below it, with a rank from 0 to 999,999.
#[derive(Drop)]
pub struct Family {
    pub name: LockName,
    pub rank: u32,
}
