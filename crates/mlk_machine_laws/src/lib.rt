//! From properties of each job by itself to properties of all jobs of a run: two clash only where rules make reads free, none
//! wait in a ring, and none that has ended holds a lock. And the bindings that the end of a block or frame restores.
#![tactic(auto)]

mod law;

pub use law::{
    all_end_empty, clashes_are_free, each_is_tidy, ends_put_back, kill_is_exact, new_is_new,
    no_clash, no_ring, outside_is_kept, shared_by_reference,
};
