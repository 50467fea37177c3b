// Keys of lock names, by which a table finds the jobs that may hold a name.

ghost use Rattle.std.specs.Prelude.{◌≡◌, ◌==◌, ◌&&◌, nat_lt};
ghost use Rattle.std.specs.List.{list_any};
ghost use Rattle.mlk_machine_locks.specs.Keys.{mixed_one, mixed, root_key, deeper, itself, keys_of, is_under};

use mlk_names::{LockName, Root};
use mlk_text::Value;

// Extends a key by a byte, or by a mark that is not a byte.
#[tactic(auto, unfolding(crate::specs::Keys::mixed_one))]
fn mix_one(key: u64, byte: u64) -> u64
    ensures { result ≡ mixed_one key byte }
{
    key.wrapping_mul(1_099_511_628_211).wrapping_add(byte)
}

// Extends a key by `bytes`.
fn mix(key: u64, bytes: &[u8]) -> u64
    ensures { result ≡ mixed key bytes.now }
{
    let mut mixed = key;
    let mut left = bytes;
    while let Some((byte, others)) = left.split_first() {
        mixed = mix_one(mixed, u64::from(*byte));
        left = others;
    }
    mixed
}

/// The key of the root of a name. Allocates nothing.
#[tactic(auto, unfolding(crate::specs::Keys::root_key))]
pub(crate) fn root_key(root: &Root) -> u64
    ensures { result ≡ root_key root.now }
{
    match root {
        Root::Global(name) => mix(1, name.as_bytes()),
        Root::Local(name) => mix(2, name.as_bytes()),
    }
}

/// The key of the names below a name, with the next subscript `subscript`. Allocates nothing.
#[tactic(auto, unfolding(crate::specs::Keys::deeper))]
pub(crate) fn key_below(key: u64, subscript: &Value) -> u64
    ensures { result ≡ deeper key subscript.now }
{
    mix(mix_one(key, 256), subscript.as_bytes())
}

/// The key of a name alone, without those below it. Allocates nothing.
#[tactic(auto, unfolding(crate::specs::Keys::itself))]
pub(crate) fn own_key(key: u64) -> u64
    ensures { result ≡ itself key }
{
    mix_one(key, 257)
}

// Whether a job that holds `name` is listed under `key`.
fn is_key_of(name: &LockName, key: u64) -> bool
    ensures { result ≡ list_any (λ k. key == k) (keys_of name.now) }
{
    let mut current = root_key(&name.root);
    let mut left = name.subs.as_slice();
    while let Some((subscript, others)) = left.split_first() {
        if key == current {
            return true;
        }
        current = key_below(current, subscript);
        left = others;
    }
    key == current || key == own_key(current)
}

/// Whether a job that holds `entries` is listed under `key` because of one of them. Allocates nothing.
pub(crate) fn is_under(key: u64, entries: &[(LockName, u32)]) -> bool
    ensures { result ≡ is_under key entries.now }
{
    let mut left = entries;
    while let Some((entry, others)) = left.split_first() {
        if entry.1 > 0 && is_key_of(&entry.0, key) {
            return true;
        }
        left = others;
    }
    false
}
