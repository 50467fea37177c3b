// Values that were computed and not used yet.

ghost use Rattle.std.specs.Prelude.{◌≡◌, ◌∷◌, [], IfOk, OnOk, OnErr, reverse, take, drop, length, slice_get, option_map};

use mlk_text::Value;
use std::alloc::{AllocError, Global};
use std::marker::Model;

/// Values that were computed and not used yet. A contract sees the last one first.
#[derive(Drop)]
pub struct Stack {
    values: Vec<Value>,
}

impl Model for Stack {
    ghost use Rattle.std.specs.Prelude.{List, ℕ, reverse};

    ghost Value = { List (List ℕ) };

    ghost view = { λ s. reverse s.values.items };
}

// The last `count` values, or all if there are fewer.
fn last_of(values: &[Value], count: usize) -> &[Value]
    ensures { result.now ≡ reverse (take count (reverse values.now)) }
{
    let (_, last) = values.split_at(values.len().saturating_sub(count));
    last
}

// Copies `values`.
fn copy_values(alloc: Global, values: &[Value]) -> Result<Vec<Value>, AllocError>
    ensures { IfOk result (λ copies. copies.items ≡ values.now) }
{
    let mut copies = Vec::with_capacity(alloc, values.len())?;
    for value in values {
        copies.push(value.copy()?)?;
    }
    Ok(copies)
}

impl Stack {
    /// The stack of `values`, oldest first.
    pub fn of(values: Vec<Value>) -> Stack
        ensures { result ≡ reverse values.items }
    {
        Stack { values }
    }

    /// Copies the stack.
    pub fn copy(&self) -> Result<Stack, AllocError>
        ensures { IfOk result (λ copy. copy ≡ self.now) }
    {
        let values = copy_values(*self.values.allocator(), self.values.as_slice())?;
        Ok(Stack { values })
    }

    /// The number of values.
    pub fn depth(&self) -> usize
        ensures { result ≡ length self.now }
    {
        self.values.len()
    }

    /// Pushes `value`.
    pub fn push(&mut self, value: Value) -> Result<(), AllocError>
        ensures ok { OnOk result (self.new ≡ value ∷ self.old) }
        ensures err { OnErr result (self.new ≡ self.old) }
    {
        self.values.push(value)?;
        Ok(())
    }

    /// The last `count` values, or all if there are fewer, oldest first.
    pub fn last(&self, count: usize) -> &[Value]
        ensures { result.now ≡ reverse (take count self.now) }
    {
        last_of(self.values.as_slice(), count)
    }

    /// The `count` values below the top `skipped` ones, oldest first.
    #[tactic(auto, using(crate::proofs::StackLemmas::kept_are))]
    pub fn values_below(&self, skipped: usize, count: usize) -> &[Value]
        ensures { result.now ≡ reverse (take count (drop skipped self.now)) }
    {
        let (kept, _) = self
            .values
            .split_at(self.values.len().saturating_sub(skipped));
        last_of(kept, count)
    }

    /// The value at `depth` below the top, or `None`.
    #[tactic(auto, using(crate::proofs::StackLemmas::at_depth, crate::proofs::StackLemmas::none_below))]
    pub fn value_at(&self, depth: usize) -> Option<&Value>
        ensures { option_map (λ value. value.now) result ≡ slice_get self.now depth }
    {
        let count = self.values.len();
        if depth >= count {
            return None;
        }
        Some(&self.values[count - 1 - depth])
    }

    /// Drops the last `count` values.
    #[tactic(auto, using(crate::proofs::StackLemmas::kept_are))]
    pub fn use_up(&mut self, count: usize)
        ensures { self.new ≡ drop count self.old }
    {
        self.values
            .truncate(self.values.len().saturating_sub(count));
    }

    /// Replaces the last `count` values by `value`. If memory runs out, nothing is changed.
    #[tactic(auto, using(crate::proofs::StackLemmas::replaced_are))]
    pub fn replace_last(&mut self, count: usize, value: Value) -> Result<(), AllocError>
        ensures ok { OnOk result (self.new ≡ value ∷ drop count self.old) }
        ensures err { OnErr result (self.new ≡ self.old) }
    {
        self.values.reserve(1)?;
        self.values
            .truncate(self.values.len().saturating_sub(count));
        self.values.push_reserved(value);
        Ok(())
    }
}
