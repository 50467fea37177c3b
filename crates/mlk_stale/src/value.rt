// Values on the stack and in locals.

use crate::path::Path;
use crate::tracked::Tracked;
use crate::walk::Walk;
use mlk_names::Sym;
use mlk_stale_steps::{Change, StackStep};
use std::alloc::AllocError;

impl<'a> Walk<'_, 'a> {
    /// Does `step`, which pushes values on the stack and pops them.
    pub(crate) fn change_stack(
        &mut self,
        path: &mut Path<'a>,
        step: &StackStep<'a>,
    ) -> Result<(), AllocError> {
        let value = match step {
            StackStep::Constant(value) => Tracked::of(self.alloc, Sym::Const(value.copy()?)),
            StackStep::JobNumber => Tracked::of(self.alloc, Sym::Job),
            StackStep::Local(name) => path.value_of(&mut self.namer, name)?,
            StackStep::Copy => match path.stack.last() {
                Some(value) => value.clone()?,
                None => self.namer.make_unknown()?,
            },
            StackStep::Combine(count) => {
                let parts = path.take(self.alloc, *count)?;
                self.namer.combine(parts.as_slice())?
            }
            StackStep::Forget(count) => {
                path.discard(*count);
                self.namer.make_unknown()?
            }
            StackStep::Discard(count) => {
                path.discard(*count);
                return Ok(());
            }
        };
        path.put(value)
    }

    /// Does `change` of a local or of `$TEST`.
    pub(crate) fn change(
        &mut self,
        path: &mut Path<'a>,
        change: &Change<'a>,
    ) -> Result<(), AllocError> {
        match change {
            Change::Assign(name) => {
                let value = path.stack.pop();
                let _ = path.replace(name.as_bytes(), value)?;
            }
            Change::ForgetLocals => path.locals.clear(),
            Change::New(name) => path.hide(name, None)?,
            Change::AnyTest => path.test = None,
        }
        Ok(())
    }
}
