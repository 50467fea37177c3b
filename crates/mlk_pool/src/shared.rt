// A board that workers share.

ghost use Rattle.std.specs.Prelude.{◌≡◌, ◌<◌, Some, slice_get};
ghost use Rattle.mlk_pool.specs.Given.{tasks_of};
ghost use Rattle.mlk_pool.specs.Boards.{IsOutcomeOf};

use crate::board::{Board, Outcome, Ticket};
use crate::inputs::Inputs;
use mlk_program::EntryId;
use std::sync::{Mutex, Wait};

/// A board that workers share under a lock. Each claim and each post is one hold of the lock.
#[derive(Drop)]
pub struct SharedBoard<N: Inputs> {
    tasks: usize,
    board: Mutex<Board<N>>,
}

impl<N: Inputs> SharedBoard<N> {
    /// The board, to be shared.
    pub fn new(board: Board<N>) -> SharedBoard<N> {
        SharedBoard {
            tasks: board.task_count(),
            board: Mutex::new(board),
        }
    }

    /// How many tasks there are.
    pub(crate) fn task_count(&self) -> usize {
        self.tasks
    }

    /// The next task; none where every task is claimed.
    pub fn claim(&self, rt: &impl Wait, worker: usize) -> Option<Ticket<N>>
        requires { worker < N.given.workers }
    {
        self.board.lock(rt).claim(worker)
    }

    /// Posts what came of a claim from this board. Where the claim did not come from it, or is spent, the board stays as it
    /// was.
    pub fn post(&self, rt: &impl Wait, claim: Ticket<N>, outcome: Outcome)
        requires { (entry : EntryId) → slice_get (tasks_of N.given) claim.task ≡ Some entry → IsOutcomeOf N.given entry outcome }
    {
        let mut board = self.board.lock(rt);
        if board.has_claimed(&claim) {
            board.post(claim, outcome);
        }
    }

    /// The board, once no worker has it any more.
    pub fn into_board(self) -> Board<N> {
        self.board.into_inner()
    }
}
