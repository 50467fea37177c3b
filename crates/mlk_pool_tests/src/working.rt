// Two threads that work on one board.

ghost use Rattle.std.specs.Prelude.{◌≡◌, ◌<◌, map};
ghost use Rattle.mlk_syntax.specs.Views.{routine_of};
ghost use Rattle.mlk_pool.specs.Given.{AreInputs};

use crate::gates::Open;
use crate::given::{Trial, passes};
use crate::meeting::Meeting;
use mlk_cert::Certificate;
use mlk_pool::{Board, Inputs, SharedBoard, work};
use mlk_program::Program;
use mlk_rules::Rules;
use mlk_walk::Pieces;
use std::alloc::Global;
use std::marker::Brand;
use std::sync::Wait;
use std::thread;
use std::thread::Threads;

// What the workers look into.
#[derive(Clone, Copy, Drop)]
struct Parts<'a> {
    program: &'a Program<'a>,
    rules: &'a Rules,
    certificate: &'a Certificate,
}

// Lets two workers work on a board of the caller.
fn work_by_two<'x, N: Inputs + Send + Sync, P: Pieces + Sync, R: Threads + Wait + Sync>(
    rt: &'x R,
    alloc: Global,
    parts: &'x Parts<'x>,
    board: &'x SharedBoard<N>,
    pieces: &'x P,
)
    requires inputs { AreInputs N.given (map routine_of parts.now.program.now) parts.now.rules.now parts.now.certificate.now }
    requires workers { N.given.workers ≡ 2 }
{
    thread::scope(
        thread::scope_env(),
        rt,
        |scope|
            requires { AreInputs N.given (map routine_of parts.now.program.now) parts.now.rules.now parts.now.certificate.now
                × (N.given.workers ≡ 2) }
        {
            for worker in 0..2usize {
                let _ = scope.spawn(
                    move ||
                        requires { AreInputs N.given (map routine_of parts.now.program.now) parts.now.rules.now parts.now.certificate.now
                            × (N.given.workers ≡ 2) × (worker < 2) }
                    {
                        work(
                            rt,
                            alloc,
                            parts.program,
                            parts.rules,
                            parts.certificate,
                            board,
                            &Open,
                            worker,
                            0,
                            pieces,
                        )
                    },
                );
            }
        },
    );
}

// How many events are left in the log.
fn events_of_two<N: Inputs + Send + Sync, P: Pieces + Sync, R: Threads + Wait + Sync>(
    rt: &R,
    alloc: Global,
    program: &Program<'_>,
    rules: &Rules,
    certificate: &Certificate,
    pieces: &P,
) -> Option<usize>
    requires inputs { AreInputs N.given (map routine_of program.now) rules.now certificate.now }
    requires workers { N.given.workers ≡ 2 }
{
    let board: Board<N> = Board::new(alloc, program, rules, certificate, 2).ok()?;
    let shared = SharedBoard::new(board);
    let parts = Parts {
        program,
        rules,
        certificate,
    };
    work_by_two(rt, alloc, &parts, &shared, pieces);
    Some(shared.into_board().log().len())
}

/// Whether two workers see the walks of each other's entries begin, and leave a claim and a post of each of the twelve tasks.
pub(crate) fn meet_at_work<R: Threads + Wait + Sync>(
    rt: &R,
    alloc: Global,
    program: &Program<'_>,
    rules: &Rules,
    certificate: &Certificate,
) -> bool {
    let meeting = Meeting::new(1, 2);
    let events = events_of_two::<Brand, Meeting, R>(
        rt,
        alloc,
        program,
        rules,
        certificate,
        &meeting,
    );
    events == Some(24) && meeting.have_met()
}

#[test]
fn both_workers_walk_at_once(rt: HostRuntime) {
    assert!(&rt; passes(&rt, rt.alloc(), Trial::Work));
}
