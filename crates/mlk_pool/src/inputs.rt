// What a run of workers is given.

ghost use Rattle.mlk_pool.specs.Given.{Given, nothing};

use std::marker::Brand;

/// What one run of workers is given: a program, its rules, a certificate, and a number of workers. It has no calls: it is a
/// name for these in contracts, and whoever makes a board picks what it denotes.
pub trait Inputs {
    ghost given: { Given };
}

impl Inputs for Brand {
    ghost given = { nothing };
}
