// The rules for one global.

use crate::candidate::{Candidate, candidates_of};
use crate::cover::{CoverGuess, Element, Pattern, pattern_of};
use crate::place::LockPattern;
use crate::score::{Score, WHOLE, count_writes, share_at};
use crate::split::{Split, count_explained, split_at};
use crate::suspect::{AskedLock, Suspect, add_suspects};
use mlk_names::Access;
use mlk_suggest::{Evidence, Spot, TouchAt};
use mlk_suggest_steps::{LockRoot, Program, Symbol, Word};
use mlk_text::push_sparing;
use std::alloc::{AllocError, Global};

/// The minimum share of the touches of a private global that must have `$JOB` at one subscript, in hundredths.
const JOB_TOUCHES: usize = 75;

/// The minimum share of the writes at which a second lock must be held, in hundredths.
const SECOND_WRITES: usize = 75;

/// The maximum number of elements of a pattern in a rule file.
const MOST_ELEMENTS: usize = 8;

/// A rule without locks: for a global in which each job has its own part, or one that is never written.
#[derive(Drop)]
pub struct GlobalGuess {
    pub pattern: Pattern,
    /// the number of touches that support the rule
    pub touches: usize,
    /// the number of all touches
    pub all_touches: usize,
    /// the number of touches at which a lock with the global's own name is held nevertheless
    pub locked: usize,
}

/// A global, or a part of it, for which no rule is suggested: no lock is held at half of its writes.
#[derive(Drop)]
pub struct Undecided {
    pub pattern: Pattern,
    /// the number of places that write it
    pub writes: usize,
    /// the number of places that read it
    pub reads: usize,
    /// the first of the writes
    pub first: Option<Spot>,
    /// the lock that is held at most writes, if one is held at any
    pub best: Option<(LockPattern, Score)>,
}

/// The suggestions for globals.
#[derive(Drop)]
pub(crate) struct GlobalGuesses {
    pub(crate) covers: Vec<CoverGuess>,
    pub(crate) private: Vec<GlobalGuess>,
    pub(crate) readonly: Vec<GlobalGuess>,
    pub(crate) undecided: Vec<Undecided>,
    pub(crate) suspects: Vec<Suspect>,
}

impl GlobalGuesses {
    /// No suggestions.
    pub(crate) fn new(alloc: Global) -> GlobalGuesses {
        GlobalGuesses {
            covers: Vec::new(alloc),
            private: Vec::new(alloc),
            readonly: Vec::new(alloc),
            undecided: Vec::new(alloc),
            suspects: Vec::new(alloc),
        }
    }
}

/// The input of the search for a rule of one global.
#[derive(Clone, Copy, Drop)]
pub(crate) struct Judge<'j> {
    pub(crate) alloc: Global,
    pub(crate) program: &'j Program<'j>,
    pub(crate) evidence: &'j Evidence<'j>,
    pub(crate) global: Word,
}

// The number of touches that have `$JOB` at a given subscript.
fn count_job(evidence: &Evidence<'_>, touches: &[usize], place: usize) -> usize {
    let mut count: usize = 0;
    for touch in touches {
        if let Some(touch) = evidence.touches.get(*touch) {
            if let Some(Symbol::Job) = touch.reference.subscripts.get(place) {
                count = count.saturating_add(1);
            }
        }
    }
    count
}

// The first subscript at which enough touches have `$JOB`, and their number; `None` if there is none.
fn job_place(evidence: &Evidence<'_>, touches: &[usize]) -> Option<(usize, usize)> {
    for place in 0..MOST_ELEMENTS {
        let count = count_job(evidence, touches, place);
        if count > 0 && count.saturating_mul(100) >= touches.len().saturating_mul(JOB_TOUCHES) {
            return Some((place, count));
        }
    }
    None
}

// The number of subscripts that a reference must have to determine all subscripts of a rule's locks.
fn places_of(lock: &LockPattern, also: &Option<LockPattern>) -> usize {
    match also {
        Some(second) => lock.places().max(second.places()),
        None => lock.places(),
    }
}

impl<'j> Judge<'j> {
    // The pattern of the global that begins with `fixed`, with variables after them, `count` elements or as many as are fixed.
    fn pattern(
        &self,
        touches: &[usize],
        fixed: &[Element],
        count: usize,
    ) -> Result<Pattern, AllocError> {
        pattern_of(
            self.alloc,
            self.evidence,
            self.global,
            touches,
            fixed,
            count,
        )
    }

    // Whether a lock with the global's own name is held in some way at a touch.
    fn holds_own(&self, touch: &TouchAt<'_>) -> bool {
        let tables = &self.evidence.tables;
        let own = LockRoot::Global(self.global);
        touch.moments.iter().any(|moment| {
            tables.locks(moment.holding).iter().any(|lock| tables
                .name(*lock)
                .is_some_and(|name| name.root == own))
        })
    }

    // The number of touches at which a lock with the global's own name is held in some way.
    fn count_locked(&self, touches: &[usize]) -> usize {
        let mut count: usize = 0;
        for touch in touches {
            if let Some(touch) = self.evidence.touches.get(*touch) {
                count = count.saturating_add(usize::from(self.holds_own(touch)));
            }
        }
        count
    }

    // The rule that each job has its own part, if enough touches support it and a lock with the global's own name is held at no
    // more than half of them.
    fn private_guess(&self, touches: &[usize]) -> Result<Option<GlobalGuess>, AllocError> {
        let Some((place, count)) = job_place(self.evidence, touches) else {
            return Ok(None);
        };
        let locked = self.count_locked(touches);
        if locked.saturating_mul(2) > touches.len() {
            return Ok(None);
        }
        let mut pattern = self.pattern(touches, &[], place)?;
        push_sparing(&mut pattern.elements, Element::Job)?;
        Ok(Some(GlobalGuess {
            pattern,
            touches: count,
            all_touches: touches.len(),
            locked,
        }))
    }

    // The rule that the part of the global that begins with `fixed` is never written.
    fn readonly_guess(
        &self,
        touches: &[usize],
        fixed: &[Element],
    ) -> Result<GlobalGuess, AllocError> {
        Ok(GlobalGuess {
            pattern: self.pattern(touches, fixed, fixed.len())?,
            touches: touches.len(),
            all_touches: touches.len(),
            locked: self.count_locked(touches),
        })
    }

    // Whether a touch is a read at which a lock is not held in all ways.
    fn is_read_left(&self, touch: &TouchAt<'_>, lock: &LockPattern) -> Result<bool, AllocError> {
        if touch.reference.access == Access::Writes {
            return Ok(false);
        }
        Ok(share_at(self.alloc, self.evidence, touch, lock)? < WHOLE)
    }

    // The number of reads at which a second lock is held and the first is not, and the number of all reads at which the first is
    // not.
    fn count_reads_left(
        &self,
        touches: &[usize],
        first: &LockPattern,
        second: &LockPattern,
    ) -> Result<(usize, usize), AllocError> {
        let mut held: usize = 0;
        let mut left: usize = 0;
        for touch in touches {
            if let Some(touch) = self.evidence.touches.get(*touch) {
                if self.is_read_left(touch, first)? {
                    let share = share_at(self.alloc, self.evidence, touch, second)?;
                    left = left.saturating_add(1);
                    held = held.saturating_add(usize::from(share >= WHOLE));
                }
            }
        }
        Ok((held, left))
    }

    // A second lock that is held at enough writes too, and at half of the reads at which the first is not held.
    fn second_lock(
        &self,
        touches: &[usize],
        candidates: &[Candidate],
    ) -> Result<Option<LockPattern>, AllocError> {
        let Some((best, others)) = candidates.split_first() else {
            return Ok(None);
        };
        for other in others {
            if other.lock.root != best.lock.root && other.score.has_writes(SECOND_WRITES) {
                let (held, left) = self.count_reads_left(touches, &best.lock, &other.lock)?;
                if held > 0 && held.saturating_mul(2) >= left {
                    return Ok(Some(other.lock.clone()?));
                }
            }
        }
        Ok(None)
    }

    // Adds the places at which a lock that a cover requires is missing.
    fn add_suspects(
        &self,
        guesses: &mut GlobalGuesses,
        touches: &[usize],
        asked: &AskedLock<'_>,
    ) -> Result<(), AllocError> {
        add_suspects(
            self.alloc,
            self.evidence,
            &mut guesses.suspects,
            touches,
            asked,
        )
    }

    // Adds a cover by the lock `best`, and the places at which it is missing.
    fn add_cover(
        &self,
        guesses: &mut GlobalGuesses,
        touches: &[usize],
        candidates: &[Candidate],
        best: &Candidate,
        fixed: &[Element],
    ) -> Result<(), AllocError> {
        let also = self.second_lock(touches, candidates)?;
        let reads_are_free = also.is_none() && best.score.reads >= 2 && !best.score.has_reads(50);
        let has_reads = also.is_none() && !reads_are_free;
        let asked = AskedLock {
            lock: &best.lock,
            cover: guesses.covers.len(),
            is_second: false,
            has_reads,
        };
        self.add_suspects(guesses, touches, &asked)?;
        if let Some(lock) = &also {
            let second = AskedLock {
                lock,
                cover: guesses.covers.len(),
                is_second: true,
                has_reads: false,
            };
            self.add_suspects(guesses, touches, &second)?;
        }
        let count = places_of(&best.lock, &also);
        let cover = CoverGuess {
            pattern: self.pattern(touches, fixed, count)?,
            lock: best.lock.clone()?,
            also,
            score: best.score,
            reads_are_free,
        };
        push_sparing(&mut guesses.covers, cover)
    }

    // The place of the first write, or `None`.
    fn first_write(&self, touches: &[usize]) -> Option<Spot> {
        for touch in touches {
            if let Some(touch) = self.evidence.touches.get(*touch) {
                if touch.reference.access == Access::Writes {
                    return Some(touch.spot);
                }
            }
        }
        None
    }

    // Adds that no rule is suggested.
    fn add_undecided(
        &self,
        guesses: &mut GlobalGuesses,
        touches: &[usize],
        candidates: &[Candidate],
        fixed: &[Element],
    ) -> Result<(), AllocError> {
        let writes = count_writes(self.evidence, touches);
        let first = self.first_write(touches);
        let best = match candidates.first() {
            Some(best) => Some((best.lock.clone()?, best.score)),
            None => None,
        };
        let undecided = Undecided {
            pattern: self.pattern(touches, fixed, fixed.len())?,
            writes,
            reads: touches.len().saturating_sub(writes),
            first,
            best,
        };
        push_sparing(&mut guesses.undecided, undecided)
    }

    // Adds the rule for the part of the global that begins with `fixed`, whose touches are `touches`.
    fn judge_part(
        &self,
        guesses: &mut GlobalGuesses,
        touches: &[usize],
        fixed: &[Element],
    ) -> Result<(), AllocError> {
        if count_writes(self.evidence, touches) == 0 {
            let readonly = self.readonly_guess(touches, fixed)?;
            return push_sparing(&mut guesses.readonly, readonly);
        }
        let candidates = candidates_of(
            self.alloc,
            self.program,
            self.evidence,
            self.global,
            touches,
        )?;
        match candidates.first() {
            Some(best) if best.score.has_writes(50) => {
                self.add_cover(guesses, touches, candidates.as_slice(), best, fixed)
            }
            _ => self.add_undecided(guesses, touches, candidates.as_slice(), fixed),
        }
    }

    // Adds a rule for each part of the global.
    fn judge_parts(&self, guesses: &mut GlobalGuesses, split: &Split) -> Result<(), AllocError> {
        for part in &split.parts {
            let own = part.touches.as_slice();
            let constant = Element::Constant(part.constant);
            if split.place == 0 {
                self.judge_part(guesses, own, &[constant])?;
            } else {
                let fixed = [Element::Variable(None), constant];
                self.judge_part(guesses, own, &fixed)?;
            }
        }
        if !split.others.is_empty() {
            self.add_undecided(guesses, split.others.as_slice(), &[], &[])?;
        }
        Ok(())
    }

    // The parts by the constants at a subscript, if they explain clearly more touches than the `whole` global does.
    fn better_split(
        &self,
        touches: &[usize],
        place: usize,
        whole: usize,
    ) -> Result<Option<Split>, AllocError> {
        let Some(split) = split_at(self.alloc, self.program, self.evidence, touches, place)? else {
            return Ok(None);
        };
        let sum = split.count_explained(self.alloc, self.program, self.evidence, self.global)?;
        let is_better = sum > whole.saturating_add(WHOLE)
            && sum.saturating_sub(whole).saturating_mul(10) > touches.len().saturating_mul(WHOLE);
        if is_better { Ok(Some(split)) } else { Ok(None) }
    }

    // The parts of the global, if no lock is held at enough of its touches.
    fn parts(&self, touches: &[usize]) -> Result<Option<Split>, AllocError> {
        if count_writes(self.evidence, touches) == 0 {
            return Ok(None);
        }
        let candidates = candidates_of(
            self.alloc,
            self.program,
            self.evidence,
            self.global,
            touches,
        )?;
        let best = candidates.first().map(|candidate| candidate.score);
        let has_writes = best.is_some_and(|score| score.has_writes(90));
        if has_writes && best.is_some_and(|score| score.has_reads(50)) {
            return Ok(None);
        }
        let whole = count_explained(
            self.alloc,
            self.program,
            self.evidence,
            self.global,
            touches,
        )?;
        if let Some(split) = self.better_split(touches, 0, whole)? {
            return Ok(Some(split));
        }
        if has_writes {
            return Ok(None);
        }
        self.better_split(touches, 1, whole)
    }

    /// Adds the rules for the global, given the indexes `touches` of its touches in the evidence.
    pub(crate) fn judge(
        &self,
        guesses: &mut GlobalGuesses,
        touches: &[usize],
    ) -> Result<(), AllocError> {
        if let Some(private) = self.private_guess(touches)? {
            return push_sparing(&mut guesses.private, private);
        }
        match self.parts(touches)? {
            Some(split) => self.judge_parts(guesses, &split),
            None => self.judge_part(guesses, touches, &[]),
        }
    }
}
