//! Every outcome of a setting: a power loss at each call of the transactions, and of each open of what is left.
use crate::database::Visit;
use crate::machine::Call;
use crate::run::{Image, Plan, Ran, run};
use crate::setting::Setting;
use anyhow::{Result, bail};
use blob_tree::{Choice, Traversal};
use std::alloc::{AllocError, Global};

/// The call at which the power fails, or none.
const POWER: u32 = 1;

/// A draw of the log, and one of the file.
const LOG: u32 = 2;

const FILE: u32 = 3;

/// No run has more choices.
const MOST_CHOICES: usize = 100;

/// No session has more outcomes, and no setting more states.
const MOST_OUTCOMES: u64 = 1_000_000;

/// A power loss in the transactions.
#[derive(Clone, Copy)]
pub struct Loss {
    /// The call at which it failed, if it did, and how many succeeded before.
    pub failed: Option<Call>,
    pub calls: u64,
    /// How many transactions were acknowledged.
    pub done: u64,
    /// The rows that were found first, if any were.
    pub found: Option<(i64, i64)>,
}

/// Files that a crash left. They are explored once.
#[derive(Drop)]
struct State {
    image: Image,
    loss: Loss,
}

/// The outcomes of a setting.
#[derive(Drop)]
pub struct Exploration {
    alloc: Global,
    setting: Setting,
    states: Vec<State>,
    /// The calls of the transactions without a power loss.
    pub calls: u64,
    /// The outcomes of power losses in the transactions, and in opens.
    pub outcomes: u64,
    pub opens: u64,
    /// The first state in which a transaction is lost or there in part, or in which what was found isn't found again.
    pub wrong: Option<Loss>,
}

/// Increments a count.
fn add(count: &mut u64) {
    *count = count.wrapping_add(1);
}

/// Returns whether these rows have the acknowledged transactions, and of the others at most the next, whole.
fn are_right(rows: (i64, i64), done: u64) -> bool {
    let (a, b) = rows;
    let is_whole = a == b;
    is_whole
        && match done {
            0 => a == 0 || a == 1,
            1 => a == 1 || a == 2,
            _ => a == 2,
        }
}

/// Returns the words of a path's draws of one file.
fn words(alloc: Global, path: &[Choice], kind: u32) -> Result<Vec<u64>, AllocError> {
    let mut words = Vec::new(alloc);
    for choice in path {
        if choice.kind == kind {
            words.push(if choice.branch == 0 { 0 } else { u64::MAX })?;
        }
    }
    Ok(words)
}

/// Returns what a path decides of a run.
fn plan(alloc: Global, path: &[Choice]) -> Result<Plan, AllocError> {
    let branch = match path.first() {
        Some(choice) => choice.branch,
        None => 0,
    };
    Ok(Plan {
        limit: branch.checked_sub(1).unwrap_or(u64::MAX),
        log: words(alloc, path, LOG)?,
        file: words(alloc, path, FILE)?,
    })
}

/// Makes `count` choices of a kind. Returns false if the list is too short.
fn choose(tree: &mut Traversal, choices: &mut [Choice], kind: u32, count: u64) -> bool {
    for _ in 0..count {
        if tree.choose(choices, kind, 2).is_none() {
            return false;
        }
    }
    true
}

/// Makes the choices of a run. Without a power loss its session has `calls` calls. Returns whether the choices are those
/// of the path.
fn make(tree: &mut Traversal, choices: &mut [Choice], ran: &Ran, calls: u64) -> bool {
    tree.begin(0);
    if tree
        .choose(choices, POWER, calls.saturating_add(1))
        .is_none()
    {
        return false;
    }
    choose(tree, choices, LOG, ran.of_log) && choose(tree, choices, FILE, ran.of_file) && tree.end()
}

impl Exploration {
    pub fn new(alloc: Global, setting: Setting) -> Exploration {
        Exploration {
            alloc,
            setting,
            states: Vec::new(alloc),
            calls: 0,
            outcomes: 0,
            opens: 0,
            wrong: None,
        }
    }

    /// Returns how many different states were found.
    pub fn states(&self) -> usize {
        self.states.len()
    }

    /// Explores the transactions, and an open of each state, until there is no new state or one is wrong.
    pub fn explore(&mut self) -> Result<()> {
        let prepared = self.prepare()?;
        self.explore_session(&prepared, Visit::Run, None)?;
        for at in 0..MOST_OUTCOMES {
            let at = at as usize;
            if at >= self.states.len() || self.wrong.is_some() {
                return Ok(());
            }
            let image = self.states[at].image.copy(self.alloc)?;
            let loss = self.states[at].loss;
            self.explore_session(&image, Visit::Look, Some(loss))?;
        }
        bail!("there are too many states")
    }

    /// Returns the files with the tables.
    fn prepare(&self) -> Result<Image> {
        let alloc = self.alloc;
        let session = self.setting.session(Visit::Prepare);
        let plan = plan(alloc, &[])?;
        Ok(run(alloc, &self.setting, session, &Image::empty(alloc), plan)?.left)
    }

    /// Explores each outcome of a session that starts with these files.
    fn explore_session(&mut self, image: &Image, visit: Visit, loss: Option<Loss>) -> Result<()> {
        let alloc = self.alloc;
        let session = self.setting.session(visit);
        let mut choices = Vec::new(alloc);
        choices.resize(MOST_CHOICES, NO_CHOICE)?;
        let mut tree = Traversal::new();
        let mut calls = 0;
        for _ in 0..MOST_OUTCOMES {
            let path = &choices[..tree.len.min(choices.len())];
            let ran = run(alloc, &self.setting, session, image, plan(alloc, path)?)?;
            if ran.failed.is_none() {
                calls = ran.calls;
            }
            if !make(&mut tree, &mut choices, &ran, calls) {
                bail!("a run can't be repeated");
            }
            self.note(image, ran, loss)?;
            if self.wrong.is_some() || tree.next(&mut choices) != Some(true) {
                return Ok(());
            }
        }
        bail!("a session has too many outcomes")
    }

    fn note(&mut self, image: &Image, ran: Ran, loss: Option<Loss>) -> Result<(), AllocError> {
        match loss {
            None => self.note_transactions(ran),
            Some(loss) => self.note_open(image, ran, loss),
        }
    }

    fn note_transactions(&mut self, ran: Ran) -> Result<(), AllocError> {
        add(&mut self.outcomes);
        if ran.failed.is_none() {
            self.calls = ran.calls;
        }
        self.keep(State {
            image: ran.left,
            loss: Loss {
                failed: ran.failed,
                calls: ran.calls,
                done: ran.seen.done,
                found: None,
            },
        })
    }

    /// Keeps what is left if it is other bytes: an open of the same ones is explored already.
    fn note_open(&mut self, image: &Image, ran: Ran, loss: Loss) -> Result<(), AllocError> {
        add(&mut self.opens);
        let rows = ran.seen.rows;
        let is_right = match rows {
            Some(rows) => are_right(rows, loss.done),
            None => ran.failed.is_some(),
        };
        if !is_right || (loss.found.is_some() && rows.is_some() && loss.found != rows) {
            self.wrong = Some(Loss {
                found: rows,
                ..loss
            });
            return Ok(());
        }
        if &ran.left == image {
            return Ok(());
        }
        let found = if rows.is_some() { rows } else { loss.found };
        self.keep(State {
            image: ran.left,
            loss: Loss { found, ..loss },
        })
    }

    /// Keeps a state unless it is known.
    fn keep(&mut self, state: State) -> Result<(), AllocError> {
        for known in &self.states {
            let is_same = known.loss.done == state.loss.done
                && known.loss.found == state.loss.found;
            if is_same && known.image == state.image {
                return Ok(());
            }
        }
        self.states.push(state)?;
        Ok(())
    }
}

const NO_CHOICE: Choice = Choice {
    kind: 0,
    branch: 0,
    among: 0,
};
