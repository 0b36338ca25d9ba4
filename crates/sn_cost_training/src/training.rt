//! The tuples of training windows.
ghost use Rattle.std.specs.Prelude.{◌≡◌, ◌<◌, [], OnOk, OnErr};
ghost use Rattle.std.specs.List.{AllByRecursion};
ghost use Rattle.sn_cost_training.specs.Trained.{none, with_window};
ghost use Rattle.sn_cost_training.specs.Windows.{IsApart, trained_on};

use sn_base::memory::Memory;
use sn_base::seq::Seq;
use sn_fields::tuple::Tuple;
use std::alloc::Global;
use std::marker::Model;

/// A window with a tuple at least.
#[derive(Drop)]
pub struct TrainingWindow {
    /// Its number.
    pub number: u64,
    /// Its tuples, in capture order.
    pub tuples: Seq<Tuple>,
}

/// What a plan is trained on. Contracts see the tuples of all windows in one list, and for each the number of its window.
#[derive(Drop)]
pub struct Training {
    windows: Seq<TrainingWindow>,
}

impl Model for Training {
    ghost use Rattle.sn_cost_training.specs.Trained.{Training};
    ghost use Rattle.sn_cost_training.specs.Windows.{IsApart, trained_on};

    ghost Value = { Training };

    ghost view = { λ a. trained_on a.windows };

    ghost invariant = { λ a. IsApart a.windows };
}

impl Training {
    /// No window.
    pub fn new(alloc: Global) -> Training
        ensures { result ≡ none }
    {
        Training {
            windows: Seq::new(alloc),
        }
    }

    /// Adds a window after those that there are, and leaves no room in its list for more tuples. A window without a tuple adds
    /// nothing.
    ///
    /// # Errors
    /// Out of memory: then nothing is changed.
    pub fn add(&mut self, number: u64, tuples: Seq<Tuple>) -> Result<(), Memory>
        requires { AllByRecursion (λ n. n < number) self.old.numbers }
        ensures ok { OnOk result (self.new ≡ with_window self.old number tuples) }
        ensures err { OnErr result (self.new ≡ self.old) }
    {
        let mut held = tuples.into_vec();
        if held.is_empty() {
            return Ok(());
        }
        held.shrink_to_fit();
        self.windows.push(TrainingWindow {
            number,
            tuples: Seq::from_vec(held),
        })
    }

    /// The windows, one after another.
    pub fn windows(&self) -> &[TrainingWindow]
        ensures all { self.now ≡ trained_on result.now }
        ensures apart { IsApart result.now }
    {
        self.windows.as_slice()
    }
}
