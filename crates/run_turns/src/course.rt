//! What happens after the build or an input has begun.
ghost use Rattle.std.specs.Prelude.{◌≡◌, ◌++◌, ◌∷◌, [], false, map, IfOk, OnOk, OnErr};
ghost use Rattle.rt_model.specs.Reports.{OpensWith, is_opening};
ghost use Rattle.rt_model.specs.Told.{count_entries};
ghost use Rattle.run_reports.specs.Seen.{entry_of};

use rt_values::{List, OutOfMemory};
use run_reports::Entry;
use std::alloc::Global;

/// The entries after the build or an input has begun. None of them is a build or an input.
#[derive(Drop)]
pub struct Course {
    pub entries: List<Entry>,
    ghost later: { count_entries is_opening (map entry_of entries) ≡ 0 },
}

impl Course {
    pub fn new(alloc: Global) -> Course
        ensures empty { result.entries ≡ [] }
    {
        Course {
            entries: List::new(alloc),
        }
    }

    /// Writes an entry down.
    #[tactic(auto, using(crate::proofs::Openings::later))]
    pub fn note(&mut self, entry: Entry) -> Result<(), OutOfMemory>
        requires later { is_opening (entry_of entry) ≡ false }
        ensures ok { OnOk result (self.new.entries ≡ self.old.entries ++ entry ∷ []) }
        ensures err { OnErr result (self.new.entries ≡ self.old.entries) }
    {
        self.entries.push(entry)
    }

    /// The whole log, with the entry that opens it.
    pub fn opened_by(self, alloc: Global, first: Entry) -> Result<List<Entry>, OutOfMemory>
        ensures log { IfOk result (λ log. log ≡ first ∷ self.entries) }
        ensures opens { IfOk result (λ log. OpensWith (entry_of first) (map entry_of log)) }
    {
        let Course { entries } = self;
        let mut log = List::new(alloc);
        log.push(first)?;
        log.append(entries)?;
        Ok(log)
    }
}
