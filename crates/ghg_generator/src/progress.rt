//! How far a run has come.

ghost use Rattle.std.specs.Prelude.{◌≡◌, ◌<◌, ◌≤◌, ◌+◌, ◌*◌, ◌^◌, ◌++◌, IfOk, OnOk, false};
ghost use Rattle.std.specs.String.{string_bytes};
ghost use Rattle.ghg_office.specs.Office.{evaluations};
ghost use Rattle.ghg_office.specs.Replies.{is_failure};
ghost use Rattle.ghg_generator.specs.Summary.{accepted_in, begun, cells_in, counts_text, gross_text, one_more, submission, summary_of};

use ghg_keeper::SteadyKeeper;
use ghg_office::{Office, Reply};
use ghg_steps::Steps;
use ghg_tables::{Precision, append_figures};
use ghg_units::Node;
use ghg_workers::{Gate, Workers};
use std::alloc::{AllocError, Global};
use std::hash::RandomState;
use std::sync::ledger::Ledger;
use std::thread::Threads;

/// The office after some submissions, how many of them it accepted, and the sum of the nodes that these
/// affected.
#[derive(Drop)]
pub struct Progress {
    office: Office,
    accepted: u64,
    cells: u128,
}

impl Progress {
    /// Before the first submission.
    pub(crate) fn new(alloc: Global, hasher: RandomState) -> Progress
        ensures { result ≡ begun }
    {
        Progress {
            office: Office::new(alloc, hasher),
            accepted: 0,
            cells: 0,
        }
    }

    /// Submits the body of this place. It is not stored.
    pub(crate) fn submit<G: Gate, T: Threads + Sync, L: Ledger>(
        &mut self,
        alloc: Global,
        workers: &Workers<'_, T, G>,
        place: u32,
        body: &[u8],
        steps: &mut Steps<L>,
    ) -> Result<(), AllocError>
        requires workers { (1 ≤ workers.now.count) × (workers.now.count ≤ 64) }
        requires few { self.old.accepted ≤ place }
        requires cells { self.old.cells ≤ place * 2 ^ 64 }
        ensures after { OnOk result (self.new ≡ one_more self.old (submission place body.now)) }
        ensures few { OnOk result (self.new.accepted ≤ place + 1) }
        ensures cells { OnOk result (self.new.cells ≤ (place + 1) * 2 ^ 64) }
        ensures steps { steps.new ≤ steps.old
            + evaluations self.old.office (submission place body.now).id body.now }
    {
        let id = format!(in alloc; "G{place}")?;
        let reply = self.office.submit(
            workers.threads,
            alloc,
            id.as_bytes(),
            body,
            workers.count,
            workers.gate,
            &mut SteadyKeeper::new(alloc),
            false,
            steps,
        );
        self.count(reply)
    }

    // Counts what a reply adds. That memory ran out is no reply; the keeper is not called, and does not fail.
    fn count(&mut self, reply: Reply) -> Result<(), AllocError>
        requires few { self.old.accepted < 2 ^ 32 }
        requires cells { self.old.cells < 2 ^ 96 }
        ensures office { self.new.office ≡ self.old.office }
        ensures accepted { OnOk result (self.new.accepted ≡ self.old.accepted + accepted_in reply) }
        ensures cells { OnOk result (self.new.cells ≡ self.old.cells + cells_in reply) }
        ensures one { OnOk result (accepted_in reply ≤ 1) }
        ensures fits { OnOk result (cells_in reply < 2 ^ 64) }
        ensures answered { OnOk result (is_failure reply ≡ false) }
    {
        match reply {
            Reply::Accepted { cells, .. } => {
                self.accepted += 1;
                self.cells += u128::from(cells);
                Ok(())
            }
            Reply::KeeperFault | Reply::Memory => Err(AllocError),
            _ => Ok(()),
        }
    }

    /// The summary of a run that came so far.
    pub(crate) fn summary(
        &self,
        alloc: Global,
        seed: u32,
        lines: u32,
    ) -> Result<Vec<u8>, AllocError>
        ensures { IfOk result (λ text. text.items ≡ summary_of seed lines self.now) }
    {
        let counts = self.counts_text(alloc, seed, lines)?;
        let gross = self.gross_text(alloc)?;
        let mut text = counts.into_bytes();
        text.extend_from_slice(b"gross 2020 ")?;
        text.extend_from_slice(&gross)?;
        text.push(b'\n')?;
        Ok(text)
    }

    // The four lines above the last.
    #[tactic(auto, unfolding(crate::specs::Summary::counts_text))]
    fn counts_text(&self, alloc: Global, seed: u32, lines: u32) -> Result<String, AllocError>
        ensures { IfOk result (λ text. string_bytes text ≡ counts_text seed lines self.now) }
    {
        let accepted = self.accepted;
        let cells = self.cells;
        Ok(format!(in alloc; "seed {seed}\nlines {lines}\naccepted {accepted}\ncells {cells}\n")?)
    }

    // What tables print of the gross total of 2020, with spaces for commas.
    fn gross_text(&self, alloc: Global) -> Result<Vec<u8>, AllocError>
        ensures { IfOk result (λ text. text.items ≡ gross_text self.now.office) }
    {
        let mut figures = Vec::new(alloc);
        let gross = self.office.shown(&Node::Gross(2020));
        append_figures(&mut figures, &gross, Precision::Thousandths)?;
        figures
            .iter()
            .map(|b| if *b == b',' { b' ' } else { *b })
            .collect(alloc)
    }
}
