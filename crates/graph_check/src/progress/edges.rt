//! Edge lines.

ghost use Rattle.std.specs.Prelude.{◌≡◌, ◌+◌, ◌<◌, ◌≤◌, ◌^◌, IfErr, IfNone, IsSome, None, OnOk, Some, length};
ghost use Rattle.sag_step.specs.Next.{finish_interval};
ghost use Rattle.cert_text.specs.Grammar.{IsCertNumber};
ghost use Rattle.cert_text.specs.declared.line.CertLine.TheVariants as form;
ghost use Rattle.graph_check.specs.declared.due.Due.TheVariants as dues;
ghost use Rattle.graph_check.specs.declared.answer.Broken.TheVariants as broken;
ghost use Rattle.graph_check.specs.Checks.{edge_checks, first_broken};
ghost use Rattle.graph_check.specs.Comings.{Comes, edge_offer, with_due};
ghost use Rattle.graph_check.specs.Kept.{hulls_with};
ghost use Rattle.graph_check.specs.Turns.{IsStart};

use super::Progress;
use crate::Clause;
use crate::answer::Broken;
use job_model::JobNo;
use sag_time::Span;

impl<'a> Progress<'a> {
    // The clause that an edge line breaks, if it breaks any.
    fn edge_clause(&mut self, from: u64, job: u64, est: u64, lst: u64, to: u64) -> Option<Clause>
        ensures clause { result ≡ first_broken (edge_checks self.old.progress.states
            (edge_offer self.old) from job est lst to) }
        ensures left { IfNone result (IsSome (edge_offer self.old)) }
        ensures start { IfNone result (IsStart self.old.table job (record { est = est; lst = lst })) }
        ensures same { self.new ≡ self.old }
    {
        let Some(turn) = self.walk.turn() else {
            return Some(Clause::K6);
        };
        if !turn.is_choice(from, job) {
            return Some(Clause::K6);
        }
        if !turn.has_window(est, lst) {
            return Some(Clause::K7);
        }
        let Some(entry) = self.states.get(to as usize) else {
            return Some(Clause::K8);
        };
        if !self.walk.is_covered_by(&entry.state) {
            return Some(Clause::K8);
        }
        None
    }

    // Takes an edge line.
    pub(super) fn edge(
        &mut self,
        from: u64,
        job: u64,
        est: u64,
        lst: u64,
        to: u64,
    ) -> Result<(), Broken>
        requires due { self.old.progress.due ≡ dues.Edge }
        requires est { IsCertNumber est }
        requires lst { IsCertNumber lst }
        requires few { self.old.progress.edges < 2 ^ 63 }
        ensures comes { Comes self.old.table self.old.cores self.old.progress
            (form.Edge from job est lst to) result self.new.progress }
        ensures table { self.new.table ≡ self.old.table }
        ensures cores { self.new.cores ≡ self.old.cores }
    {
        if let Some(clause) = self.edge_clause(from, job, est, lst, to) {
            return Err(Broken::Clause(clause));
        }
        self.widen_hull(job, est, lst);
        self.pass_edge()
    }

    // Passes the offer whose edge came.
    fn pass_edge(&mut self) -> Result<(), Broken>
        requires few { self.old.progress.edges < 2 ^ 63 }
        requires left { IsSome (edge_offer self.old) }
        ensures passed { OnOk result (self.new ≡ record self.old {
          progress =
              with_due self.old.table (record self.old.progress {
                edges = self.old.progress.edges + 1;
              });
        }) }
        ensures memory { IfErr result (λ e. e ≡ broken.Memory) }
        ensures table { self.new.table ≡ self.old.table }
        ensures cores { self.new.cores ≡ self.old.cores }
    {
        let passed = self.walk.pass();
        if passed.is_err() {
            return Err(Broken::Memory);
        }
        self.due = self.due_in_level();
        Ok(())
    }

    // The hull of the job's edges with one more edge.
    fn widen_hull(&mut self, job: u64, est: u64, lst: u64)
        requires job { job < length self.old.table.jobs }
        requires est { IsCertNumber est }
        requires lst { IsCertNumber lst }
        requires order { est ≤ lst }
        ensures { self.new ≡ record self.old {
          progress = record self.old.progress {
            hulls = hulls_with self.old.progress.hulls job
                (finish_interval self.old.table job (record { est = est; lst = lst }));
          };
        } }
    {
        let table = self.walk.table();
        let _count = table.len();
        let work = table.job(JobNo(job as u16));
        let finish = Span::new(est + work.cmin, lst + work.cmax).unwrap();
        self.hulls.widen(JobNo(job as u16), finish);
    }
}
