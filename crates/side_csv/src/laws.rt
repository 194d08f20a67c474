//! Laws of the files beside the job file.

ghost use Rattle.side_csv.specs.Laws.{EditsKeepRules, OneEditFault, OneListOfEdits};
ghost use Rattle.side_csv.specs.Laws.{OnePrecedence, OnePrecedenceFault, PrecedenceKeepsRules};
ghost use Rattle.side_csv.specs.Laws.{OneScenario, OneScenarioFault, ScenariosKeepRules};
ghost use Rattle.side_csv.specs.Laws.{OneRecordedRun, OneRunFault, RunsKeepRules};

use csv_numbers::{one_first_fault, rows_agree, rows_keep_rules};

/// The bytes of a precedence file fix its edges.
pub fn one_precedence()
    ensures { OnePrecedence }
{
    rows_agree();
}

/// A precedence file has at most one first broken rule, beside want of memory.
pub fn one_precedence_fault()
    ensures { OnePrecedenceFault }
{
    rows_agree();
    rows_keep_rules();
    one_first_fault();
}

/// A precedence file whose rows name edges breaks no rule.
pub fn precedence_keeps_rules()
    ensures { PrecedenceKeepsRules }
{
    rows_agree();
    rows_keep_rules();
}

/// The bytes of a scenario file fix the scenario.
pub fn one_scenario()
    ensures { OneScenario }
{
    rows_agree();
}

/// A scenario file has at most one first broken rule, beside want of memory.
pub fn one_scenario_fault()
    ensures { OneScenarioFault }
{
    rows_agree();
    rows_keep_rules();
    one_first_fault();
}

/// A scenario file that gives a scenario breaks no rule.
pub fn scenarios_keep_rules()
    ensures { ScenariosKeepRules }
{
    rows_agree();
    rows_keep_rules();
}

/// The bytes of a file of a run fix the run.
pub fn one_recorded_run()
    ensures { OneRecordedRun }
{
    rows_agree();
}

/// A file of a run has at most one first broken rule, beside want of memory.
pub fn one_run_fault()
    ensures { OneRunFault }
{
    rows_agree();
    rows_keep_rules();
    one_first_fault();
}

/// A file that gives a run breaks no rule.
pub fn runs_keep_rules()
    ensures { RunsKeepRules }
{
    rows_agree();
    rows_keep_rules();
}

/// The bytes of a file of edits fix them.
pub fn one_list_of_edits()
    ensures { OneListOfEdits }
{
    rows_agree();
}

/// A file of edits has at most one first broken rule, beside want of memory.
pub fn one_edit_fault()
    ensures { OneEditFault }
{
    rows_agree();
    rows_keep_rules();
    one_first_fault();
}

/// A file that gives edits breaks no rule.
pub fn edits_keep_rules()
    ensures { EditsKeepRules }
{
    rows_agree();
    rows_keep_rules();
}
