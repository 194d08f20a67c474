//! Laws of the top call.

ghost use Rattle.sag_engine.specs.Laws.{CallsAgree, OneAnswer, WordsSuffice};

use cert_check::{no_fault_of_readable, one_end, one_text_fault};
use cert_convert::one_conversion;
use csv_numbers::{one_first_fault, rows_keep_rules};
use gap_trials::one_gap;
use job_csv::one_job_list;
use job_model::{edges_keep_rules, one_edge_fault, one_table_fault, tables_keep_rules};
use run_audit::one_first_break;
use run_meaning::one_run;
use sag_words::one_command;
use side_csv::{
    edits_keep_rules, one_edit_fault, one_list_of_edits, one_precedence, one_precedence_fault,
    one_recorded_run, one_run_fault, one_scenario, one_scenario_fault, precedence_keeps_rules,
    runs_keep_rules, scenarios_keep_rules,
};
use task_unroll::{
    one_task_fault, one_task_list, one_unroll_fault, tasks_keep_rules, unrolled_keeps_rules,
};

/// Over known files the words come to one outcome.
pub fn one_answer()
    ensures { OneAnswer }
{
    // the words fix the command, the bytes of its files what they hold or their first fault, and the work its reply
    one_command();
    rows_keep_rules();
    one_first_fault();
    one_job_list();
    tables_keep_rules();
    one_table_fault();
    edges_keep_rules();
    one_edge_fault();
    one_precedence();
    one_precedence_fault();
    precedence_keeps_rules();
    one_scenario();
    one_scenario_fault();
    scenarios_keep_rules();
    one_end();
    one_text_fault();
    no_fault_of_readable();
    one_conversion();
    one_run();
    one_task_list();
    one_task_fault();
    tasks_keep_rules();
    one_unroll_fault();
    unrolled_keeps_rules();
    one_recorded_run();
    one_run_fault();
    runs_keep_rules();
    one_first_break();
    one_list_of_edits();
    one_edit_fault();
    edits_keep_rules();
    one_gap();
}

/// Words that ask for no command, or for a selftest, come to one outcome whatever files there are.
pub fn words_suffice()
    ensures { WordsSuffice }
{
    one_command();
}

/// The same words and the same bytes of files give one status, one output and one text on the errors.
pub fn calls_agree()
    ensures { CallsAgree }
{
    one_answer();
}
