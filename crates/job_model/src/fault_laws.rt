//! Laws of the rules of job tables and of precedence rows.

ghost use Rattle.job_model.specs.FaultLaws.{EdgesKeepRules, OneEdgeFault, OneTableFault, TablesKeepRules};

/// The rows of a job table have at most one first broken rule, beside want of memory.
pub fn one_table_fault()
    ensures { OneTableFault }
{}

/// Rows that are a table break no rule.
pub fn tables_keep_rules()
    ensures { TablesKeepRules }
{}

/// Precedence rows have at most one first broken rule, beside want of memory.
pub fn one_edge_fault()
    ensures { OneEdgeFault }
{}

/// Precedence rows that keep the rules break none.
pub fn edges_keep_rules()
    ensures { EdgesKeepRules }
{}
