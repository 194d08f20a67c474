//! What is printed of an audit.

ghost use Rattle.std.specs.Prelude.{◌≡◌, ◌++◌, ◌<◌, IfOk, OnOk, decimal, length};
ghost use Rattle.run_audit.specs.AnswerTexts as texts;
ghost use Rattle.run_audit.specs.FirstBreak.{rule_index};

use crate::broken::{Break, Rule};
use itoa::Buffer;
use job_model::JobTable;
use std::alloc::{AllocError, Global};

// A number.
fn put_number(into: &mut Vec<u8>, number: u64) -> Result<(), AllocError>
    ensures { OnOk result (into.new.items ≡ into.old.items ++ decimal number) }
{
    let mut buffer = Buffer::new();
    into.extend_from_slice(buffer.format(number).as_bytes())
}

// The number in a rule's name.
fn number_of(rule: Rule) -> u64
    ensures { result ≡ rule_index rule }
{
    match rule {
        Rule::L0 => 0,
        Rule::L1 => 1,
        Rule::L2 => 2,
        Rule::L3 => 3,
    }
}

/// What is printed of a run that breaks a rule: `broken L3 job 2 1 time 0` with LF, by task ID and job ID.
#[tactic(auto, unfolding(crate::specs::AnswerTexts::broken_text))]
pub fn broken_text(alloc: Global, table: &JobTable, broken: Break) -> Result<Vec<u8>, AllocError>
    requires { broken.job < length table.now.jobs }
    ensures { IfOk result (λ text. text.items ≡ texts.broken_text table.now broken) }
{
    let job = table.job(broken.job);
    let mut text = Vec::new(alloc);
    text.extend_from_slice(b"broken L")?;
    put_number(&mut text, number_of(broken.rule))?;
    text.extend_from_slice(b" job ")?;
    put_number(&mut text, job.task)?;
    text.push(b' ')?;
    put_number(&mut text, job.job)?;
    text.extend_from_slice(b" time ")?;
    put_number(&mut text, broken.time)?;
    text.push(b'\n')?;
    Ok(text)
}
